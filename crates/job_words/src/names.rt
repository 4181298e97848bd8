//! Names of trees.
ghost use Rattle.std.specs.Prelude.{◌≡◌, ◌++◌, ◌-◌, ◌≤◌, true, length, position, replicate, slice_index, if◌then◌else◌};
ghost use Rattle.std.specs.List.{before_first, list_all, position_or_len};
ghost use Rattle.std.specs.Option.{option_map};
ghost use Rattle.job_words.specs.Names.{is_letter, is_name_byte, is_name, is_zero, unpadded};

const MAX_NAME_LEN: usize = 16;

// Whether a byte may be in a name.
fn is_name_byte(byte: u8) -> bool
    ensures { result ≡ is_name_byte byte }
{
    byte.is_ascii_lowercase() || byte.is_ascii_digit() || byte == b'_'
}

// Whether the first byte may begin a name.
fn begins_name(word: &[u8]) -> bool
    ensures { result ≡ is_letter (slice_index word.now 0) }
{
    match word {
        [first, ..] => first.is_ascii_lowercase(),
        [] => false,
    }
}

// Whether each byte may be in a name.
fn has_name_bytes(word: &[u8]) -> bool
    ensures { result ≡ list_all is_name_byte word.now }
{
    word.iter().all(|byte| is_name_byte(*byte))
}

// Whether a word is a name.
fn is_name(word: &[u8]) -> bool
    ensures { result ≡ is_name word.now }
{
    begins_name(word) && word.len() <= MAX_NAME_LEN && has_name_bytes(word)
}

// A word of at most 16 bytes, and zeros after it.
fn padded(word: &[u8]) -> [u8; MAX_NAME_LEN]
    requires { length word.now ≤ 16 }
    ensures { result ≡ word.now ++ replicate (16 - length word.now) 0 }
{
    let mut padded = [0; MAX_NAME_LEN];
    padded[..word.len()].copy_from_slice(word);
    padded
}

// The index of the first zero.
fn first_zero(padded: &[u8]) -> Option<usize>
    ensures { result ≡ position is_zero padded.now }
{
    padded.iter().position(|byte| *byte == 0)
}

// How many bytes there are before the first zero.
fn unpadded_len(padded: &[u8]) -> usize
    ensures { result ≡ position_or_len is_zero padded.now }
{
    match first_zero(padded) {
        Some(len) => len,
        None => padded.len(),
    }
}

/// A name: a lower-case letter, and then lower-case letters, digits and `_`, at most 16 bytes in all. It is a value of 16
/// bytes that takes no memory of its own.
#[derive(Clone, Copy, Debug, PartialEq, Eq)]
pub struct Name {
    // Zeros follow the bytes of the name.
    padded: [u8; MAX_NAME_LEN],
    ghost is_name: { is_name (unpadded padded) ≡ true },
}

impl Name {
    ghost use Rattle.job_words.specs.NameBytes.{bytes_of};

    /// The word as a name. None exactly where it isn't one.
    pub fn of_word(word: &[u8]) -> Option<Name>
        ensures { option_map bytes_of result ≡ (if is_name word.now then Some word.now else None) }
    {
        if is_name(word) {
            Some(Name {
                padded: padded(word),
            })
        } else {
            None
        }
    }

    /// The bytes of the name.
    pub fn bytes(&self) -> &[u8]
        ensures { result.now ≡ bytes_of self.now }
    {
        &self.padded[..unpadded_len(&self.padded)]
    }
}
