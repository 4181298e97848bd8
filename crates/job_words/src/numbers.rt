//! Whole numbers.
ghost use Rattle.std.specs.Prelude.{◌≡◌, ◌<◌, ◌^◌, IfSome};
ghost use Rattle.job_words.specs.Numbers.{size_of_digits, number, signed};

const MAX_DIGITS: usize = 18;

/// The number that 1 to 18 decimal digits write. None exactly where the word isn't that.
pub fn size_of_digits(word: &[u8]) -> Option<u64>
    ensures value { result ≡ size_of_digits word.now }
    ensures small { IfSome result (λ n. n < 10 ^ 18) }
{
    if word.is_empty() || word.len() > MAX_DIGITS {
        return None;
    }
    let mut value = 0u64;
    for byte in word {
        if *byte < b'0' || *byte > b'9' {
            return None;
        }
        value = value * 10 + u64::from(*byte - b'0');
    }
    Some(value)
}

// A number below ten to the 18 with its sign.
fn with_sign(is_negative: bool, size: u64) -> i64
    requires { size < 10 ^ 18 }
    ensures { result ≡ signed is_negative size }
{
    let number = size as i64;
    if is_negative { -number } else { number }
}

/// The number that a word writes: an optional minus, and 1 to 18 digits. None exactly where the word isn't
/// that.
pub fn number_of(word: &[u8]) -> Option<i64>
    ensures { result ≡ number word.now }
{
    let (is_negative, digits) = match word {
        [b'-', rest @ ..] => (true, rest),
        _ => (false, word),
    };
    let size = size_of_digits(digits)?;
    Some(with_sign(is_negative, size))
}
