//! The first words of commands.
ghost use Rattle.std.specs.Prelude.{◌≡◌};
ghost use Rattle.std.specs.Str.{bytes_eq};

/// The word that a command begins with.
#[derive(Clone, Copy, Debug, PartialEq, Eq)]
pub enum Verb {
    Project,
    Refine,
    Coarsen,
    Compress,
    Reconstruct,
    Add,
    Mul,
    Inner,
    Print,
    Size,
    Fence,
}

// Whether a word is this one.
fn is_word(word: &[u8], text: &[u8]) -> bool
    ensures { result ≡ bytes_eq word.now text.now }
{
    word == text
}

impl Verb {
    ghost use Rattle.job_lang.specs.Grammar.{verb_of};

    /// The verb that a word is. None exactly where it is none.
    pub fn of_word(word: &[u8]) -> Option<Verb>
        ensures { result ≡ verb_of word.now }
    {
        if is_word(word, b"project") {
            Some(Verb::Project)
        } else if is_word(word, b"refine") {
            Some(Verb::Refine)
        } else if is_word(word, b"coarsen") {
            Some(Verb::Coarsen)
        } else if is_word(word, b"compress") {
            Some(Verb::Compress)
        } else if is_word(word, b"reconstruct") {
            Some(Verb::Reconstruct)
        } else if is_word(word, b"add") {
            Some(Verb::Add)
        } else if is_word(word, b"mul") {
            Some(Verb::Mul)
        } else if is_word(word, b"inner") {
            Some(Verb::Inner)
        } else if is_word(word, b"print") {
            Some(Verb::Print)
        } else if is_word(word, b"size") {
            Some(Verb::Size)
        } else if is_word(word, b"fence") {
            Some(Verb::Fence)
        } else {
            None
        }
    }
}
