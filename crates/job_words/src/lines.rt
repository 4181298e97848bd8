//! The lines of a text, and the words of a line.
ghost use Rattle.std.specs.Prelude.{◌≡◌, ◌∷◌, [], ◌<◌, ◌==◌, IfOk, MatchOption, IfSome, length, map, position};
ghost use Rattle.std.specs.Str.Lines.{lines, strip_carriage_return};
ghost use Rattle.std.specs.List.{list_all};
ghost use Rattle.job_words.specs.Lines.{IsCut, words, is_allowed, is_passed_over};

use std::alloc::{AllocError, Global};

// The line without a carriage return at its end.
fn strip_return(line: &[u8]) -> &[u8]
    ensures { result.now ≡ strip_carriage_return line.now }
{
    match line {
        [front @ .., b'\r'] => front,
        _ => line,
    }
}

// The index of the first line feed.
fn line_feed(text: &[u8]) -> Option<usize>
    ensures { result ≡ position (λ byte. byte == 10) text.now }
{
    text.iter().position(|byte| *byte == b'\n')
}

/// The first line of a text, and the text after it. None exactly where the text is empty. Between the two is the end
/// of the line alone: a line feed and at most one carriage return, or nothing after the last line.
pub fn next_line(text: &[u8]) -> Option<(&[u8], &[u8])>
    ensures first { MatchOption result (lines text.now ≡ []) (λ r. lines text.now ≡ r.0.now ∷ lines r.1.now) }
    ensures cut { IfSome result (λ r. IsCut text.now r.0.now r.1.now) }
    ensures shorter { IfSome result (λ r. length r.1.now < length text.now) }
{
    let Some(at) = line_feed(text) else {
        if text.is_empty() {
            return None;
        }
        return Some((text, &text[text.len()..]));
    };
    let line = strip_return(&text[..at]);
    Some((line, &text[at + 1..]))
}

/// The words of a line, as slices of it.
pub fn words_of(alloc: Global, line: &[u8]) -> Result<Vec<&[u8]>, AllocError>
    ensures { IfOk result (λ v. map (λ w. w.now) v.items ≡ words line.now) }
{
    line.split(|byte| *byte == b' ' || *byte == b'\t')
        .filter(|word| !word.is_empty())
        .collect(alloc)
}

// A tab, or a byte from 32 to 126.
fn is_allowed(byte: u8) -> bool
    ensures { result ≡ is_allowed byte }
{
    byte == b'\t' || (byte >= 32 && byte <= 126)
}

/// Whether each byte is a tab or from 32 to 126.
pub fn has_allowed_bytes(line: &[u8]) -> bool
    ensures { result ≡ list_all is_allowed line.now }
{
    line.iter().all(|byte| is_allowed(*byte))
}

/// Whether a line of these words is passed over: it has none, or is a comment.
pub fn is_passed_over(words: &[&[u8]]) -> bool
    ensures { result ≡ is_passed_over (map (λ w. w.now) words.now) }
{
    match words {
        [] => true,
        [first, ..] => matches!(first, [b'#', ..]),
    }
}
