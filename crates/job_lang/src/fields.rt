//! Readers of the words of a line: each reads the first words, and returns what they say and the words after them.
ghost use Rattle.std.specs.Prelude.{◌≡◌};
ghost use Rattle.job_lang.specs.Grammar.{box_at, const_at, function_at, hash_at, keyword, name_at, no_more, number_at, one_name, ramp_at, size_at, step_at, two_names};
ghost use Rattle.job_lang.specs.Slices.{function_read, name_only, name_read, names_only, number_read, rest_read, texts};

use crate::function_form::FunctionForm;
use job_words::{Name, number_of};

/// The words after this very word.
pub fn keyword<'a, 'b>(text: &[u8], words: &'b [&'a [u8]]) -> Option<&'b [&'a [u8]]>
    ensures { rest_read result ≡ keyword text.now (texts words.now) }
{
    let (first, rest) = words.split_first()?;
    if *first == text { Some(rest) } else { None }
}

/// Some where no word is left.
pub fn no_more(words: &[&[u8]]) -> Option<()>
    ensures { result ≡ no_more (texts words.now) }
{
    if words.is_empty() { Some(()) } else { None }
}

/// A name, and the words after it.
pub fn name_at<'a, 'b>(words: &'b [&'a [u8]]) -> Option<(Name, &'b [&'a [u8]])>
    ensures { name_read result ≡ name_at (texts words.now) }
{
    let (first, rest) = words.split_first()?;
    let name = Name::of_word(first)?;
    Some((name, rest))
}

/// A name, after which no word is left.
pub fn one_name(words: &[&[u8]]) -> Option<Name>
    ensures { name_only result ≡ one_name (texts words.now) }
{
    let (name, words) = name_at(words)?;
    no_more(words)?;
    Some(name)
}

/// Two names, after which no word is left.
pub fn two_names(words: &[&[u8]]) -> Option<(Name, Name)>
    ensures { names_only result ≡ two_names (texts words.now) }
{
    let (left, words) = name_at(words)?;
    let (right, words) = name_at(words)?;
    no_more(words)?;
    Some((left, right))
}

/// A number, and the words after it.
pub fn number_at<'a, 'b>(words: &'b [&'a [u8]]) -> Option<(i64, &'b [&'a [u8]])>
    ensures { number_read result ≡ number_at (texts words.now) }
{
    let (first, rest) = words.split_first()?;
    let number = number_of(first)?;
    Some((number, rest))
}

/// A number that isn't negative, and the words after it.
pub fn size_at<'a, 'b>(words: &'b [&'a [u8]]) -> Option<(u64, &'b [&'a [u8]])>
    ensures { number_read result ≡ size_at (texts words.now) }
{
    let (number, rest) = number_at(words)?;
    if number < 0 {
        return None;
    }
    Some((number as u64, rest))
}

/// The function `const C`, and the words after it.
pub fn const_at<'a, 'b>(words: &'b [&'a [u8]]) -> Option<(FunctionForm, &'b [&'a [u8]])>
    ensures { function_read result ≡ const_at (texts words.now) }
{
    let words = keyword(b"const", words)?;
    let (constant, words) = number_at(words)?;
    Some((FunctionForm::Const(constant), words))
}

/// The function `ramp A B`, and the words after it.
pub fn ramp_at<'a, 'b>(words: &'b [&'a [u8]]) -> Option<(FunctionForm, &'b [&'a [u8]])>
    ensures { function_read result ≡ ramp_at (texts words.now) }
{
    let words = keyword(b"ramp", words)?;
    let (start, words) = number_at(words)?;
    let (slope, words) = number_at(words)?;
    Some((FunctionForm::Ramp(start, slope), words))
}

/// The function `step X L H`, and the words after it.
pub fn step_at<'a, 'b>(words: &'b [&'a [u8]]) -> Option<(FunctionForm, &'b [&'a [u8]])>
    ensures { function_read result ≡ step_at (texts words.now) }
{
    let words = keyword(b"step", words)?;
    let (edge, words) = number_at(words)?;
    let (before, words) = number_at(words)?;
    let (after, words) = number_at(words)?;
    Some((FunctionForm::Step(edge, before, after), words))
}

/// The function `box X Y V`, and the words after it.
pub fn box_at<'a, 'b>(words: &'b [&'a [u8]]) -> Option<(FunctionForm, &'b [&'a [u8]])>
    ensures { function_read result ≡ box_at (texts words.now) }
{
    let words = keyword(b"box", words)?;
    let (start, words) = number_at(words)?;
    let (end, words) = number_at(words)?;
    let (value, words) = number_at(words)?;
    Some((FunctionForm::Box(start, end, value), words))
}

/// The function `hash S M`, and the words after it.
pub fn hash_at<'a, 'b>(words: &'b [&'a [u8]]) -> Option<(FunctionForm, &'b [&'a [u8]])>
    ensures { function_read result ≡ hash_at (texts words.now) }
{
    let words = keyword(b"hash", words)?;
    let (seed, words) = number_at(words)?;
    let (modulus, words) = number_at(words)?;
    Some((FunctionForm::Hash(seed, modulus), words))
}

/// A function, and the words after it.
pub fn function_at<'a, 'b>(words: &'b [&'a [u8]]) -> Option<(FunctionForm, &'b [&'a [u8]])>
    ensures { function_read result ≡ function_at (texts words.now) }
{
    if let Some(read) = const_at(words) {
        return Some(read);
    }
    if let Some(read) = ramp_at(words) {
        return Some(read);
    }
    if let Some(read) = step_at(words) {
        return Some(read);
    }
    if let Some(read) = box_at(words) {
        return Some(read);
    }
    hash_at(words)
}
