//! The lines of a job's text, and what a word of one may be.
//!
//! A text is taken apart line by line ([`next_line`]), and a line into words between spaces and tabs ([`words_of`]). A word
//! may be a whole number ([`number_of`]) or the name of a tree ([`Name`]). Words are slices of the text; a name is a value
//! of its own. Which words make a command is for the crate above.
#![tactic(auto)]

mod examples;
mod lines;
mod names;
mod numbers;
#[cfg(test)]
mod tests;

pub use lines::{has_allowed_bytes, is_passed_over, next_line, words_of};
pub use names::Name;
pub use numbers::{number_of, size_of_digits};
