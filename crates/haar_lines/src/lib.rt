//! The lines that commands print: their texts, and the lines of a tree as rows of pieces, one row a level.
//!
//! Rows are put side by side without moving a byte; the bytes are joined once, at the end.
#![tactic(auto)]

pub mod examples;
mod lines;
pub mod texts;

pub use lines::Lines;
