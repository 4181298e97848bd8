//! Keys of a dyadic tree, and the bytes of a text.
//!
//! A key names a box of cells: the root's box is all of them, and each key above the deepest level has two
//! children, which halve its box. The names are those of MADNESS, whose keys are a level and a translation.
//!
//! `specs/Keys.antt` defines what the calls answer, and [`laws`] says what holds of all keys and boxes.
#![tactic(auto)]

mod examples;
mod key;
pub mod laws;
mod text;

pub use key::Key;
/// No memory is left for what a call has to make.
pub use std::alloc::AllocError as OutOfMemory;
pub use text::Text;
