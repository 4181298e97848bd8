//! Counted arguments: the values that a task waits for, each with a slot of its own.
//!
//! A task that needs the values of futures is ready once each of its slots is filled. [`Waiting`] counts the empty
//! slots, so that filling one tells at once whether it was the last. This is after MADNESS, which counts the
//! dependencies of a task down.
#![tactic(auto)]

mod refusals;
#[cfg(test)]
mod tests;
mod waiting;

pub use refusals::Twice;
pub use waiting::{Learned, Waiting};
/// No memory is left for what a call has to make.
pub use std::alloc::AllocError as OutOfMemory;
