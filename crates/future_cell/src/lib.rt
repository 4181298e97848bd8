//! Futures: values that are assigned at most once, and what is to be done once they are.
//!
//! A [`FutureCell`] is shared by reference among threads. A caller looks it up through a [`CellNote`], which takes no
//! bytes and carries what the caller knows: a note that knows a value goes on knowing it, and any two notes of one
//! cell that know a value know the same one. What waits for the value is in a [`Pending`] behind a lock. This is
//! after the futures of MADNESS, which keep their callbacks until they have a value.
#![tactic(auto)]

mod callback;
mod callbacks;
mod cell;
mod notes;
mod pending;
#[cfg(test)]
mod tests;

pub use callback::{Callback, FutureId};
pub use callbacks::Callbacks;
pub use cell::{AssignError, FutureCell};
pub use notes::{CellNote, notes_agree};
pub use pending::{NotAdded, Pending};
/// No memory is left for what a call has to make.
pub use std::alloc::AllocError as OutOfMemory;
