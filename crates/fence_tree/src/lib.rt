//! The fence: what ranks read in a pass goes up a binary tree of ranks, and rank 0's verdict on the pass comes down.
//!
//! Each item on the way keeps, in its type, that what it was told with knows what it says. After the fence of MADNESS, which
//! sums the messages sent and received up a binary tree of processes, until two sums in a row are equal.
#![tactic(auto)]

mod cell_state;
mod cells;
mod items;
pub mod laws;
mod rows;
mod state;
#[cfg(test)]
mod tests;
mod turn;

pub use cell_state::CellState;
pub use cells::FenceCells;
pub use items::{Announcement, Report, Verdict};
pub use rows::{KnownRows, Sums};
pub use state::{Cause, FenceState, FenceTurn, Stage};
/// No memory is left for what a call has to make.
pub use std::alloc::AllocError as OutOfMemory;
