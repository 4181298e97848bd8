//! The tasks of a rank that wait for a hand to run them.
//!
//! [`PoolState`] is the list of them: first in, first out. A [`Pool`] has it behind a lock, for the main and the workers
//! of one rank, each with a [`PoolSeat`]. This is after the task queue of MADNESS, which the threads of its pool share.
#![tactic(auto)]

mod examples;
mod pool;
mod pool_state;
#[cfg(test)]
mod tests;

pub use examples::oldest_comes_first;
pub use pool::{Pool, PoolSeat, Seats};
pub use pool_state::PoolState;
/// No memory is left for what a call has to make.
pub use std::alloc::AllocError as OutOfMemory;
/// There is no memory for one more. It hands back what was to be added, as `value`.
pub use std::alloc::AllocFailed as Refused;
