//! The futures and the waiting tasks of a rank.
//!
//! A [`FutureTable`] has the futures of a rank: the values that were given, and the callbacks that wait for others. A
//! [`TaskTable`] has the tasks that wait until each of their places is filled. What comes out of either is right for its
//! own name, whoever put it. [`RankTables`] is both, for one lock. This is after MADNESS, where a task counts the futures
//! among its arguments that have no value yet.
#![tactic(auto)]

mod examples;
mod future_state;
mod future_table;
mod rank_tables;
mod ready;
mod task;
mod task_table;
#[cfg(test)]
mod tests;

pub use future_state::{FutureState, GivenValue};
pub use future_table::{FutureTable, GiveError, Given};
pub use rank_tables::RankTables;
pub use ready::Ready;
pub use task::{Opened, Task};
pub use task_table::TaskTable;
/// No memory is left for what a call has to make.
pub use std::alloc::AllocError as OutOfMemory;
