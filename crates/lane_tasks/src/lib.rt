//! Tasks that wait beside their carriers until the futures that they need were given.
//!
//! A [`LaneTask`] is a task with its carrier. With each value that fills a place of it comes what a lane told that knew the
//! value's future as given. So a lane that learns all that was told with a [`LaneReady`] knows each of its needs as
//! given, and [`take_up`] takes the task in hand.
#![tactic(auto)]

pub mod examples;
mod lane_task;
pub mod laws;
mod taking;
#[cfg(test)]
mod tests;

pub use lane_task::{LaneOpened, LaneReady, LaneTask, Submission};
pub use taking::take_up;
/// No memory is left for what a call has to make.
pub use std::alloc::AllocError as OutOfMemory;
