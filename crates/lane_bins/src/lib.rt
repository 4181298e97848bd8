//! A rank's bins, each with a lane of the counter words.
//!
//! A [`LaneBin`] is a bin of entries and look-ups beside the bin's lane. Each put and each erase is an event on the lane, so
//! the entries are just those that were put and not erased there. A [`LaneContainer`] is the 16 bins of a rank, each behind
//! a lock, which a [`LaneAccessor`] keeps taken.
#![tactic(auto)]

pub mod examples;
mod lane_bin;
mod lane_container;
pub mod laws;
#[cfg(test)]
mod tests;

pub use container::OutOfMemory;
pub use lane_bin::{LaneBin, PutRefused};
pub use lane_container::{LaneAccessor, LaneContainer};
