//! All ranks of a run, with a thread for each hand.
//!
//! [`run_world`] makes the inboxes, pools, containers and hands of all ranks of an application, turns the hands until all
//! work commands have their results, and returns the values of these. This is after `World` of MADNESS: here the ranks
//! share one process, and each thread belongs to one rank.
#![tactic(auto)]

mod config;
mod examples;
mod hands;
mod ranks;
mod results;
mod run;
mod threads;

pub use config::Config;
pub use run::{RunEnd, run_world};
/// No memory is left for what a call has to make.
pub use std::alloc::AllocError as OutOfMemory;
