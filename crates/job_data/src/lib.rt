//! Jobs as data: a depth and commands, each of which passes the checks after those before it.
//!
//! [`Command::signature`] says what a command writes and reads, and which of its numbers have limits. The checks follow from
//! that: [`History`] has of the commands before one what its check needs, and returns the lowest kind of fault that the
//! command has after them. [`Job::of_commands`] makes a job of a depth and commands that pass. How a job is written and
//! read is in `job_lang`.
#![tactic(auto)]

mod command;
mod drop_examples;
mod drops;
mod fault_kind;
mod found;
mod history;
mod job;
pub mod laws;
mod limit_examples;
mod reads;
mod signature;
mod sources;
mod step;
#[cfg(test)]
mod tests;
mod tree_form;
mod writers;

pub use command::Command;
pub use drops::Drops;
pub use fault_kind::FaultKind;
pub use history::History;
pub use job::Job;
pub use reads::Reads;
pub use signature::{Numbers, Signature, Target};
pub use sources::Sources;
pub use step::Step;
pub use tree_form::TreeForm;
