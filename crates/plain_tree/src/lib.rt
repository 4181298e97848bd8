//! The serial evaluator: a job's commands done one after another on one thread.
//!
//! [`serial`] returns the text of a job, or the first command that overflows with the text before it. What a job means is
//! defined on lists of cell values and sets of keys; the evaluator works on what Haar trees store, by the operations of
//! `tree_operations`. With receipts, the text also says what the commands come to.
#![tactic(auto)]

mod counting;
mod jobs;
mod lines;
mod receipts;
mod serial_error;
#[cfg(test)]
mod tests;
mod trees;
mod writing;

pub use jobs::serial;
pub use serial_error::SerialError;
