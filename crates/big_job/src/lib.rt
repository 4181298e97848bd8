//! Generated jobs, for large runs without an input: one for each number of 32 bits.
//!
//! [`big_job`] makes the job of a number. `specs/Generator.antt` has its commands, and [`laws`] says that each is a job that
//! its canonical text reads as.
#![tactic(auto)]

mod examples;
mod generator;
pub mod laws;
#[cfg(test)]
mod tests;

pub use generator::big_job;
