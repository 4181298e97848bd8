//! Tests of the counter words: lanes that go through whole runs, on one thread.
//!
//! The turns that the tests share are functions with contracts of their own, so that each condition of each call is
//! proved.
#![tactic(auto)]

#[cfg(test)]
mod tests;
pub mod turns;
pub mod visiting;
pub mod visits;
pub mod work;
