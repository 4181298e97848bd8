//! How many tasks a command on trees runs and how many messages it sends, when keys are distributed over ranks.
//!
//! A [`Distribution`] counts a tree's keys from the map in which an evaluator stores the tree ([`ShapeCount`]), and makes of
//! such counts what a command comes to ([`Total`]).
#![tactic(auto)]

mod distribution;
mod examples;
mod shape_count;
#[cfg(test)]
mod tests;
mod total;

pub use distribution::Distribution;
pub use shape_count::ShapeCount;
pub use total::Total;
