//! Owner maps: which rank owns a key of a tree that is spread over ranks.
//!
//! `specs/Owners.antt` has the formulas, and [`laws`] says what holds of the owners of all keys.
#![tactic(auto)]

mod examples;
pub mod laws;
mod map;
#[cfg(test)]
mod tests;

pub use map::OwnerMap;
