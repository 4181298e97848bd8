//! A task with two puts and an erase is carried out over the lanes of two bins.
#![tactic(auto)]

pub mod carrying;
pub mod laws;
pub mod store;
#[cfg(test)]
mod tests;
pub mod turns;
