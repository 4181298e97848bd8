//! Lanes of small runs on two threads, and what they kept in the list that decides what is legal.
#![tactic(auto)]

pub mod lending;
#[cfg(test)]
mod lending_tests;
pub mod loans;
#[cfg(test)]
mod tests;
