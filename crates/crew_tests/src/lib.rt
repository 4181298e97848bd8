//! Tests of whole runs, on the threads that `run_world` starts.
#![tactic(auto)]

#[cfg(test)]
mod meeting;
pub mod runs;
#[cfg(test)]
mod tally;
#[cfg(test)]
mod tests;
