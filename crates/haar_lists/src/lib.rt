//! The laws of an application on lists of events, for the units of a job on trees.
#![tactic(auto)]

mod examples;
pub mod laws;
