//! The laws of an application on right inputs, for the units of a job on trees.
#![tactic(auto)]

pub mod laws;
