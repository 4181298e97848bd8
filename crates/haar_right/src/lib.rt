//! What units decide for is right, for the meaning of jobs on trees.
#![tactic(auto)]

pub mod laws;
