//! What is right in a run of a job on trees.
#![tactic(auto)]

mod examples;
