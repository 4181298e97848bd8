//! What the words of a command line ask for: the options of each command, read with `clap`.
#![tactic(auto)]

mod examples;
mod parsing;
mod request;
#[cfg(test)]
mod tests;

pub use request::{Request, request_of};
