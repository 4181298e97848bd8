//! The program `world` as one call: words, a source, a sink and a gate go in, and a status comes out.
#![tactic(auto)]

mod answer;
mod examples;
mod job_answers;
#[cfg(test)]
mod option_tests;
mod parallel;
#[cfg(test)]
mod parallel_tests;
mod program;
mod reading;
mod requests;
mod status;
#[cfg(test)]
mod tests;
mod texts;

pub use answer::Answer;
pub use crew::Config;
pub use program::world_main;
pub use status::Status;
pub use texts::{check_text, run_text, serial_text};
