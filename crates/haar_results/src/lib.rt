//! What the results of a job's commands make: the lines of each command, and the text of the job.
#![tactic(auto)]

mod examples;
pub mod laws;
mod result_error;
mod results;

pub use result_error::ResultError;
pub use results::{JobLines, lines_of_results, result_text};
