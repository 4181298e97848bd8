//! The job language: a text of lines becomes a job, or the first fault that is in it.
//!
//! The first line that isn't empty or a comment is the header, `job 1 depth D`. Each line after it is a command:
//! `project NAME FUNC level N tol T`, `refine NAME N`, `coarsen NAME`, `compress NAME`, `reconstruct NAME`,
//! `add NAME = A NAME + B NAME`, `mul NAME = NAME * NAME`, `inner NAME NAME`, `print NAME`, `size NAME` or `fence`. `FUNC`
//! is `const C`, `ramp A B`, `step X L H`, `box X Y V` or `hash S M`. Words are between spaces and tabs, and a line whose
//! first word begins with `#` is a comment.
//!
//! Jobs as data, and the checks of their commands, are in `job_data`. This crate re-exports their types.
#![tactic(auto)]

mod accepted;
mod canonical;
mod examples;
mod fault;
mod fields;
mod form;
mod function_form;
mod kind_examples;
pub mod laws;
mod limit_examples;
mod limits;
mod parse_error;
mod planning;
mod reading;
mod steps;
#[cfg(test)]
mod tests;
mod verb;

pub use canonical::print;
pub use fault::JobFault;
pub use job_data::{
    Command, FaultKind, Job, Numbers, Reads, Signature, Sources, Step, Target, TreeForm,
};
pub use parse_error::ParseError;
pub use planning::{plan, trace_fits};
pub use reading::parse;
pub use steps::Plan;
