//! The first fault of a text that isn't a job, and its line.
ghost use Rattle.std.specs.Prelude.{◌≡◌, Some};

use job_data::FaultKind;
use std::error::Error;
use std::fmt;

/// The first fault of a text that isn't a job.
#[derive(Clone, Copy, Debug, PartialEq, Eq)]
pub struct JobFault {
    /// The number of the line, from 1.
    pub line: u64,
    /// The kind of fault, the lowest that the line has.
    pub kind: FaultKind,
}

impl fmt::Display for JobFault {
    ghost use Rattle.job_lang.specs.Faults.{fault_line};

    ghost output = { λ fault. Some (fault_line fault) };

    fn fmt<W: fmt::Write>(&self, f: &mut fmt::Formatter<W>) -> fmt::Result {
        let line = self.line;
        let number = self.kind.number();
        let text = self.kind.text();
        write!(f, "fault line {line} F{number} {text}")
    }
}

impl Error for JobFault {}
