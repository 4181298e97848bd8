//! Why a text gave no job.
ghost use Rattle.std.specs.Prelude.{◌≡◌, Some};
ghost use Rattle.job_lang.specs.declared.parse_error.ParseError.TheVariants.{OutOfMemory};

use crate::fault::JobFault;
use std::alloc::AllocError;
use std::error::Error;
use std::fmt;

/// Why a text gave no job.
#[derive(Clone, Copy, Debug, PartialEq, Eq)]
pub enum ParseError {
    /// The text isn't a job: its first fault.
    Fault(JobFault),
    /// There is no memory left for the job.
    OutOfMemory,
}

impl fmt::Display for ParseError {
    ghost use Rattle.job_lang.specs.Faults.{error_text};

    ghost output = { λ error. Some (error_text error) };

    fn fmt<W: fmt::Write>(&self, f: &mut fmt::Formatter<W>) -> fmt::Result {
        match *self {
            ParseError::Fault(fault) => write!(f, "{fault}"),
            ParseError::OutOfMemory => write!(f, "out of memory"),
        }
    }
}

impl Error for ParseError {}

impl From<AllocError> for ParseError {
    ghost from_gives = { λ _ e. e ≡ OutOfMemory };

    fn from(_error: AllocError) -> ParseError {
        ParseError::OutOfMemory
    }
}
