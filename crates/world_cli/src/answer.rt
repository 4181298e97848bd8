//! What the program answers: a status and a text.
ghost use Rattle.std.specs.Prelude.{◌≡◌};

use crate::status::Status;
use tree_key::{OutOfMemory, Text};

/// A status, and the text that goes with it.
#[derive(Drop)]
pub struct Answer {
    /// `Done` for a job, `Overflow` for one with a command that overflows, `JobFault` for what isn't a job, or can't be run
    /// yet.
    pub status: Status,
    /// What is to be written: the text of the job, or the line that says why there is none.
    pub text: Text,
}

/// Why there is no answer.
#[derive(Clone, Copy, Debug, PartialEq, Eq)]
pub enum Refusal {
    /// The source failed.
    ReadFault,
    /// Memory was refused.
    OutOfMemory,
}

impl From<OutOfMemory> for Refusal {
    ghost use Rattle.world_cli.specs.declared.answer.Refusal.TheVariants.{OutOfMemory as NoMemory};

    ghost from_gives = { λ _ e. e ≡ NoMemory };

    fn from(_error: OutOfMemory) -> Refusal {
        Refusal::OutOfMemory
    }
}
