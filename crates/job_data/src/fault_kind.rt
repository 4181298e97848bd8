//! The kinds of fault that a line of a job may have.
ghost use Rattle.std.specs.Prelude.{◌≡◌};

/// What is wrong with a line. Of several kinds the first in this order is reported.
#[derive(Clone, Copy, Debug, PartialEq, Eq)]
pub enum FaultKind {
    /// F1: a byte that is neither a tab nor from 32 to 126.
    ForeignByte,
    /// F2: the first line with words isn't the header.
    NoHeader,
    /// F3: the first word begins no command.
    UnknownCommand,
    /// F4: the words aren't in the command's form.
    WrongWords,
    /// F5: a number is out of its limits, or the job has too many commands, trees or prints.
    BeyondLimits,
    /// F6: a tree that is read isn't written before.
    UnknownTree,
    /// F7: a tree that is read isn't in the form that the command needs.
    WrongForm,
    /// F8: more than 32 commands are before a fence.
    FarFromFence,
    /// F9: a tree is counted, and no fence comes after the command that last wrote it.
    SizeBeforeFence,
}

impl FaultKind {
    ghost use Rattle.job_data.specs.FaultKinds.{kind_number, kind_text};

    /// The number of the kind, from 1 to 9.
    pub fn number(self) -> u8
        ensures { result ≡ kind_number self }
    {
        match self {
            FaultKind::ForeignByte => 1,
            FaultKind::NoHeader => 2,
            FaultKind::UnknownCommand => 3,
            FaultKind::WrongWords => 4,
            FaultKind::BeyondLimits => 5,
            FaultKind::UnknownTree => 6,
            FaultKind::WrongForm => 7,
            FaultKind::FarFromFence => 8,
            FaultKind::SizeBeforeFence => 9,
        }
    }

    /// What is wrong, in a few words.
    pub fn text(self) -> &'static str
        ensures { result.now ≡ kind_text self }
    {
        match self {
            FaultKind::ForeignByte => "byte outside ASCII",
            FaultKind::NoHeader => "header",
            FaultKind::UnknownCommand => "unknown command",
            FaultKind::WrongWords => "words",
            FaultKind::BeyondLimits => "limit",
            FaultKind::UnknownTree => "unknown tree",
            FaultKind::WrongForm => "wrong form",
            FaultKind::FarFromFence => "too many before a fence",
            FaultKind::SizeBeforeFence => "size before a fence",
        }
    }
}
