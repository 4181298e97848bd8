//! What a turn of a hand came to.

/// What a turn of a hand came to.
#[derive(Clone, Copy, Debug, PartialEq, Eq)]
pub enum Turn {
    /// It handled a message, ran a task, or went on to the next command.
    Worked,

    /// It found no message and no task, and a main has no command left.
    Idle,

    /// Each rank has the results that it keeps.
    Finished,

    /// Memory was refused to some hand before.
    Stopped,

    /// Memory was refused in this turn. The run is over, and all later turns are `Stopped`.
    OutOfMemory,
}
