//! The exit statuses of the program.

/// How a call of the program ends; its number is the exit status.
#[derive(Clone, Copy, Debug, PartialEq, Eq)]
pub enum Status {
    /// The text was written.
    Done = 0,
    /// The words are in none of the listed forms.
    Usage = 1,
    /// The input isn't a job, or is too long, or has a command that can't be run yet.
    JobFault = 2,
    /// A command of the job overflows; the text before it was written, and a line that names it.
    Overflow = 3,
    /// Memory was refused; nothing was written.
    OutOfMemory = 4,
    /// A read failed; nothing was written.
    ReadFault = 5,
    /// A write failed; a prefix of the text was written.
    WriteFault = 6,
}
