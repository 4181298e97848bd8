//! What one command of a plan reads and writes.
use crate::sources::Sources;

/// What a command of a job reads and writes. A version has the number of the command that writes it; commands are numbered
/// from 1.
#[derive(Clone, Copy, Debug, PartialEq, Eq)]
pub struct Step {
    /// The versions that it reads, in the order of its names.
    pub reads: Sources,
    /// The version that it writes.
    pub writes: Option<u32>,
    /// The fence that ends it: the number, from 1, of the next fence, or its own where it is one. The end of the job is one
    /// more fence.
    pub fence: u32,
}
