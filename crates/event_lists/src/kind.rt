//! The kinds of events that are counted.

/// One of the four kinds of events that are counted at each rank.
#[derive(Clone, Copy, Debug, PartialEq, Eq, PartialOrd, Ord, Hash)]
pub enum Kind {
    /// Messages sent.
    Sends,

    /// Messages handled.
    Handlings,

    /// Tasks submitted.
    Submissions,

    /// Tasks that ran.
    Runs,
}

/// A reading: the count that was read, what was found, and for which pass of which fence.
#[derive(Clone, Copy, Debug, PartialEq, Eq)]
pub struct Reading {
    pub kind: Kind,
    pub found: u64,
    pub fence: u32,
    pub pass: u64,
}
