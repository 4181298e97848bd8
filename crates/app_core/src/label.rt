//! Names of units, futures and entries.

/// The name of a unit, or of a future.
///
/// `command` is the number of the command that it belongs to, from 1. `part` and `place` are the application's
/// own: `part` says what it is of the command, and `place` which of them.
#[derive(Clone, Copy, Debug, PartialEq, Eq, PartialOrd, Ord, Hash, Default)]
pub struct Label {
    pub command: u32,
    pub part: u8,
    pub place: u64,
}

/// The name of an entry of a container: the version that it belongs to, and its place there.
///
/// Names are ordered by version, and then by place.
#[derive(Clone, Copy, Debug, PartialEq, Eq, PartialOrd, Ord, Hash)]
pub struct CellName {
    pub version: u32,
    pub place: u64,
}
