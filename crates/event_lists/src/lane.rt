//! Names of lanes.

/// The name of a lane: a sequence of events of one rank, which one hand or one bin writes.
///
/// A hand's lane has as its number that of the hand, from 0 (the main) to the number of workers; a bin's lane has that
/// of the bin, below 16.
#[derive(Clone, Copy, Debug, PartialEq, Eq, PartialOrd, Ord, Hash)]
pub struct LaneName {
    pub rank: u32,
    pub bin: bool,
    pub number: u32,
}
