//! The units of the small application.

use crate::guess::GuessUnit;

/// A unit of the small application.
#[derive(Clone, Copy, Debug, PartialEq, Eq)]
pub enum Unit {
    /// Spawns the two leaves, and the sum that needs what they give. It hands its due to the sum.
    Fill,

    /// Puts this number as the left or the right entry, and gives it.
    Leaf { right: bool, value: u32 },

    /// Gives the sum of what the leaves gave, and has the right entry erased.
    Sum,

    /// Erases the right entry.
    Clear,

    /// Gives the cell of the left entry.
    Read,

    /// Gives the number of entries on its rank.
    Count,

    /// Gives ten times what was read, plus what was counted.
    Total,

    /// A unit of the last work command.
    Guessed(GuessUnit),
}
