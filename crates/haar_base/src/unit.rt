//! The units into which commands are cut, and what they carry.

use haar_node::Coefficient;
use tree_key::Key;

/// What a down unit knows of one of the trees that its command reads.
#[derive(Clone, Copy, Debug, PartialEq, Eq)]
pub enum Side {
    /// The command reads no such tree.
    Nothing,

    /// The tree has the key, whose entry is read. Below the root of a compressed tree the number is the sum over the
    /// key's box, where the command needs it; else it is 0.
    Entry(Coefficient),

    /// The key lies below a leaf of the tree. The number is the sum over the key's box.
    Below(Coefficient),
}

/// What a down unit knows of the trees that its command reads, in their order.
#[derive(Clone, Copy, Debug, PartialEq, Eq)]
pub struct Sides {
    pub first: Side,
    pub second: Side,
}

/// The sum over the box of a key, and the sum over its left half less that over its right half.
#[derive(Clone, Copy, Debug, PartialEq, Eq)]
pub struct Haar {
    pub sum: Coefficient,
    pub difference: Coefficient,
}

/// What an up unit carries of the trees that its command reads, in their order. Numbers that the command doesn't need
/// are 0.
#[derive(Clone, Copy, Debug, PartialEq, Eq)]
pub struct Held {
    pub first: Haar,
    pub second: Haar,
}

/// Visits a key: reads the entries of the key, and gives the value of its future or has the children visited.
#[derive(Clone, Copy, Debug, PartialEq, Eq)]
pub struct Down {
    /// The number of the command, from 1.
    pub command: u32,
    pub key: Key,
    /// What it knows of the first tree, and of the second.
    pub first: Side,
    pub second: Side,
}

/// Combines what the units of the two children of a key gave.
#[derive(Clone, Copy, Debug, PartialEq, Eq)]
pub struct Up {
    /// The number of the command, from 1.
    pub command: u32,
    pub key: Key,
    pub held: Held,
}

/// A unit of a command.
#[derive(Clone, Copy, Debug, PartialEq, Eq)]
pub enum Unit {
    /// Visits a key.
    Down(Down),

    /// Combines what the two children gave.
    Up(Up),

    /// Erases the entry of a key, which `coarsen` merged into its parent's.
    Clear { command: u32, key: Key },

    /// Gives the number of entries on its rank.
    Count { command: u32, rank: u32 },

    /// Gives the sum of what was counted on so many ranks.
    Total { command: u32, ranks: u32 },
}
