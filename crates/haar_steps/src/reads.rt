//! What units read and count.
ghost use Rattle.std.specs.Prelude.{◌≡◌, ◌++◌, slice_get};
ghost use Rattle.haar_base.specs.Operations.{operation_at, first_source, second_source};
ghost use Rattle.haar_base.specs.Units as units;

use crate::commands::Commands;
use crate::names;
use app_core::CellName;
use haar_base::{Operation, Side, Unit};
use tree_key::Key;

// The version that an operation reads first.
fn first_source(operation: Operation) -> u32
    ensures { result ≡ first_source operation }
{
    match operation {
        Operation::Project { .. } => 0,
        Operation::Refine { level: _, source } => source,
        Operation::Coarsen { source } => source,
        Operation::Compress { source } => source,
        Operation::Reconstruct { source } => source,
        Operation::Add { left, .. } => left,
        Operation::Mul { left, .. } => left,
        Operation::Inner { left, .. } => left,
        Operation::Print { source, .. } => source,
        Operation::Size { .. } => 0,
        Operation::Fence => 0,
    }
}

// The version that an operation reads second.
fn second_source(operation: Operation) -> u32
    ensures { result ≡ second_source operation }
{
    match operation {
        Operation::Add { right, .. } => right,
        Operation::Mul { left: _, right } => right,
        Operation::Inner { left: _, right } => right,
        _ => 0,
    }
}

// The entry that is read on a side, at index 0.
fn side_read(side: Side, version: u32, key: Key, index: u32) -> Option<CellName>
    ensures { result ≡ slice_get (units.side_reads side version key) index }
{
    match side {
        Side::Nothing => None,
        Side::Entry(_) => {
            if index == 0 {
                Some(names::entry(version, key))
            } else {
                None
            }
        }
        Side::Below(_) => None,
    }
}

// The entry that is read at an index, from 0.
fn read_at(
    one: Side,
    other: Side,
    first: u32,
    second: u32,
    key: Key,
    index: u32,
) -> Option<CellName>
    ensures { result ≡ slice_get (units.side_reads one first key ++ units.side_reads other second key) index }
{
    match one {
        Side::Nothing => side_read(other, second, key, index),
        Side::Entry(_) => {
            if index == 0 {
                Some(names::entry(first, key))
            } else {
                side_read(other, second, key, index - 1)
            }
        }
        Side::Below(_) => side_read(other, second, key, index),
    }
}

impl Commands {
    // The versions that a down unit reads first and second; 0 where there is none.
    fn sources(&self, command: u32) -> (u32, u32)
        ensures first { result.0 ≡ units.source_of first_source (operation_at self.now.operations.items command) }
        ensures second { result.1 ≡ units.source_of second_source (operation_at self.now.operations.items command) }
    {
        match self.operation(command) {
            Some(operation) => (first_source(operation), second_source(operation)),
            None => (0, 0),
        }
    }

    /// The entries that a unit reads, all at its home, by an index from 0. None exactly past the last.
    pub fn reads(&self, unit: &Unit, index: u32) -> Option<CellName>
        ensures { result ≡ slice_get (units.reads_of self.now.operations.items unit.now) index }
    {
        match unit {
            Unit::Down(down) => {
                let (first, second) = self.sources(down.command);
                read_at(down.first, down.second, first, second, down.key, index)
            }
            _ => None,
        }
    }

    /// The version whose entries at the unit's home are counted before its step.
    pub fn counts(&self, unit: &Unit) -> Option<u32>
        ensures { result ≡ units.counts_of self.now.operations.items unit.now }
    {
        match unit {
            Unit::Count { command, rank: _ } => match self.operation(*command) {
                Some(Operation::Size { source }) => Some(source),
                _ => None,
            },
            _ => None,
        }
    }
}
