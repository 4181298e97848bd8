//! One thing that a step asks for.
use crate::label::{CellName, Label};
use crate::needs::Needs;

/// One thing that a step, or the start of a command, asks the runtime for.
#[derive(Debug, PartialEq, Eq, Drop)]
pub enum Effect<U, V, C> {
    /// A unit is to run, which needs no future.
    Spawn(U),

    /// A unit is to run once its needs, of which there is at least one, have their values.
    SpawnNeeding(U, Needs),

    /// The future of this label has this value.
    Give(Label, V),

    /// The entry of this name is to have this cell.
    Put(CellName, C),

    /// The entry of this name is to be taken out.
    Erase(CellName),
}
