//! Commands and effects as plain data.
use crate::label::{CellName, Label};
use crate::needs::Needs;

/// What a command is for the runtime.
#[derive(Clone, Copy, Debug, PartialEq, Eq)]
pub enum CommandKind {
    /// It is done by units.
    Work,

    /// All ranks wait until nothing of the commands before is left undone.
    Fence,
}

/// What is left of an effect without its unit, value or cell: the names, and the ranks that they go to.
#[derive(Clone, Copy, Debug, PartialEq, Eq)]
pub enum Outline {
    /// A unit with this label and due is to run at this rank, once its needs have their values.
    Spawn {
        unit: Label,
        due: Option<Label>,
        needs: Needs,
        home: u32,
    },

    /// The future of this label, which is kept at this rank, has its value.
    Give {
        future: Label,
        home: u32,
    },

    /// The entry of this name is to have its cell.
    Put {
        name: CellName,
    },

    /// The entry of this name is to be taken out.
    Erase {
        name: CellName,
    },
}
