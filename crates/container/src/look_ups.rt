//! Look-ups that wait for entries.

use app_core::CellName;
use future_cell::Callback;

/// A look-up that waits: the name of the entry that it looks for, and what is to be done once the entry is there.
#[derive(Clone, Copy, Debug, PartialEq, Eq)]
pub struct LookUp {
    pub name: CellName,
    pub callback: Callback,
}
