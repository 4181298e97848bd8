//! An effect that has no needs of its own, only what tells their labels.

use crate::label::{CellName, Label};

/// An effect whose needs are told by an `L`: by the slice of their labels where it was taken out of an
/// [`EffectQueue`](crate::EffectQueue), by a place in a list of labels where it is stored.
#[derive(Debug, PartialEq, Eq, Drop)]
pub enum EffectWith<U, V, C, L> {
    /// A unit is to run, which needs no future.
    Spawn(U),

    /// A unit is to run once its needs, which are told so, have their values.
    SpawnNeeding(U, L),

    /// The future of this label has this value.
    Give(Label, V),

    /// The entry of this name is to have this cell.
    Put(CellName, C),

    /// The entry of this name is to be taken out.
    Erase(CellName),
}

/// An effect that was taken out, and lends the labels of its needs.
pub type LentEffect<'a, U, V, C> = EffectWith<U, V, C, &'a [Label]>;

/// Where the labels of a unit's needs are in a list of labels.
#[derive(Clone, Copy, Debug, PartialEq, Eq)]
pub(crate) struct Span {
    pub(crate) from: usize,
    pub(crate) count: usize,
}
