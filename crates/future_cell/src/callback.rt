//! What is to be done once a future has its value.

use app_core::Label;

/// A future: the rank that keeps it, and its name.
#[derive(Clone, Copy, Debug, PartialEq, Eq, PartialOrd, Ord, Hash)]
pub struct FutureId {
    pub rank: u32,
    pub label: Label,
}

/// What is to be done with the value of a future, once it has one.
#[derive(Clone, Copy, Debug, PartialEq, Eq, PartialOrd, Ord, Hash)]
pub enum Callback {
    /// Fill the place `index`, from 0, of the waiting task `id`.
    Task { id: u64, index: u32 },
    /// Assign a future of this rank with the same value.
    Local(FutureId),
    /// Send the value to a future of another rank.
    Remote(FutureId),
}
