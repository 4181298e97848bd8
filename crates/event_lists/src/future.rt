//! Futures, and who creates them.
use app_core::Label;

/// Who spawns: the main of a rank, or task `number` of rank `rank`.
#[derive(Clone, Copy, Debug, PartialEq, Eq, PartialOrd, Ord, Hash)]
pub enum Bringer {
    Main { rank: u32 },
    Task { rank: u32, number: u64 },
}

/// A future: who created it, with a label.
#[derive(Clone, Copy, Debug, PartialEq, Eq, PartialOrd, Ord, Hash)]
pub struct Future {
    pub by: Bringer,
    pub label: Label,
}
