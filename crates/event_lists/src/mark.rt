//! Marks: events beside their lanes.
use crate::event::Event;
use crate::lane::LaneName;

/// What one hand may have: a message or a task, by its rank and number.
#[derive(Clone, Copy, Debug, PartialEq, Eq, PartialOrd, Ord, Hash)]
pub enum Item {
    /// Message `number` that rank `rank` sent.
    Message { rank: u32, number: u64 },

    /// Task `number` that was submitted at rank `rank`.
    Task { rank: u32, number: u64 },
}

/// The effect that an event carried out: that of a task, by its index in the task's step.
#[derive(Clone, Copy, Debug, PartialEq, Eq)]
pub struct EffectName {
    pub rank: u32,
    pub number: u64,
    pub index: u64,
}

/// An event on its lane, with the effect of a task that it carried out, if it did.
///
/// What makes a list legal doesn't read the effect; what makes it follow an application does.
#[derive(Clone, Copy, Debug, PartialEq, Eq)]
pub struct Mark {
    pub lane: LaneName,
    pub event: Event,
    pub effect: Option<EffectName>,
}
