//! What a seat of the table has and knows. No value of a view is made: the table's rule and contracts speak of it.
ghost use Rattle.std.specs.Prelude.{◌≡◌};
ghost use Rattle.world_rule.specs.Owing.{item_in};

use app_core::Outline;
use event_lists::{EffectName, Event, Item, LaneName, Mark, Parcel, TaskName};
use std::collections::LinkedList;

/// What one seat alone may carry out next: a message or task that was counted and not yet taken, or an effect that was
/// drawn and not yet carried out.
#[derive(Clone, Copy, Debug, PartialEq, Eq)]
pub enum Pending {
    Counted(Item),
    Drawn(EffectName),
}

impl Pending {
    /// The message or task; none where it is an effect.
    pub fn item(self) -> Option<Item>
        ensures { result ≡ item_in self }
    {
        match self {
            Pending::Counted(item) => Some(item),
            Pending::Drawn(_) => None,
        }
    }
}

/// What a message, a task or an effect carries.
#[derive(Clone, Copy, Debug, PartialEq, Eq)]
pub enum Load {
    OfMessage(Parcel),
    OfTask(TaskName),
    OfEffect(Outline),
}

/// What a seat owes: a message, task or effect that is pending, the rank that may take it, and what it carries.
#[derive(Clone, Copy, Debug, PartialEq, Eq)]
pub struct Owed {
    pub pending: Pending,
    pub to: u32,
    pub load: Load,
}

/// A lane with its own part of the list of events, the newest first.
pub struct OwnPart {
    pub lane: LaneName,
    pub events: LinkedList<Event>,
}

/// How far the task in hand is: the outlines of its effects, in order, and how many of them were carried out or drawn.
pub struct Progress {
    pub rank: u32,
    pub number: u64,
    pub outlines: LinkedList<Outline>,
    pub at: u64,
}

/// The looks of a lane at one count of a rank: how many there were, and what the last one found, 0 before the first.
pub struct CountLooks {
    pub rank: u32,
    pub times: u64,
    pub found: u64,
}

/// The view of a seat. A lane's seat has the lane's own part; a carrier's owes something; one that tells has neither.
pub struct View {
    /// Its lanes.
    pub parts: LinkedList<OwnPart>,

    /// How the list of events began, the newest first.
    pub seen: LinkedList<Mark>,

    /// The same, as another seat knew it that was joined to this one since its last step.
    pub told: LinkedList<Mark>,

    /// What was counted and is not yet taken, or an effect that was drawn.
    pub owes: Option<Owed>,

    /// How far the task in hand is, once it was begun.
    pub progress: Option<Progress>,

    /// It set the stop word.
    pub set_stop: bool,

    /// How often it looked at the stop word, and whether the last look found it set.
    pub stop_looks: u64,
    pub saw_stop: bool,

    /// Its looks at a count of tasks that ran, and at one of tasks submitted.
    pub ran_looks: CountLooks,
    pub submitted_looks: CountLooks,
}
