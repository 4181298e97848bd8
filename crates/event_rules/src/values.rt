//! What is found of a list of events, as values.
ghost use Rattle.std.specs.Prelude.{◌≡◌, ◌↔◌, List, slice_get, IsTrue};
ghost use Rattle.event_lists.specs.declared.kind.Reading.{Reading as ReadingData};
ghost use Rattle.event_lists.specs.Fences.{row_after};
ghost use Rattle.event_rules.specs.States.{GoesTo, HasParcel};

use event_lists::{Bringer, Future, Item, Parcel, Reading, Row, TaskName};

/// What was sent to a rank, or submitted.
#[derive(Clone, Copy, Debug, PartialEq, Eq)]
pub enum Load {
    Message { to: u32, parcel: Parcel },
    Task { task: TaskName },
}

impl Load {
    /// Whether it is a message to this rank.
    pub fn goes_to(&self, rank: u32) -> bool
        ensures { IsTrue result ↔ GoesTo rank self.now }
    {
        match self {
            Load::Message { to, .. } => *to == rank,
            Load::Task { .. } => false,
        }
    }

    /// Whether it is a message with this parcel.
    pub fn has_parcel(&self, parcel: &Parcel) -> bool
        ensures { IsTrue result ↔ HasParcel parcel.now self.now }
    {
        match self {
            Load::Message {
                parcel: carried,
                ..
            } => *carried == *parcel,
            Load::Task { .. } => false,
        }
    }
}

/// A message that was sent or a task that was submitted.
#[derive(Clone, Copy, Debug, PartialEq, Eq)]
pub struct Made {
    pub load: Load,

    /// Who spawned it: None for what a hand submitted for a message.
    pub by: Option<Bringer>,

    /// The future that it has as its due.
    pub due: Option<Future>,

    /// Whether a hand took it.
    pub taken: bool,
}

/// What was done with a future.
#[derive(Clone, Copy, Debug, PartialEq, Eq)]
pub struct Found {
    /// Its bringer spawned with its label as due.
    pub due: bool,

    /// Its bringer spawned with its label as a need.
    pub needed: bool,

    /// It was given.
    pub given: bool,
}

/// The last three readings of a main since it entered a fence, the last first.
#[derive(Clone, Copy, Debug, PartialEq, Eq)]
pub struct Recent {
    pub first: Option<Reading>,
    pub second: Option<Reading>,
    pub third: Option<Reading>,
}

impl Recent {
    /// The row of a pass that is completed by a reading of `sent` after these readings.
    pub fn row_after(&self, sent: u64) -> Row
        ensures { (rs : List ReadingData) → self.now.second ≡ slice_get rs 1 → self.now.third ≡ slice_get rs 2
            → result ≡ row_after sent rs }
    {
        match (self.second, self.third) {
            (Some(ran), Some(handled)) => Row {
                sent,
                handled: handled.found,
                tasks: ran.found,
            },
            _ => Row {
                sent,
                handled: 0,
                tasks: 0,
            },
        }
    }
}

/// The state of a lane.
#[derive(Clone, Copy, Debug, PartialEq, Eq)]
pub struct LaneState {
    /// The message or task that it has in hand.
    pub hand: Option<Item>,

    /// The due of what it has in hand.
    pub own: Option<Future>,

    /// With a task in hand: whether it hasn't passed its due on.
    pub keeps: bool,

    /// With a message in hand: whether nothing was submitted or given for it.
    pub fresh: bool,

    /// The fence that the main is in.
    pub fence: Option<u32>,

    /// How many fences the main entered.
    pub entered: u64,

    /// How many passes the main completed in its last fence.
    pub passes: u64,

    /// Its last readings in its last fence.
    pub recent: Recent,
}
