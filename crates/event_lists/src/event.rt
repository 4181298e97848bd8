//! The events of a run.
use crate::receipt::Receipt;
use app_core::{CellName, Label, Needs};

/// What a message carries.
#[derive(Clone, Copy, Debug, PartialEq, Eq)]
pub enum Parcel {
    /// A unit that is to be submitted at the rank that the message goes to, with its due.
    Unit { unit: Label, due: Option<Label> },

    /// A value for this future, which is kept at the rank that the message goes to.
    Give(Label),
}

/// A submitted task: its unit, the futures that it needs, and its due.
#[derive(Clone, Copy, Debug, PartialEq, Eq)]
pub struct TaskName {
    pub unit: Label,
    pub needs: Needs,
    pub due: Option<Label>,
}

/// One event on a lane. The words "this rank" mean the rank of the lane.
///
/// Messages, handlings, submissions and runs are numbered from 0 at each rank, fences from 1, and the passes of a
/// fence from 1.
#[derive(Clone, Copy, Debug, PartialEq, Eq)]
pub enum Event {
    /// Message `number` of this rank, to rank `to`.
    Sent {
        number: u64,
        to: u32,
        parcel: Parcel,
    },

    /// Message `number` of rank `rank` is in this lane's hand.
    TookMessage {
        rank: u32,
        number: u64,
    },

    /// Task `number` of rank `rank` is in this lane's hand.
    TookTask {
        rank: u32,
        number: u64,
    },

    /// Handling `number` of this rank: message `message` of rank `rank`.
    Handled {
        number: u64,
        rank: u32,
        message: u64,
    },

    /// Submission `number` of this rank.
    Submitted {
        number: u64,
        task: TaskName,
    },

    /// Run `number` of this rank: task `task` of rank `rank`.
    Ran {
        number: u64,
        rank: u32,
        task: u64,
    },

    /// The future of this label has its value.
    Gave(Label),

    /// The entry of this name was put, on a bin's lane.
    Put(CellName),

    /// The entry of this name was taken out, on a bin's lane.
    Erased(CellName),

    /// The count of this rank's handlings was read.
    ReadHandled {
        value: u64,
        fence: u32,
        pass: u64,
    },

    /// The count of this rank's runs was read.
    ReadRan {
        value: u64,
        fence: u32,
        pass: u64,
    },

    /// The count of this rank's submissions was read.
    ReadSubmitted {
        value: u64,
        fence: u32,
        pass: u64,
    },

    /// The count of this rank's messages sent was read.
    ReadSent {
        value: u64,
        fence: u32,
        pass: u64,
    },

    /// This rank's main entered the fence of this number.
    Enter(u32),

    /// This rank's main left the fence of this number.
    Leave(u32),

    /// The receipt of a fence, on the lane of rank 0's main.
    Receipt(Receipt),
}
