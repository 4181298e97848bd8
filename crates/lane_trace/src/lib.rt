//! The trace that a lane keeps of its events.
//!
//! An event of `event_lists` is plain data of 416 bytes. A [`LaneTrace`] stores 40 bytes for each event; the units
//! of messages and tasks, the needs of tasks and the rows of receipts are in lists beside it. Room for events is made before they happen,
//! and adding one takes no memory.
#![tactic(auto)]

mod examples;
mod record;
mod room;
mod stored_event;
#[cfg(test)]
mod tests;
mod trace;

pub use examples::{needs_and_rows_are_counted, room_is_judged};
pub use record::{LaneRecord, ReserveError};
pub use room::{Room, any_event_fits};
/// No memory is left for what a call has to make.
pub use std::alloc::AllocError as OutOfMemory;
pub use trace::LaneTrace;
