//! The messages that wait for a rank.
//!
//! [`InboxState`] is the list of them: first in, first out. An [`Inbox`] has it behind a lock, for the hands of all
//! ranks. A [`Mail`] is a message of an application, whose load is right. This is after the active messages of MADNESS,
//! which a thread of the receiving process takes in the order in which they came.
#![tactic(auto)]

mod examples;
mod inbox;
mod inbox_state;
mod load;
mod mail;
#[cfg(test)]
mod tests;

pub use examples::{loads_are_judged, oldest_comes_first};
pub use inbox::{Inbox, Pass};
pub use inbox_state::InboxState;
pub use load::Load;
pub use mail::Mail;
/// No memory is left for what a call has to make.
pub use std::alloc::AllocError as OutOfMemory;
/// There is no memory for one more. It hands back what was to be added, as `value`.
pub use std::alloc::AllocFailed as Refused;
