//! The hands of a rank: they take messages and ready tasks, make the steps of units, and carry their effects out.
//!
//! A [`RankShare`] is what the hands of one rank share: its pool, its container, its tables of futures and of waiting
//! tasks, and the inboxes of all ranks. A [`Hand`] is the main of a rank, which has the number 0, or one of its workers.
//! Each [`turn`](Hand::turn) of a hand does one thing. [`Signals`] are what the hands of all ranks share: whether the run
//! is over. This is after MADNESS, where the threads of a process take tasks from one queue and active messages from
//! others.
#![tactic(auto)]

mod desk;
mod effects;
mod entries;
mod examples;
mod gives;
mod hand;
mod messages;
mod share;
mod signals;
mod spawner;
mod steps;
mod submissions;
mod turn;
mod walk;

pub use hand::Hand;
pub use share::RankShare;
pub use signals::Signals;
pub use turn::Turn;
/// No memory is left for what a call has to make.
pub use std::alloc::AllocError as OutOfMemory;
