//! A list of events alone, which is searched for each answer.
//!
//! [`SearchedList`] keeps the events of a run in order, judges each new one by the rules of `event_rules`, and finds
//! what these ask for by plain searches that read as the definitions do. It is the program of the definitions: short,
//! and slow, since each answer goes through the list.
#![tactic(auto)]

mod dues;
mod fences;
mod items;
mod lanes;
mod list;
mod past;

pub use list::SearchedList;
