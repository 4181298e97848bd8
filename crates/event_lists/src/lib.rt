//! Events of a run, the rules that make a list of them legal, and what a fence's receipt says of such a list.
//!
//! The definitions are in `specs/`; lists of events have the newest first. This crate has the events as plain data,
//! and laws about the definitions, each a contract with an empty body. The rules of the two passes over messages sent
//! and handled are after Mattern's four-counter method, which the fence of MADNESS uses too; the counting of tasks in
//! numbers that only grow, the order of the readings and the receipt are this project's own.
#![tactic(auto)]

mod event;
mod future;
mod kind;
mod lane;
mod lasting;
mod laws;
mod mark;
mod receipt;
mod refusals;

pub use event::{Event, Parcel, TaskName};
pub use future::{Bringer, Future};
pub use kind::{Kind, Reading};
pub use lane::LaneName;
pub use lasting::{
    conditions_last, conditions_were_met, counts_are_below_lengths, dues_and_needs_of_items_last,
    events_last, items_are_made_once, items_are_taken_once, numbers_are_below_counts,
    receipts_are_own, rows_last, spawns_are_own,
};
pub use laws::{
    a_run_with_tasks_is_judged, beginnings_are_legal, counts_are_frozen,
    dues_are_given_up_to_the_receipt, events_are_counted_once, futures_have_their_names,
    nothing_changes_up_to_the_receipt, nothing_is_open_between_the_passes, receipts_are_quiet,
    small_runs_are_judged,
};
pub use mark::{EffectName, Item, Mark};
pub use receipt::{Receipt, Row, Rows};
pub use refusals::{
    lanes_are_judged, needs_are_judged, needs_without_dues_are_judged, opening_again_is_judged,
    sends_are_judged, work_in_a_fence_is_judged,
};
