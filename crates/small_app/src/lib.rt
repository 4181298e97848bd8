//! A small application, whose results can be computed by hand.
//!
//! It shows that the laws of an application can be met, and serves as the application of tests. It has three work
//! commands with fences between them, for 1 to 16 ranks. A rank that is named below and isn't there is rank 0.
//!
//! 1. The first writes version 1. A leaf on rank 1 puts 5 at place 2, one on rank 2 puts 7 at place 3, and each
//!    gives what it put. A unit on rank 0 needs both and gives their sum, 12, which is the result; it has the entry
//!    at place 3 erased again.
//! 2. A fence.
//! 3. The second reads the entry that is left on rank 1 and counts the entries there. A unit on rank 0 needs both
//!    numbers, and gives ten times the first plus the second, 51, as the result, which rank 3 keeps.
//! 4. A fence.
//! 5. The last writes version 2. A unit on rank 1 gives a number of which nothing is said. One on rank 0 needs it:
//!    where it is 0 this unit puts 9 and gives it, the result; else it spawns a unit that does so. So either of the
//!    two may put the entry, and in each run just one of them does.
#![tactic(auto)]

mod app;
mod examples;
mod guess;
mod held;
mod lists;
mod shared;
#[cfg(test)]
mod tests;
mod unit;

pub use app::SmallApp;
pub use examples::{
    a_run_up_to_a_fence_follows, other_premises_are_met, two_units_may_put_one_entry,
};
pub use guess::GuessUnit;
pub use held::{Held, Table};
pub use lists::{entries_held_are_those_by_hand, totals_are_those_by_hand};
pub use shared::{give, look, step_and_look};
pub use unit::Unit;
