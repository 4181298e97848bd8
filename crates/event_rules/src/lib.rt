//! Whether an event may come after a list of events: the decision of the rules that make lists legal, from what is
//! known of the list.
//!
//! [`Past`] says what has to be known, and [`allows`] decides by that alone. A list that is searched and a list that
//! keeps indexes both implement it, so one decision serves both.
#![tactic(auto)]

mod decision;
pub mod events;
mod fences;
mod hands;
mod lookup;
mod receipts;
mod spawns;
mod values;

pub use decision::allows;
pub use lookup::Past;
pub use values::{Found, LaneState, Load, Made, Recent};
