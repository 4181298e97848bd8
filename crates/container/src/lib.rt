//! A rank's share of the containers: entries by name, and look-ups that wait for them.
//!
//! A [`BinState`] has entries and waiting look-ups, and its calls say what they do to both. A [`Bin`] has one for an
//! application: each entry in it is right for its name. A [`Container`] is the 16 bins of a rank, each behind a lock,
//! which an [`Accessor`] keeps taken. This is after the containers of MADNESS, whose local part is a map in bins that
//! accessors lock.
#![tactic(auto)]

mod bin;
mod bin_state;
mod entries;
mod examples;
mod look_ups;
mod rank_bins;
mod refusals;
#[cfg(test)]
mod tests;
mod version_entries;
mod wait_list;
mod wait_log;

pub use bin::Bin;
pub use bin_state::BinState;
pub use look_ups::LookUp;
pub use rank_bins::{Accessor, Container, bin_of};
pub use refusals::{InsertError, StillWaited};
/// No memory is left for what a call has to make.
pub use std::alloc::AllocError as OutOfMemory;
