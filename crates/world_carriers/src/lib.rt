//! Messages and tasks that wait beside their carriers, for inboxes and pools behind locks.
//!
//! What a lock holds is known by its type alone. So a [`Carried`] keeps in its type that its carrier is one of the words that
//! a [`WordsNaming`] names, and that the carrier has this load.
#![tactic(auto)]

mod carried;
pub mod examples;
pub mod laws;
mod naming;
#[cfg(test)]
mod tests;

pub use carried::{Carried, CarriedLoad};
pub use naming::WordsNaming;
