//! The steps and starts of commands on trees: their units by labels, dues and homes, and the effects of units.
//!
//! [`Commands`] has what each command of a job does. A step first decides, by the rules of `haar_visits`, and then has the
//! effects of that; so the outlines of its effects follow from what it decided.
#![tactic(auto)]

mod commands;
pub mod effects;
pub mod homes;
pub mod labels;
pub mod laws;
pub mod names;
mod reads;
mod starts;
mod steps;

pub use commands::Commands;
pub use effects::HaarEffects;
