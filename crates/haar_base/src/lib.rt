//! The data of the tree application: what commands do, the units into which they are cut, what futures have, and what
//! units find of the trees that they read.
#![tactic(auto)]

pub mod decisions;
pub mod examples;
pub mod numbers;
mod operation;
pub mod readings;
mod unit;
mod value;

pub use operation::Operation;
pub use unit::{Down, Haar, Held, Side, Sides, Unit, Up};
pub use value::Value;
