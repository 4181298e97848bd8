//! What the down and up units of each command decide for.
//!
//! A down unit decides by what it knows of the trees that its command reads and by the entries that it read; an up unit
//! by what it holds and what the units of the two children gave. [`visits`] is the one place that says of an operation
//! what its units do.
#![tactic(auto)]

pub mod adding;
pub mod coarsening;
pub mod compressing;
pub mod examples;
pub mod inner_products;
pub mod laws;
pub mod multiplying;
pub mod printing;
pub mod projecting;
pub mod reconstructing;
pub mod refining;
pub mod sizing;
pub mod visits;
