//! The operations of commands on whole trees.
//!
//! They work on what is stored of Haar trees: in the reconstructed form the sum over the box of each leaf
//! ([`Numbers`]), in the compressed form the sum over all cells and the difference between the halves of each key that has
//! children ([`Compressed`]). Each is a map from keys to numbers, and each operation visits the keys of its trees once,
//! from the root down, as MADNESS's operations on function trees do.
#![tactic(auto)]

mod adding;
mod coarsening;
mod command_error;
mod compressing;
mod inner_products;
mod multiplying;
mod numbers;
mod operations;
mod projecting;
mod reconstructing;
mod refining;
mod stored;
mod whole_sums;

pub use command_error::CommandError;
pub use numbers::Numbers;
pub use operations::{add, coarsen, compress, inner, multiply, project, reconstruct, refine, size};
pub use stored::{Compressed, StoredTree};
