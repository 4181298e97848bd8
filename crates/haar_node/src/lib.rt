//! The functions that a job can name, the nodes of trees, and the arithmetic on the numbers in nodes.
//!
//! A function is given on the cells from 0 to two to the depth minus one, and its values are whole numbers of at most
//! two to the 24 in absolute value. A tree keeps sums over boxes and the differences of half sums. That is the Haar
//! transform, the lowest order of MADNESS's multiwavelets, in whole numbers and without normalization: [`join`] makes a sum
//! and a difference of the sums over two halves, and [`split`] undoes it.
#![tactic(auto)]

mod combine;
mod examples;
mod func;
pub mod laws;
mod mix;
mod node;

pub use combine::{Over, combine_add, combine_inner, combine_mul, finish_inner, join, split};
pub use func::{Func, MAX_DEPTH, MAX_DIFFERENCE, MAX_VALUE};
pub use node::{Coefficient, Node};
