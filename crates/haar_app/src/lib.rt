//! The commands of a job on trees, cut into units for a runtime.
//!
//! A command goes down the keys of the trees that it reads. The unit of a key reads the entries of its key, puts the
//! node of the tree that the command writes, and spawns the units of the two children, or gives the value of its
//! future at once. Where it spawns them, it also spawns a unit that needs what the children give and combines it.
//! Sums and differences that a unit knows travel in the units that it spawns. [`HaarApp`] has the commands of a job,
//! for an owner map and a number of ranks.
//!
//! The cut is after the recursive tasks of MADNESS' function trees; labels, units and their order are this project's
//! own.
#![tactic(auto)]

mod app;
mod haar_app;
mod list_laws;
mod planning;
mod results;

pub use app_core::OutOfMemory;
pub use haar_app::HaarApp;
pub use haar_base::{Down, Haar, Held, Operation, Side, Sides, Unit, Up, Value};
pub use haar_lines::Lines;
pub use haar_results::{JobLines, ResultError};
