//! What an application of the runtime is: its names, its effects and its laws.
//!
//! The runtime is generic over an application, and all that it promises is said through the trait [`App`]. Units,
//! futures and entries have names of plain data, so that the events of a run can be told without an application's
//! own types: [`Facts`] has what is said of an application on such data alone, and [`Outline`] is what is left of
//! an effect there.
//!
//! The design follows the task queues, futures and containers of MADNESS. The cut of an application into units
//! with labels, and its laws, are this project's own.
#![tactic(auto)]

mod app;
mod effect;
mod effect_queue;
mod effect_with;
mod effects;
mod examples;
mod facts;
mod gate;
mod inputs;
mod label;
pub mod laws;
mod naming;
mod needs;
mod outline;

pub use app::App;
pub use effect::Effect;
pub use effect_queue::EffectQueue;
pub use effect_with::{EffectWith, LentEffect};
pub use effects::Effects;
pub use facts::Facts;
pub use gate::{Gate, NoGate};
pub use inputs::Inputs;
pub use label::{CellName, Label};
pub use naming::Naming;
pub use needs::Needs;
pub use outline::{CommandKind, Outline};
/// No memory is left for what a call has to make.
pub use std::alloc::AllocError as OutOfMemory;
