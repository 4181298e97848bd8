//! Where a program reads from and writes to: a [`Source`] and a [`Sink`] of bytes, each with a
//! count of its faults, and [`read_all`] and [`write_all`] over them.
//!
//! - [`MemSource`] and [`MemSink`] are in memory, move few bytes a call, and fail as planned.
//! - [`SureSource`] and [`SureSink`] are in memory and never fail.
//! - [`StdSource`] and [`StdSink`] adapt a reader and a writer of std.
#![tactic(auto)]

mod mem_sink;
mod mem_source;
mod reading;
mod sink;
mod source;
mod std_sink;
mod std_source;
mod sure_sink;
mod sure_source;
#[cfg(test)]
mod tests;
mod writing;

pub use mem_sink::MemSink;
pub use mem_source::MemSource;
pub use reading::{ReadAllError, read_all};
pub use sink::Sink;
pub use source::{Failed, Source};
pub use std_sink::StdSink;
pub use std_source::StdSource;
pub use sure_sink::SureSink;
pub use sure_source::SureSource;
pub use writing::{WriteFault, write_all};
/// No memory is left for what a call has to make.
pub use std::alloc::AllocError as OutOfMemory;
