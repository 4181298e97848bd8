//! The names that a command reads.
use job_words::Name;

/// The names of the trees that a command reads.
#[derive(Clone, Copy)]
pub enum Reads {
    Nothing,
    One(Name),
    Two(Name, Name),
}
