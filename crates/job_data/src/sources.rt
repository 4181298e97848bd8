//! The versions that a command reads.
/// The versions that a command reads.
#[derive(Clone, Copy, Debug, PartialEq, Eq)]
pub enum Sources {
    Nothing,
    One(u32),
    Two(u32, u32),
}
