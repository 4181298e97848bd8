//! How an application is run.

/// How an application is run.
#[derive(Clone, Copy, Debug, PartialEq, Eq)]
pub struct Config {
    /// How many ranks there are, from 1 to 16.
    pub ranks: u32,

    /// How many workers each rank has beside its main, from 0 to 4.
    pub workers: u32,

    /// Whether the events of the run are written down. This isn't possible yet.
    pub trace: bool,
}
