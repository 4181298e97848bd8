//! Why a call was refused.

use app_core::CellName;
use std::fmt::Debug;
use thiserror::Error;

/// Why an entry wasn't added. Each hands its cell back.
#[derive(Debug, PartialEq, Eq, Drop, Error)]
#[error_bound(C: Debug + Drop)]
pub enum InsertError<C> {
    /// The name has an entry.
    #[error("the name has an entry")]
    Present(C),
    /// There is no memory for the entry.
    #[error("out of memory")]
    OutOfMemory(C),
}

/// Something waits for an entry of the version: the name for which the first look-up waits.
#[derive(Clone, Copy, Debug, PartialEq, Eq, Error)]
#[error("an entry of the version is waited for")]
pub struct StillWaited {
    pub name: CellName,
}
