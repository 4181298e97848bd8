//! Why a call was refused.
ghost use Rattle.std.specs.Prelude.{codes, Some};

use std::error::Error;
use std::fmt;

/// The slot was filled before. It hands back the value that was to fill it.
#[derive(Debug, PartialEq, Eq, Drop)]
pub struct Twice<T> {
    pub value: T,
}

impl<T> fmt::Display for Twice<T> {
    ghost output = { λ _. Some (codes "the slot was filled before") };

    fn fmt<W: fmt::Write>(&self, f: &mut fmt::Formatter<W>) -> fmt::Result {
        write!(f, "the slot was filled before")
    }
}

impl<T: fmt::Debug + Drop> Error for Twice<T> {}
