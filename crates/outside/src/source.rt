//! What can be read.
ghost use Rattle.std.specs.Prelude.{ℕ, List};
ghost use Rattle.std.specs.declared.option.Option.{Option};
ghost use Rattle.std.specs.Io.{ReadsAtMost};
ghost use Rattle.std.specs.Io.KnownBytes.{ReadConsumes};
ghost use Rattle.outside.specs.Causes.{HasCause};

use thiserror::Error;

/// One read or write failed. The count of faults of its source or sink rose.
#[derive(Clone, Copy, Debug, PartialEq, Eq, Error)]
#[error("a read or a write failed")]
pub struct Failed;

/// A source of bytes.
pub trait Source {
    /// The bytes that were not read yet, where the source tells them.
    ghost left: { Self → Option (List ℕ) };

    /// How often it failed. It never falls; at 2^64 - 1 it stays.
    ghost faults: { Self → ℕ };

    /// Reads the next bytes to the start of `buf`, at most as many as it has room for, and returns
    /// their number. No byte for a `buf` with room is the end.
    ///
    /// # Errors
    ///
    /// `Failed` only where the count of faults rose, or was at 2^64 - 1. Nothing was read then.
    fn read(&mut self, buf: &mut [u8]) -> Result<usize, Failed>
        ensures bound { ReadsAtMost result buf.new }
        ensures bytes { ReadConsumes (left self.old) (left self.new) result buf.new }
        ensures cause { HasCause (faults self.old) (faults self.new) result };
}
