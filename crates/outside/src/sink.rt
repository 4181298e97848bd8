//! What can be written to.
ghost use Rattle.std.specs.Prelude.{◌≡◌, ℕ, ◌<◌, ◌≤◌, List, drop, length, IfOk};
ghost use Rattle.std.specs.declared.option.Option.{Option};
ghost use Rattle.std.specs.Io.KnownBytes.{WriteAppends};
ghost use Rattle.outside.specs.Causes.{HasCause};

use crate::source::Failed;

/// A sink of bytes.
pub trait Sink {
    /// The bytes that it took, where the sink tells them.
    ghost taken: { Self → Option (List ℕ) };

    /// How often it failed. It never falls; at 2^64 - 1 it stays.
    ghost faults: { Self → ℕ };

    /// The numbers of the calls that it was made to fail, which no call changes.
    ghost made: { Self → List ℕ };

    /// Whether a piece may be written.
    ghost fits: { Self → List ℕ → Type 0 };

    /// Takes a prefix of `bytes`, which fit, and returns its length: at least 1 where there is a
    /// byte. The rest then fits.
    ///
    /// # Errors
    ///
    /// `Failed` only where the count of faults rose, or was at 2^64 - 1. Nothing was taken then.
    fn write(&mut self, bytes: &[u8]) -> Result<usize, Failed>
        requires { fits self.old bytes.now }
        ensures bound { IfOk result (λ n. n ≤ length bytes.now) }
        ensures some { IfOk result (λ n. 0 < length bytes.now → 0 < n) }
        ensures bytes { WriteAppends (taken self.old) (taken self.new) result bytes.now }
        ensures rest { IfOk result (λ n. fits self.new (drop n bytes.now)) }
        // A sink that fits every piece goes on to fit every piece.
        ensures always { ((piece : List ℕ) → fits self.old piece) → (piece : List ℕ) → fits self.new piece }
        ensures cause { HasCause (faults self.old) (faults self.new) result }
        ensures made { made self.new ≡ made self.old };
}
