//! Why a result has no text.
ghost use Rattle.std.specs.Prelude.{◌≡◌};

use app_core::OutOfMemory;

/// Why a result has no text.
#[derive(Clone, Copy, Debug, PartialEq, Eq)]
pub enum ResultError {
    /// The command overflows.
    Overflow,
    /// There is no memory left.
    OutOfMemory,
}

impl From<OutOfMemory> for ResultError {
    ghost use Rattle.haar_results.specs.declared.result_error.ResultError.TheVariants.{OutOfMemory as NoMemory};

    ghost from_gives = { λ _ e. e ≡ NoMemory };

    fn from(_error: OutOfMemory) -> ResultError {
        ResultError::OutOfMemory
    }
}
