//! Why a command writes no tree.
ghost use Rattle.std.specs.Prelude.{◌≡◌};

use haar_node::Over;
use tree_key::OutOfMemory;

/// Why a command writes no tree.
#[derive(Clone, Copy, Debug, PartialEq, Eq)]
pub enum CommandError {
    /// A value of the tree would be more than a cell may have.
    Overflow,
    /// There is no memory left.
    OutOfMemory,
}

impl From<OutOfMemory> for CommandError {
    ghost use Rattle.tree_operations.specs.declared.command_error.CommandError.TheVariants.{OutOfMemory as NoMemory};

    ghost from_gives = { λ _ e. e ≡ NoMemory };

    fn from(_error: OutOfMemory) -> CommandError {
        CommandError::OutOfMemory
    }
}

impl From<Over> for CommandError {
    ghost use Rattle.tree_operations.specs.declared.command_error.CommandError.TheVariants.{Overflow as Overflowed};

    ghost from_gives = { λ _ e. e ≡ Overflowed };

    fn from(_error: Over) -> CommandError {
        CommandError::Overflow
    }
}
