//! Computed examples, as contracts.
ghost use Rattle.std.specs.Prelude.{◌≡◌, None, Some, IfOk};

use crate::OutOfMemory;
use crate::pool_state::PoolState;
use std::alloc::Global;

/// Of two units the one that was pushed first comes out first, then the other, and then none.
pub fn oldest_comes_first(
    alloc: Global,
) -> Result<(Option<u8>, Option<u8>, Option<u8>), OutOfMemory>
    ensures { IfOk result (λ r. r ≡ (Some 5, Some 7, None)) }
{
    let mut state = PoolState::new(alloc);
    state.push(5u8)?;
    state.push(7)?;
    let first = state.take();
    let second = state.take();
    Ok((first, second, state.take()))
}
