//! Computed examples, as contracts.
ghost use Rattle.std.specs.Prelude.{◌≡◌, None, Some, IfOk};
ghost use Rattle.mailbox.specs.declared.load.Load.TheVariants.{Unit as Carried, Give};
ghost use Rattle.mailbox.specs.Examples.{IsRight, third, main};

use crate::OutOfMemory;
use crate::inbox_state::InboxState;
use std::alloc::Global;

/// Of two messages the one that was put first comes out first, then the other, and then none.
pub fn oldest_comes_first(
    alloc: Global,
) -> Result<(Option<u8>, Option<u8>, Option<u8>), OutOfMemory>
    ensures { IfOk result (λ r. r ≡ (Some 5, Some 7, None)) }
{
    let mut state = InboxState::new(alloc);
    state.put(5u8)?;
    state.put(7)?;
    let first = state.take();
    let second = state.take();
    Ok((first, second, state.take()))
}

/// A load has a unit of the application that needs no future, and who created its due exactly where it has one; or a
/// right value.
pub fn loads_are_judged()
    ensures unit_with_due { IsRight (Carried 1 (Some main)) }
    ensures due_of_nobody { IsRight (Carried 1 None) → ⊥ }
    ensures unit_without_due { IsRight (Carried 0 None) }
    ensures bringer_of_no_due { IsRight (Carried 0 (Some main)) → ⊥ }
    ensures unit_with_needs { IsRight (Carried 4 (Some main)) → ⊥ }
    ensures no_unit { IsRight (Carried 5 (Some main)) → ⊥ }
    ensures value { IsRight (Give third main 3) }
    ensures wrong_value { IsRight (Give third main 4) → ⊥ }
{}
