//! The main of rank 0 runs both tasks of the application, over the lanes of its bins.
ghost use Rattle.std.specs.Prelude.{◌≡◌, ℕ, suc, None, [], Some, List, slice_get, OnOk, IfOk};
ghost use Rattle.app_core.specs.declared.outline.Outline.{Outline as OutlineData};
ghost use Rattle.app_core.specs.declared.outline.Outline.TheVariants.{Put, Erase};
ghost use Rattle.store_tests.specs.declared.store.StoreUnit.TheVariants.{Fill, Move as Moves};
ghost use Rattle.store_tests.specs.Store.{label_of, step_of};
ghost use Rattle.store_tests.specs.Turns.{IsResting, IsAt, BringsTask, AreBins};

use crate::carrying::{begin_task, erase_next, finish_task, put_next, spawn_next};
use crate::store::{FILL, FIRST, MOVE, OLD, SECOND, StoreApp, StoreUnit};
use app_core::{CellName, Effects};
use world_words::{Carrier, Lane, ReserveError, Words};

/// The next effect of the task, a put, goes to the bin of its entry.
pub fn put_in(
    words: &Words<StoreApp>,
    hand: &mut Lane,
    bins: &mut Vec<Lane>,
    name: CellName,
) -> Result<(), ReserveError>
    requires ranks { words.now.ranks ≡ 1 }
    requires hand { (os : List OutlineData) × (at : ℕ) × IsAt words.now os at hand.old × (slice_get os at ≡ Some (Put name)) }
    requires bins { AreBins words.now bins.old.items }
    ensures hand { OnOk result ((os : List OutlineData) (at : ℕ) → IsAt words.now os at hand.old → IsAt words.now os (suc at) hand.new) }
    ensures bins { OnOk result (AreBins words.now bins.new.items) }
{
    put_next(words, hand, &mut bins[(name.place % 16) as usize], name)?;
    Ok(())
}

/// The next effect of the task, an erase, goes to the bin of its entry.
pub fn erase_in(
    words: &Words<StoreApp>,
    hand: &mut Lane,
    bins: &mut Vec<Lane>,
    name: CellName,
) -> Result<(), ReserveError>
    requires ranks { words.now.ranks ≡ 1 }
    requires hand { (os : List OutlineData) × (at : ℕ) × IsAt words.now os at hand.old × (slice_get os at ≡ Some (Erase name)) }
    requires bins { AreBins words.now bins.old.items }
    ensures hand { OnOk result ((os : List OutlineData) (at : ℕ) → IsAt words.now os at hand.old → IsAt words.now os (suc at) hand.new) }
    ensures bins { OnOk result (AreBins words.now bins.new.items) }
{
    erase_next(words, hand, &mut bins[(name.place % 16) as usize], name)?;
    Ok(())
}

/// The main runs the task that puts the old entry, and submits the one that moves.
pub fn fill(
    words: &Words<StoreApp>,
    hand: &mut Lane,
    bins: &mut Vec<Lane>,
    carrier: Carrier,
    effects: &Effects<StoreUnit, u64, u32>,
) -> Result<Carrier, ReserveError>
    requires ranks { words.now.ranks ≡ 1 }
    requires hand { IsResting words.now hand.old }
    requires bins { AreBins words.now bins.old.items }
    requires carrier { BringsTask words.now (label_of Fill) carrier }
    requires effects { effects.now ≡ step_of Fill }
    ensures hand { OnOk result (IsResting words.now hand.new) }
    ensures bins { OnOk result (AreBins words.now bins.new.items) }
    ensures task { IfOk result (λ task. BringsTask words.now (label_of Moves) task) }
{
    begin_task(words, hand, carrier, FILL, effects)?;
    put_in(words, hand, bins, OLD)?;
    let task = spawn_next(words, hand, MOVE)?;
    finish_task(words, hand)?;
    Ok(task)
}

/// The main runs the task with two puts and an erase, over the lanes of two bins.
pub fn move_entries(
    words: &Words<StoreApp>,
    hand: &mut Lane,
    bins: &mut Vec<Lane>,
    carrier: Carrier,
    effects: &Effects<StoreUnit, u64, u32>,
) -> Result<(), ReserveError>
    requires ranks { words.now.ranks ≡ 1 }
    requires hand { IsResting words.now hand.old }
    requires bins { AreBins words.now bins.old.items }
    requires carrier { BringsTask words.now (label_of Moves) carrier }
    requires effects { effects.now ≡ step_of Moves }
    ensures hand { OnOk result (IsResting words.now hand.new) }
    ensures bins { OnOk result (AreBins words.now bins.new.items) }
{
    begin_task(words, hand, carrier, MOVE, effects)?;
    put_in(words, hand, bins, FIRST)?;
    put_in(words, hand, bins, SECOND)?;
    erase_in(words, hand, bins, OLD)?;
    finish_task(words, hand)
}
