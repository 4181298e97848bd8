//! The main of rank 0 carries out a task: its puts and erases on the lanes of bins, and its spawns on its own.
ghost use Rattle.std.specs.Prelude.{◌≡◌, ℕ, suc, None, [], ◌∷◌, Some, List, length, slice_get, OnOk, IfOk};
ghost use Rattle.app_core.specs.declared.outline.Outline.{Outline as OutlineData};
ghost use Rattle.app_core.specs.declared.outline.Outline.TheVariants.{Spawn, Put, Erase};
ghost use Rattle.app_core.specs.Outlines.{outlines};
ghost use Rattle.event_laws.specs.Follows.{bin_of, Start};
ghost use Rattle.event_lists.specs.declared.event.Event.TheVariants.{Put as Puts, Erased as Erases};
ghost use Rattle.store_tests.specs.Turns.{IsResting, IsAt, BringsTask, IsBin};

use app_core::{App, CellName, Effects, Facts, Label};
use event_laws::ListLaws;
use world_words::{Carrier, Lane, ReserveError, Words};

/// The main takes a task of the unit with this label, and begins it with these effects.
pub fn begin_task<A: App>(
    words: &Words<A>,
    hand: &mut Lane,
    carrier: Carrier,
    unit: Label,
    effects: &Effects<A::Unit, A::Value, A::Cell>,
) -> Result<(), ReserveError>
    requires hand { IsResting words.now hand.old }
    requires carrier { BringsTask words.now unit carrier }
    requires may { A.may_do words.now.app unit (outlines (A.label_of words.now.app) (A.due_of words.now.app) (A.home_of words.now.app) (A.kept_at words.now.app) words.now.ranks effects.now) }
    ensures { OnOk result (IsAt words.now (outlines (A.label_of words.now.app) (A.due_of words.now.app) (A.home_of words.now.app) (A.kept_at words.now.app) words.now.ranks effects.now) 0 hand.new) }
{
    words.reserve(hand, 1)?;
    words.take_in(hand, carrier);
    words.begin(hand, effects);
    Ok(())
}

/// The next effect of the task, a put, goes to its bin's lane, which carries it out and tells so.
pub fn put_next<A: ListLaws>(
    words: &Words<A>,
    hand: &mut Lane,
    bin: &mut Lane,
    name: CellName,
) -> Result<(), ReserveError>
    requires ranks { words.now.ranks ≡ A.ranks_of words.now.app }
    requires hand { (os : List OutlineData) × (at : ℕ) × IsAt words.now os at hand.old × (slice_get os at ≡ Some (Put name)) }
    requires bin { IsBin words.now bin.old × (bin.old.name ≡ bin_of 0 name) }
    ensures hand { OnOk result ((os : List OutlineData) (at : ℕ) → IsAt words.now os at hand.old → IsAt words.now os (suc at) hand.new) }
    ensures bin { OnOk result (IsBin words.now bin.new × (bin.new.name ≡ bin.old.name)) }
    ensures event { OnOk result (bin.new.mine ≡ Puts name ∷ bin.old.mine) }
{
    words.reserve(bin, 1)?;
    let carrier = words.draw(hand, name);
    words.put(bin, carrier, name);
    let told = words.tell(bin);
    words.learn(hand, told);
    Ok(())
}

/// The next effect of the task, an erase, goes to its bin's lane, which carries it out and tells so.
pub fn erase_next<A: ListLaws>(
    words: &Words<A>,
    hand: &mut Lane,
    bin: &mut Lane,
    name: CellName,
) -> Result<(), ReserveError>
    requires ranks { words.now.ranks ≡ A.ranks_of words.now.app }
    requires hand { (os : List OutlineData) × (at : ℕ) × IsAt words.now os at hand.old × (slice_get os at ≡ Some (Erase name)) }
    requires bin { IsBin words.now bin.old × (bin.old.name ≡ bin_of 0 name) }
    ensures hand { OnOk result ((os : List OutlineData) (at : ℕ) → IsAt words.now os at hand.old → IsAt words.now os (suc at) hand.new) }
    ensures bin { OnOk result (IsBin words.now bin.new × (bin.new.name ≡ bin.old.name)) }
    ensures event { OnOk result (bin.new.mine ≡ Erases name ∷ bin.old.mine) }
{
    words.reserve(bin, 1)?;
    let carrier = words.draw(hand, name);
    words.erased(bin, carrier, name);
    let news = words.tell(bin);
    words.learn(hand, news);
    Ok(())
}

/// The main starts a unit at its rank.
pub fn start_unit<A: Facts>(
    words: &Words<A>,
    hand: &mut Lane,
    unit: Label,
) -> Result<Carrier, ReserveError>
    requires hand { IsResting words.now hand.old × (hand.old.mine ≡ []) }
    requires next { slice_get words.now.program 0 ≡ Some (Start (Spawn unit None [] 0)) }
    ensures hand { OnOk result (IsResting words.now hand.new) }
    ensures task { IfOk result (λ carrier. BringsTask words.now unit carrier) }
{
    words.reserve(hand, 1)?;
    words.submitted(hand, unit, &[], None);
    Ok(words.pack(hand))
}

/// The next effect of the task is a spawn at its rank.
pub fn spawn_next<A: Facts>(
    words: &Words<A>,
    hand: &mut Lane,
    unit: Label,
) -> Result<Carrier, ReserveError>
    requires hand { (os : List OutlineData) × (at : ℕ) × IsAt words.now os at hand.old × (slice_get os at ≡ Some (Spawn unit None [] 0)) }
    ensures hand { OnOk result ((os : List OutlineData) (at : ℕ) → IsAt words.now os at hand.old → IsAt words.now os (suc at) hand.new) }
    ensures task { IfOk result (λ carrier. BringsTask words.now unit carrier) }
{
    words.reserve(hand, 1)?;
    words.submitted(hand, unit, &[], None);
    Ok(words.pack(hand))
}

/// The task ran, where all of its effects were carried out.
pub fn finish_task<A: Facts>(words: &Words<A>, hand: &mut Lane) -> Result<(), ReserveError>
    requires hand { (os : List OutlineData) × IsAt words.now os (length os) hand.old }
    ensures { OnOk result (IsResting words.now hand.new) }
{
    words.reserve(hand, 1)?;
    words.ran(hand);
    Ok(())
}
