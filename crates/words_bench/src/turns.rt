//! Turns of mains, as those of `words_tests`, whose calls aren't inlined.
ghost use Rattle.std.specs.Prelude.{◌≡◌, ◌≢◌, ◌+◌, ◌<◌, ◌≤◌, suc, false, None, Some, [], slice_get, ℕ, true};
ghost use Rattle.app_core.specs.declared.outline.Outline.TheVariants.{Spawn};
ghost use Rattle.event_lists.specs.Events.{Begins};
ghost use Rattle.event_lists.specs.Fences.{enters, has_receipt};
ghost use Rattle.event_lists.specs.OwnEvents.{has_receipt_on_lane};
ghost use Rattle.event_laws.specs.Follows.{Start, program_at, deeds};
ghost use Rattle.words_tests.specs.Turns.{IsOutside, IsInside, HasRow, BringsUnit, BringsTask};
ghost use Rattle.event_lists.specs.declared.receipt.Row.{Row as RowData};

use crate::calls::{begin, handled, learn, pack, ran, sent, submitted, take_in, tell};
use app_core::{App, Effects, Facts, Label};
use event_lists::Parcel;
use world_words::{Carrier, Lane, Words};

/// A main that is in no fence starts a unit at another rank.
pub fn start_unit<A: Facts>(words: &Words<A>, lane: &mut Lane, to: u32, unit: Label) -> Carrier
    requires outside { IsOutside words.now (enters lane.old.mine) lane.old }
    requires room { 0 < lane.old.spare }
    requires target { (to < words.now.ranks) × (to ≢ lane.old.name.rank) }
    requires next { slice_get (program_at lane.old.name.rank words.now.program) (deeds lane.old.mine) ≡ Some (Start (Spawn unit None [] to)) }
    ensures outside { IsOutside words.now (enters lane.old.mine) lane.new }
    ensures entered { enters lane.new.mine ≡ enters lane.old.mine }
    ensures done { deeds lane.new.mine ≡ suc (deeds lane.old.mine) }
    ensures name { lane.new.name ≡ lane.old.name }
    ensures carrier { BringsUnit words.now to unit result }
    ensures room { lane.old.spare ≤ lane.new.spare + 1 }
{
    sent(words, lane, to, Parcel::Unit { unit, due: None });
    pack(words, lane)
}

/// A main in a fence takes a unit that a message brought, and submits it.
pub fn serve_unit<A: Facts>(
    words: &Words<A>,
    lane: &mut Lane,
    carrier: Carrier,
    unit: Label,
    fence: u32,
    pass: u64,
) -> Carrier
    requires inside { IsInside words.now fence pass lane.old }
    requires room { 2 < lane.old.spare }
    requires carrier { BringsUnit words.now lane.old.name.rank unit carrier }
    ensures inside { IsInside words.now fence pass lane.new }
    ensures open { has_receipt_on_lane fence lane.old.mine ≡ false → has_receipt_on_lane fence lane.new.mine ≡ false }
    ensures done { deeds lane.new.mine ≡ deeds lane.old.mine }
    ensures name { lane.new.name ≡ lane.old.name }
    ensures knows { Begins lane.old.seen lane.new.seen }
    ensures carrier { BringsTask words.now lane.old.name.rank unit result }
    ensures room { lane.old.spare ≤ lane.new.spare + 3 }
{
    take_in(words, lane, carrier);
    submitted(words, lane, unit, &[], None);
    let task = pack(words, lane);
    handled(words, lane);
    task
}

/// A main in a fence takes a task without effects, and runs it.
pub fn run_unit<A: App>(
    words: &Words<A>,
    lane: &mut Lane,
    carrier: Carrier,
    unit: Label,
    effects: &Effects<A::Unit, A::Value, A::Cell>,
    fence: u32,
    pass: u64,
)
    requires inside { IsInside words.now fence pass lane.old }
    requires room { 1 < lane.old.spare }
    requires carrier { BringsTask words.now lane.old.name.rank unit carrier }
    requires effects { effects.now ≡ [] }
    requires may { A.may_do words.now.app unit [] }
    ensures inside { IsInside words.now fence pass lane.new }
    ensures open { has_receipt_on_lane fence lane.old.mine ≡ false → has_receipt_on_lane fence lane.new.mine ≡ false }
    ensures done { deeds lane.new.mine ≡ deeds lane.old.mine }
    ensures name { lane.new.name ≡ lane.old.name }
    ensures knows { Begins lane.old.seen lane.new.seen }
    ensures room { lane.old.spare ≤ lane.new.spare + 2 }
{
    take_in(words, lane, carrier);
    begin(words, lane, effects);
    ran(words, lane);
}

/// A main in a fence learns what another main knows: rows, and the fence's receipt.
pub fn share<A: Facts>(words: &Words<A>, from: &mut Lane, to: &mut Lane, fence: u32, pass: u64)
    requires from { from.old.table ≡ words.now.table }
    requires to { IsInside words.now fence pass to.old }
    ensures from { from.new ≡ from.old }
    ensures inside { IsInside words.now fence pass to.new }
    ensures lane { to.new ≡ record to.old { seen = to.new.seen } }
    ensures learnt { (f p q : ℕ) (row : RowData) → HasRow f p q row from.old.seen → HasRow f p q row to.new.seen }
    ensures knew { (f p q : ℕ) (row : RowData) → HasRow f p q row to.old.seen → HasRow f p q row to.new.seen }
    ensures receipt { has_receipt fence from.old.seen ≡ true → has_receipt fence to.new.seen ≡ true }
{
    let told = tell(words, from);
    learn(words, to, told);
}
