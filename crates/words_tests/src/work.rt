//! The turns of mains between two attempts of a fence: units are started, taken, submitted and run.
ghost use Rattle.std.specs.Prelude.{◌≡◌, ◌≢◌, ◌+◌, ◌<◌, ◌≤◌, suc, false, None, Some, [], slice_get};
ghost use Rattle.app_core.specs.declared.outline.Outline.TheVariants.{Spawn};
ghost use Rattle.event_lists.specs.Events.{Begins};
ghost use Rattle.event_lists.specs.Fences.{enters};
ghost use Rattle.event_lists.specs.OwnEvents.{has_receipt_on_lane};
ghost use Rattle.event_laws.specs.Follows.{Start, program_at, deeds};
ghost use Rattle.words_tests.specs.Turns.{IsOutside, IsInside, HasRow, AreOutside, WaitNext, HaveDone, BringsUnit, BringsTask};
ghost use Rattle.event_lists.specs.declared.receipt.Row.{Row as RowData};
ghost use Rattle.words_tests.specs.declared.turns.ThreeRows.{ThreeRows as ThreeRowsData};

use crate::turns::{ThreeRows, attempt, enter, finish_fence, tell_all};
use app_core::{App, Effects, Facts, Label};
use event_lists::{Parcel, Row};
use world_words::{Carrier, Lane, Words};

/// A main that is in no fence starts a unit at another rank.
pub fn start_unit<A: Facts>(words: &Words<A>, lane: &mut Lane, to: u32, unit: Label) -> Carrier
    requires outside { IsOutside words.now (enters lane.old.mine) lane.old }
    requires room { 0 < lane.old.spare }
    requires target { (to < words.now.ranks) × (to ≢ lane.old.name.rank) }
    requires next { slice_get (program_at lane.old.name.rank words.now.program) (deeds lane.old.mine) ≡ Some (Start (Spawn unit None [] to)) }
    ensures outside { IsOutside words.now (enters lane.old.mine) lane.new }
    ensures entered { enters lane.new.mine ≡ enters lane.old.mine }
    ensures done { deeds lane.new.mine ≡ suc (deeds lane.old.mine) }
    ensures name { lane.new.name ≡ lane.old.name }
    ensures carrier { BringsUnit words.now to unit result }
    ensures room { lane.old.spare ≤ lane.new.spare + 1 }
{
    words.sent(lane, to, Parcel::Unit { unit, due: None });
    words.pack(lane)
}

/// A main in a fence takes a unit that a message brought, and submits it.
pub fn serve_unit<A: Facts>(
    words: &Words<A>,
    lane: &mut Lane,
    carrier: Carrier,
    unit: Label,
    fence: u32,
    pass: u64,
) -> Carrier
    requires inside { IsInside words.now fence pass lane.old }
    requires room { 2 < lane.old.spare }
    requires carrier { BringsUnit words.now lane.old.name.rank unit carrier }
    ensures inside { IsInside words.now fence pass lane.new }
    ensures open { has_receipt_on_lane fence lane.old.mine ≡ false → has_receipt_on_lane fence lane.new.mine ≡ false }
    ensures done { deeds lane.new.mine ≡ deeds lane.old.mine }
    ensures name { lane.new.name ≡ lane.old.name }
    ensures knows { Begins lane.old.seen lane.new.seen }
    ensures carrier { BringsTask words.now lane.old.name.rank unit result }
    ensures room { lane.old.spare ≤ lane.new.spare + 3 }
{
    words.take_in(lane, carrier);
    words.submitted(lane, unit, &[], None);
    let task = words.pack(lane);
    words.handled(lane);
    task
}

/// A main in a fence takes a task without effects, and runs it.
pub fn run_unit<A: App>(
    words: &Words<A>,
    lane: &mut Lane,
    carrier: Carrier,
    unit: Label,
    effects: &Effects<A::Unit, A::Value, A::Cell>,
    fence: u32,
    pass: u64,
)
    requires inside { IsInside words.now fence pass lane.old }
    requires room { 1 < lane.old.spare }
    requires carrier { BringsTask words.now lane.old.name.rank unit carrier }
    requires effects { effects.now ≡ [] }
    requires may { A.may_do words.now.app unit [] }
    ensures inside { IsInside words.now fence pass lane.new }
    ensures open { has_receipt_on_lane fence lane.old.mine ≡ false → has_receipt_on_lane fence lane.new.mine ≡ false }
    ensures done { deeds lane.new.mine ≡ deeds lane.old.mine }
    ensures name { lane.new.name ≡ lane.old.name }
    ensures knows { Begins lane.old.seen lane.new.seen }
    ensures room { lane.old.spare ≤ lane.new.spare + 2 }
{
    words.take_in(lane, carrier);
    words.begin(lane, effects);
    words.ran(lane);
}

/// A main in a fence takes a unit, submits it, and opens an attempt of the first pass, which fails: the task is still to
/// run. After it ran the main opens the attempt again. The row that it then finds; none where the first attempt didn't fail,
/// or the second did.
pub fn read_after_work<A: App>(
    words: &Words<A>,
    lane: &mut Lane,
    carrier: Carrier,
    unit: Label,
    effects: &Effects<A::Unit, A::Value, A::Cell>,
    fence: u32,
) -> Option<Row>
    requires inside { IsInside words.now fence 1 lane.old }
    requires room { 12 < lane.old.spare }
    requires carrier { BringsUnit words.now lane.old.name.rank unit carrier }
    requires effects { effects.now ≡ [] }
    requires may { A.may_do words.now.app unit [] }
    ensures inside { (row : RowData) → result ≡ Some row → IsInside words.now fence 2 lane.new }
    ensures row { (row : RowData) → result ≡ Some row → HasRow fence 1 lane.new.name.rank row lane.new.seen }
    ensures done { deeds lane.new.mine ≡ deeds lane.old.mine }
    ensures name { lane.new.name ≡ lane.old.name }
    ensures room { lane.old.spare ≤ lane.new.spare + 13 }
{
    let task = serve_unit(words, lane, carrier, unit, fence, 1);
    if attempt(words, lane, fence, 1).is_some() {
        return None;
    }
    run_unit(words, lane, task, unit, effects, fence, 1);
    attempt(words, lane, fence, 1)
}

/// The three mains go through their next fence, while each of ranks 1 and 2 takes a unit, and reads its counts with the
/// task still to run and once more after it. The rows of the second pass, where it finds those of the first.
pub fn pass_working_fence<A: App>(
    words: &Words<A>,
    zero: &mut Lane,
    one: &mut Lane,
    two: &mut Lane,
    carriers: (Carrier, Carrier),
    units: (Label, Label),
    effects: &Effects<A::Unit, A::Value, A::Cell>,
    left: u32,
) -> Option<ThreeRows>
    requires few { left < 100 }
    requires outside { AreOutside words.now left zero.old one.old two.old }
    requires room { (11 ≤ zero.old.spare) × (19 ≤ one.old.spare) × (19 ≤ two.old.spare) }
    requires next { WaitNext words.now zero.old one.old two.old }
    requires first { BringsUnit words.now one.old.name.rank units.0 carriers.0 }
    requires second { BringsUnit words.now two.old.name.rank units.1 carriers.1 }
    requires effects { effects.now ≡ [] }
    requires may { A.may_do words.now.app units.0 [] × A.may_do words.now.app units.1 [] }
    ensures outside { (rows : ThreeRowsData) → result ≡ Some rows → AreOutside words.now (left + 1) zero.new one.new two.new }
    ensures done { (rows : ThreeRowsData) → result ≡ Some rows → HaveDone 1 zero.old one.old two.old zero.new one.new two.new }
    ensures room { (zero.old.spare ≤ zero.new.spare + 11) × (one.old.spare ≤ one.new.spare + 19) × (two.old.spare ≤ two.new.spare + 19) }
{
    let fence = left + 1;
    let (to_one, to_two) = carriers;
    enter(words, zero, left);
    enter(words, one, left);
    enter(words, two, left);
    let Some(first) = attempt(words, zero, fence, 1) else {
        return None;
    };
    let Some(second) = read_after_work(words, one, to_one, units.0, effects, fence) else {
        return None;
    };
    let Some(third) = read_after_work(words, two, to_two, units.1, effects, fence) else {
        return None;
    };
    let rows = ThreeRows {
        zero: first,
        one: second,
        two: third,
    };
    tell_all(words, zero, one, two, fence, 1, &rows);
    if finish_fence(words, zero, one, two, fence, &rows) {
        Some(rows)
    } else {
        None
    }
}
