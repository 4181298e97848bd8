//! What was done with each future.
ghost use Rattle.std.specs.Prelude.{◌≡◌, List, [], ◌∷◌, OnOk, Bool, true, false, if◌then◌else◌};
ghost use Rattle.event_lists.specs.declared.mark.Mark.{Mark as MarkData};
ghost use Rattle.event_lists.specs.Futures.{same_future, is_future, bringer as bringer_of, spawned_needs as needs_spawned};
ghost use Rattle.event_rules.specs.Listed.{on};
ghost use Rattle.event_rules.specs.Shown.{ShowsLane};
ghost use Rattle.event_tables.specs.Tables.{value_at, has_place};
ghost use Rattle.event_tables.specs.Futures.{is_due_of, is_need_of, with_more, Notes, HasRoom, HasRoomFor};
ghost use Rattle.event_tables.specs.Contents.{KeepsFutures};

use crate::table::Table;
use app_core::{Label, Needs, OutOfMemory};
use event_lists::{Bringer, Event, Future, LaneName};
use event_rules::events::{bringer, given, spawned_due, spawned_needs};
use event_rules::{Found, LaneState};
use std::alloc::Global;

const DUE: Found = Found {
    due: true,
    needed: false,
    given: false,
};

const NEEDED: Found = Found {
    due: false,
    needed: true,
    given: false,
};

const GIVEN: Found = Found {
    due: false,
    needed: false,
    given: true,
};

const NOTHING: Found = Found {
    due: false,
    needed: false,
    given: false,
};

/// What was done with futures in a list without events: nothing.
pub fn empty(alloc: Global) -> Table<Future, Found>
    ensures { KeepsFutures [] result }
{
    Table::new(alloc, NOTHING)
}

/// Makes room to note an event on a lane in this state.
pub fn room(
    futures: &mut Table<Future, Found>,
    state: &LaneState,
    lane: LaneName,
    event: &Event,
) -> Result<(), OutOfMemory>
    ensures values { (f : Future) → value_at same_future futures.new f ≡ value_at same_future futures.old f }
    ensures places { (f : Future) → has_place same_future futures.old f ≡ true → has_place same_future futures.new f ≡ true }
    ensures room { OnOk result (HasRoomFor futures.new lane.rank state.now event.now) }
{
    let by = bringer(lane.rank, state.hand);
    room_for_due(futures, by, spawned_due(event))?;
    room_for_needs(futures, by, &spawned_needs(event))?;
    room_for(futures, given(state.own, event))
}

// Makes room for the future of a due.
fn room_for_due(
    futures: &mut Table<Future, Found>,
    by: Option<Bringer>,
    due: Option<Label>,
) -> Result<(), OutOfMemory>
    ensures values { (f : Future) → value_at same_future futures.new f ≡ value_at same_future futures.old f }
    ensures places { (f : Future) → has_place same_future futures.old f ≡ true → has_place same_future futures.new f ≡ true }
    ensures room { OnOk result (HasRoom futures.new (is_due_of by due)) }
{
    match (by, due) {
        (Some(by), Some(label)) => futures.touch(Future { by, label }),
        _ => Ok(()),
    }
}

// Makes room for the futures of needs.
fn room_for_needs(
    futures: &mut Table<Future, Found>,
    by: Option<Bringer>,
    needs: &Needs,
) -> Result<(), OutOfMemory>
    ensures values { (f : Future) → value_at same_future futures.new f ≡ value_at same_future futures.old f }
    ensures places { (f : Future) → has_place same_future futures.old f ≡ true → has_place same_future futures.new f ≡ true }
    ensures room { OnOk result (HasRoom futures.new (is_need_of by needs.now)) }
{
    let Some(by) = by else {
        return Ok(());
    };
    for label in needs.labels() {
        futures.touch(Future { by, label: *label })?;
    }
    Ok(())
}

// Makes room for a future.
fn room_for(futures: &mut Table<Future, Found>, future: Option<Future>) -> Result<(), OutOfMemory>
    ensures values { (f : Future) → value_at same_future futures.new f ≡ value_at same_future futures.old f }
    ensures places { (f : Future) → has_place same_future futures.old f ≡ true → has_place same_future futures.new f ≡ true }
    ensures room { OnOk result (HasRoom futures.new (λ f. is_future f future)) }
{
    match future {
        Some(future) => futures.touch(future),
        None => Ok(()),
    }
}

/// Notes an event, for which there is room, on a lane that was in this state before.
pub fn note(futures: &mut Table<Future, Found>, state: &LaneState, lane: LaneName, event: &Event)
    requires room { HasRoomFor futures.old lane.rank state.now event.now }
    ensures { (log : List MarkData) → ShowsLane log lane state.now → KeepsFutures log futures.old → KeepsFutures (on lane event.now ∷ log) futures.new }
{
    let by = bringer(lane.rank, state.hand);
    note_due(futures, by, spawned_due(event));
    note_needs(futures, by, &spawned_needs(event));
    note_given(futures, given(state.own, event));
}

// Notes the future of a due.
fn note_due(futures: &mut Table<Future, Found>, by: Option<Bringer>, due: Option<Label>)
    requires room { HasRoom futures.old (is_due_of by due) }
    ensures values { Notes (is_due_of by due) (λ f. false) (λ f. false) futures.old futures.new }
    ensures places { (f : Future) → has_place same_future futures.old f ≡ true → has_place same_future futures.new f ≡ true }
{
    if let (Some(by), Some(label)) = (by, due) {
        add(futures, Future { by, label }, DUE);
    }
}

// Notes the futures of needs.
fn note_needs(futures: &mut Table<Future, Found>, by: Option<Bringer>, needs: &Needs)
    requires room { HasRoom futures.old (is_need_of by needs.now) }
    ensures values { Notes (λ f. false) (is_need_of by needs.now) (λ f. false) futures.old futures.new }
    ensures places { (f : Future) → has_place same_future futures.old f ≡ true → has_place same_future futures.new f ≡ true }
{
    let Some(by) = by else {
        return;
    };
    for label in needs.labels() {
        add(futures, Future { by, label: *label }, NEEDED);
    }
}

// Notes a future that is given.
fn note_given(futures: &mut Table<Future, Found>, future: Option<Future>)
    requires room { HasRoom futures.old (λ f. is_future f future) }
    ensures { Notes (λ f. false) (λ f. false) (λ f. is_future f future) futures.old futures.new }
{
    if let Some(future) = future {
        add(futures, future, GIVEN);
    }
}

// Adds to what was found of a future.
fn add(futures: &mut Table<Future, Found>, future: Future, more: Found)
    requires room { has_place same_future futures.old future ≡ true }
    ensures values { (f : Future) → value_at same_future futures.new f ≡
        (if same_future f future then with_more (value_at same_future futures.old f) more.due more.needed more.given else value_at same_future futures.old f) }
    ensures places { (f : Future) → has_place same_future futures.old f ≡ true → has_place same_future futures.new f ≡ true }
{
    let found = futures.get(future);
    futures.set(future, joined(found, more));
}

// What was found, and more.
fn joined(found: Found, more: Found) -> Found
    ensures { result ≡ with_more found more.due more.needed more.given }
{
    Found {
        due: more.due || found.due,
        needed: more.needed || found.needed,
        given: more.given || found.given,
    }
}
