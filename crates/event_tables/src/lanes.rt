//! The state of each lane.
ghost use Rattle.std.specs.Prelude.{◌≡◌, ℕ, ◌<◌, List, ◌∷◌, length, true, OnOk};
ghost use Rattle.event_lists.specs.declared.event.Event.{Event as EventData};
ghost use Rattle.event_lists.specs.declared.lane.LaneName.{LaneName as LaneNameData};
ghost use Rattle.event_lists.specs.declared.mark.Mark.{Mark as MarkData};
ghost use Rattle.event_lists.specs.Events.{same_lane, hand_after};
ghost use Rattle.event_lists.specs.Fences.{fence_in, enters, readings, passes};
ghost use Rattle.event_lists.specs.Legal.{Legal};
ghost use Rattle.event_rules.specs.Listed.{on};
ghost use Rattle.event_rules.specs.Shown.{ShowsLane};
ghost use Rattle.event_tables.specs.Lanes.{own_after, passes_own, keeps_after, fresh_after, AreLast, IsDueTaken};
ghost use Rattle.event_tables.specs.Tables.{value_at, has_place};
ghost use Rattle.event_tables.specs.Contents.{KeepsLanes, KeepsItems, max_events};

use crate::table::Table;
use app_core::OutOfMemory;
use event_lists::{Event, Future, Item, Kind, LaneName, Reading};
use event_rules::{LaneState, Made, Recent, events};

const NOTHING_READ: Recent = Recent {
    first: None,
    second: None,
    third: None,
};

/// The state of a lane after an event on it. `due` is that of the message or task which the event takes.
pub fn after(state: &LaneState, event: &Event, due: Option<Future>) -> LaneState
    ensures { (ranks workers : ℕ) (log : List MarkData) (lane : LaneNameData) → Legal ranks workers (on lane event.now ∷ log) → length log < max_events
        → IsDueTaken event.now due log → ShowsLane log lane state.now → ShowsLane (on lane event.now ∷ log) lane result }
{
    LaneState {
        hand: hand_after(state.hand, event),
        own: own_after(state.own, event, due),
        keeps: keeps_after(state.keeps, state.own, event),
        fresh: fresh_after(state.fresh, event),
        fence: fence_after(state.fence, event),
        entered: entered_after(state.entered, event),
        passes: passes_after(state.passes, event),
        recent: recent_after(&state.recent, event),
    }
}

// What is in hand after an event.
fn hand_after(hand: Option<Item>, event: &Event) -> Option<Item>
    ensures { result ≡ hand_after event.now hand }
{
    match event {
        Event::TookMessage { .. } | Event::TookTask { .. } => events::takes(event),
        Event::Handled { .. } | Event::Ran { .. } => None,
        _ => hand,
    }
}

// The due of what is in hand after an event.
fn own_after(own: Option<Future>, event: &Event, due: Option<Future>) -> Option<Future>
    ensures { result ≡ own_after event.now own due }
{
    match event {
        Event::TookMessage { .. } | Event::TookTask { .. } => due,
        Event::Handled { .. } | Event::Ran { .. } => None,
        _ => own,
    }
}

// Whether a task in hand has not passed its due on after an event.
fn keeps_after(keeps: bool, own: Option<Future>, event: &Event) -> bool
    ensures { result ≡ keeps_after event.now own keeps }
{
    match event {
        Event::TookTask { .. } => true,
        _ => !passes_own(own, event) && keeps,
    }
}

// Whether an event gives, sends or spawns on the due of what is in hand.
fn passes_own(own: Option<Future>, event: &Event) -> bool
    ensures { result ≡ passes_own own event.now }
{
    match own {
        Some(future) => events::passes_on(future.label, event),
        None => false,
    }
}

// Whether nothing was submitted or given for a message in hand after an event.
fn fresh_after(fresh: bool, event: &Event) -> bool
    ensures { result ≡ fresh_after event.now fresh }
{
    match event {
        Event::TookMessage { .. } => true,
        Event::Submitted { .. } | Event::Gave(_) => false,
        _ => fresh,
    }
}

// The fence that a main is in after an event.
fn fence_after(fence: Option<u32>, event: &Event) -> Option<u32>
    ensures { (mine : List EventData) → fence ≡ fence_in mine → result ≡ fence_in (event.now ∷ mine) }
{
    match event {
        Event::Enter(fence) => Some(*fence),
        Event::Leave(_) => None,
        _ => fence,
    }
}

// How many fences a main entered after an event.
fn entered_after(entered: u64, event: &Event) -> u64
    ensures { (mine : List EventData) → enters mine < max_events → entered ≡ enters mine → result ≡ enters (event.now ∷ mine) }
{
    match event {
        Event::Enter(_) => entered.saturating_add(1),
        _ => entered,
    }
}

// How many passes a main completed in its last fence after an event.
fn passes_after(passed: u64, event: &Event) -> u64
    ensures { (mine : List EventData) → passes (readings mine) < max_events → passed ≡ passes (readings mine) → result ≡ passes (readings (event.now ∷ mine)) }
{
    match event {
        Event::Enter(_) => 0,
        Event::ReadSent { .. } => passed.saturating_add(1),
        _ => passed,
    }
}

// The last three readings of a main in its last fence after an event.
fn recent_after(recent: &Recent, event: &Event) -> Recent
    ensures { (mine : List EventData) → AreLast (readings mine) recent.now → AreLast (readings (event.now ∷ mine)) result }
{
    let (kind, found, fence, pass) = match event {
        Event::ReadHandled { value, fence, pass } => (Kind::Handlings, *value, *fence, *pass),
        Event::ReadRan { value, fence, pass } => (Kind::Runs, *value, *fence, *pass),
        Event::ReadSubmitted { value, fence, pass } => (Kind::Submissions, *value, *fence, *pass),
        Event::ReadSent { value, fence, pass } => (Kind::Sends, *value, *fence, *pass),
        Event::Enter(_) => return NOTHING_READ,
        _ => return *recent,
    };
    let reading = Reading {
        kind,
        found,
        fence,
        pass,
    };
    Recent {
        first: Some(reading),
        second: recent.first,
        third: recent.second,
    }
}

// The due of the message or task that an event takes.
fn due_taken(items: &Table<Item, Option<Made>>, event: &Event) -> Option<Future>
    ensures { (log : List MarkData) → KeepsItems log items.now → IsDueTaken event.now result log }
{
    let item = events::takes(event)?;
    match items.get(item) {
        Some(made) => made.due,
        None => None,
    }
}

/// Makes room for the state of a lane.
pub fn room(lanes: &mut Table<LaneName, LaneState>, lane: LaneName) -> Result<(), OutOfMemory>
    ensures values { (l : LaneNameData) → value_at same_lane lanes.new l ≡ value_at same_lane lanes.old l }
    ensures place { OnOk result (has_place same_lane lanes.new lane ≡ true) }
{
    lanes.touch(lane)
}

/// Notes an event on its lane, for which there is room. The items are those before the event.
pub fn note(
    lanes: &mut Table<LaneName, LaneState>,
    items: &Table<Item, Option<Made>>,
    lane: LaneName,
    event: &Event,
)
    requires place { has_place same_lane lanes.old lane ≡ true }
    ensures { (ranks workers : ℕ) (log : List MarkData) → Legal ranks workers (on lane event.now ∷ log) → length log < max_events
        → KeepsItems log items.now → KeepsLanes log lanes.old → KeepsLanes (on lane event.now ∷ log) lanes.new }
{
    let due = due_taken(items, event);
    let state = lanes.get(lane);
    lanes.set(lane, after(&state, event, due));
}
