//! The messages that were sent and the tasks that were submitted.
ghost use Rattle.std.specs.Prelude.{◌≡◌, ℕ, List, ◌∷◌, true, false, Some, None, OnOk};
ghost use Rattle.event_lists.specs.declared.mark.Item.{Item as ItemData};
ghost use Rattle.event_lists.specs.declared.mark.Mark.{Mark as MarkData};
ghost use Rattle.event_lists.specs.Events.{same_item};
ghost use Rattle.event_lists.specs.Futures.{bringer as bringer_of, due_made as made_due};
ghost use Rattle.event_lists.specs.Legal.{Legal};
ghost use Rattle.event_rules.specs.declared.values.Load.{Load as LoadData};
ghost use Rattle.event_rules.specs.Listed.{on};
ghost use Rattle.event_rules.specs.Shown.{load_made as made_load, ShowsLane};
ghost use Rattle.event_tables.specs.Items.{item_of, taken_once};
ghost use Rattle.event_tables.specs.Tables.{value_at, has_place};
ghost use Rattle.event_tables.specs.Contents.{KeepsItems};

use crate::table::Table;
use app_core::OutOfMemory;
use event_lists::{Event, Item, LaneName};
use event_rules::{LaneState, Made, events};

// The message or task that an event on a lane of this rank makes or takes.
fn item_of(rank: u32, event: &Event) -> Option<Item>
    ensures { result ≡ item_of rank event.now }
{
    match events::makes(rank, event) {
        Some(item) => Some(item),
        None => events::takes(event),
    }
}

// What was made, once it is taken.
fn taken_once(made: Option<Made>) -> Option<Made>
    ensures { result ≡ taken_once made }
{
    match made {
        Some(made) => Some(Made {
            taken: true,
            ..made
        }),
        None => None,
    }
}

// What is known of a message or task after an event that makes or takes it. `state` is that of the event's lane, which
// is of this rank.
fn made_after(made: Option<Made>, state: &LaneState, rank: u32, event: &Event) -> Option<Made>
    ensures made { (d : LoadData) → made_load event.now ≡ Some d
        → result ≡ Some (record { load = d; by = bringer_of rank state.now.hand; due = made_due rank state.now.hand state.now.own event.now; taken = false }) }
    ensures taken { made_load event.now ≡ None → result ≡ taken_once made }
{
    match events::load_made(event) {
        Some(load) => Some(Made {
            load,
            by: events::bringer(rank, state.hand),
            due: events::due_made(rank, state.hand, state.own, event),
            taken: false,
        }),
        None => taken_once(made),
    }
}

/// Makes room for the message or task that an event makes or takes.
pub fn room(
    items: &mut Table<Item, Option<Made>>,
    lane: LaneName,
    event: &Event,
) -> Result<(), OutOfMemory>
    ensures values { (c : ItemData) → value_at same_item items.new c ≡ value_at same_item items.old c }
    ensures place { OnOk result ((c : ItemData) → item_of lane.rank event.now ≡ Some c → has_place same_item items.new c ≡ true) }
{
    match item_of(lane.rank, event) {
        Some(item) => items.touch(item),
        None => Ok(()),
    }
}

/// Notes the message or task that an event makes or takes, for which there is room. `state` is that of the event's
/// lane before the event.
pub fn note(items: &mut Table<Item, Option<Made>>, state: &LaneState, lane: LaneName, event: &Event)
    requires place { (c : ItemData) → item_of lane.rank event.now ≡ Some c → has_place same_item items.old c ≡ true }
    ensures { (ranks workers : ℕ) (log : List MarkData) → Legal ranks workers (on lane event.now ∷ log) → ShowsLane log lane state.now
        → KeepsItems log items.old → KeepsItems (on lane event.now ∷ log) items.new }
{
    if let Some(item) = item_of(lane.rank, event) {
        let made = items.get(item);
        items.set(item, made_after(made, state, lane.rank, event));
    }
}
