//! How many labels that each bringer needs aren't the due of a spawn of it.
ghost use Rattle.std.specs.Prelude.{◌≡◌, ℕ, ◌<◌, ◌≤◌, List, [], ◌∷◌, length, OnOk, Bool, true, IsFalse, ◌↔◌};
ghost use Rattle.event_lists.specs.declared.mark.Mark.{Mark as MarkData};
ghost use Rattle.event_lists.specs.Futures.{same_bringer};
ghost use Rattle.event_lists.specs.Dues.{NeedsAreDues};
ghost use Rattle.event_lists.specs.Legal.{Legal};
ghost use Rattle.event_rules.specs.Listed.{on};
ghost use Rattle.event_rules.specs.Shown.{ShowsLane};
ghost use Rattle.event_tables.specs.Tables.{value_at, has_place};
ghost use Rattle.event_tables.specs.Lacking.{KeepsLacks, HasSpawner, meets, lacked, is_lacked};
ghost use Rattle.event_tables.specs.Contents.{KeepsFutures, max_events};

use crate::spawns::spawner;
use crate::table::Table;
use app_core::{Label, Needs, OutOfMemory};
use event_lists::{Bringer, Event, Future, LaneName};
use event_rules::events::{spawned_due, spawned_needs};
use event_rules::{Found, LaneState};
use std::alloc::Global;

/// The numbers for a list without events.
pub fn empty(alloc: Global) -> Table<Bringer, u64>
    ensures { KeepsLacks [] result }
{
    Table::new(alloc, 0)
}

/// Whether a label that a spawn of this bringer needed isn't the due of a spawn of it.
pub fn lacks_dues(lacking: &Table<Bringer, u64>, by: Bringer) -> bool
    ensures { (log : List MarkData) → KeepsLacks log lacking.now → (IsFalse result ↔ NeedsAreDues by log) }
{
    lacking.get(by) > 0
}

/// Makes room to note an event on a lane in this state.
pub fn room(
    lacking: &mut Table<Bringer, u64>,
    state: &LaneState,
    lane: LaneName,
    event: &Event,
) -> Result<(), OutOfMemory>
    ensures values { (b : Bringer) → value_at same_bringer lacking.new b ≡ value_at same_bringer lacking.old b }
    ensures places { (b : Bringer) → has_place same_bringer lacking.old b ≡ true → has_place same_bringer lacking.new b ≡ true }
    ensures room { OnOk result (HasSpawner lacking.new lane.rank state.now event.now) }
{
    match spawner(lane.rank, state.hand, event) {
        Some(by) => lacking.touch(by),
        None => Ok(()),
    }
}

/// Notes an event, for which there is room, on a lane that was in this state before. The futures are those before the
/// event.
pub fn note(
    lacking: &mut Table<Bringer, u64>,
    futures: &Table<Future, Found>,
    state: &LaneState,
    lane: LaneName,
    event: &Event,
)
    requires room { HasSpawner lacking.old lane.rank state.now event.now }
    ensures { (ranks workers : ℕ) (log : List MarkData) → Legal ranks workers (on lane event.now ∷ log) → length log < max_events
        → ShowsLane log lane state.now → KeepsFutures log futures.now → KeepsLacks log lacking.old → KeepsLacks (on lane event.now ∷ log) lacking.new }
{
    let Some(by) = spawner(lane.rank, state.hand, event) else {
        return;
    };
    let due = spawned_due(event);
    let met = u64::from(meets_need(futures, by, due));
    let more = lacked_of(futures, by, due, &spawned_needs(event));
    let count = lacking.get(by);
    lacking.set(by, count.saturating_sub(met).saturating_add(more));
}

// Whether a due of this bringer was needed and wasn't a due before.
fn meets_need(futures: &Table<Future, Found>, by: Bringer, due: Option<Label>) -> bool
    ensures { result ≡ meets futures.now by due }
{
    match due {
        Some(label) => {
            let found = futures.get(Future { by, label });
            found.needed && !found.due
        }
        None => false,
    }
}

// How many needs of this bringer are neither this due nor a due before: at most 16.
fn lacked_of(futures: &Table<Future, Found>, by: Bringer, due: Option<Label>, needs: &Needs) -> u64
    ensures count { result ≡ lacked futures.now by due needs.now }
    ensures within { result ≤ 16 }
{
    // There are at most 16 needs.
    let _ = needs.len();
    let mut count = 0;
    for label in needs.labels() {
        if lacks(futures, by, due, *label) {
            count += 1;
        }
    }
    count
}

// Whether a label is neither this due nor a due of this bringer before.
fn lacks(futures: &Table<Future, Found>, by: Bringer, due: Option<Label>, label: Label) -> bool
    ensures { result ≡ is_lacked futures.now by due label }
{
    due != Some(label) && !futures.get(Future { by, label }).due
}
