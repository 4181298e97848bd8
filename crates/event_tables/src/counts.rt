//! How many events of each kind each rank has.
ghost use Rattle.std.specs.Prelude.{◌≡◌, ℕ, ◌<◌, List, ◌∷◌, length, true, Some, OnOk};
ghost use Rattle.event_lists.specs.declared.kind.Kind.{Kind as KindData};
ghost use Rattle.event_lists.specs.declared.mark.Mark.{Mark as MarkData};
ghost use Rattle.event_lists.specs.Legal.{Legal};
ghost use Rattle.event_rules.specs.Listed.{on};
ghost use Rattle.event_tables.specs.declared.keys.CountName.{CountName as CountNameData};
ghost use Rattle.event_tables.specs.Keys.{same_count};
ghost use Rattle.event_tables.specs.Tables.{value_at, has_place};
ghost use Rattle.event_tables.specs.Contents.{KeepsCounts, max_events};
ghost use Rattle.event_tables.specs.Touched.{kind_of};

use crate::keys::CountName;
use crate::table::Table;
use app_core::OutOfMemory;
use event_lists::{Event, Kind, LaneName};

/// The kind that an event is counted as.
fn kind_of(event: &Event) -> Option<Kind>
    ensures { result ≡ kind_of event.now }
{
    match event {
        Event::Sent { .. } => Some(Kind::Sends),
        Event::Handled { .. } => Some(Kind::Handlings),
        Event::Submitted { .. } => Some(Kind::Submissions),
        Event::Ran { .. } => Some(Kind::Runs),
        _ => None,
    }
}

/// Makes room for the count that an event raises.
pub fn room(
    counts: &mut Table<CountName, u64>,
    lane: LaneName,
    event: &Event,
) -> Result<(), OutOfMemory>
    ensures values { (c : CountNameData) → value_at same_count counts.new c ≡ value_at same_count counts.old c }
    ensures place { OnOk result ((k : KindData) → kind_of event.now ≡ Some k → has_place same_count counts.new (record { rank = lane.rank; kind = k }) ≡ true) }
{
    match kind_of(event) {
        Some(kind) => counts.touch(CountName {
            rank: lane.rank,
            kind,
        }),
        None => Ok(()),
    }
}

/// Counts an event, for whose count there is room.
pub fn note(counts: &mut Table<CountName, u64>, lane: LaneName, event: &Event)
    requires place { (k : KindData) → kind_of event.now ≡ Some k → has_place same_count counts.old (record { rank = lane.rank; kind = k }) ≡ true }
    ensures { (log : List MarkData) → length log < max_events → KeepsCounts log counts.old → KeepsCounts (on lane event.now ∷ log) counts.new }
{
    if let Some(kind) = kind_of(event) {
        let name = CountName {
            rank: lane.rank,
            kind,
        };
        let count = counts.get(name);
        counts.set(name, count.saturating_add(1));
    }
}
