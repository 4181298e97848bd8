//! Which entries are put on the lanes of bins.
ghost use Rattle.std.specs.Prelude.{◌≡◌, List, ◌∷◌, true, Some, OnOk};
ghost use Rattle.event_lists.specs.declared.mark.Mark.{Mark as MarkData};
ghost use Rattle.event_rules.specs.Listed.{on};
ghost use Rattle.event_tables.specs.declared.keys.EntryName.{EntryName as EntryNameData};
ghost use Rattle.event_tables.specs.Keys.{same_entry};
ghost use Rattle.event_tables.specs.Tables.{value_at, has_place};
ghost use Rattle.event_tables.specs.Contents.{KeepsPuts};
ghost use Rattle.event_tables.specs.Touched.{entry_of};

use crate::keys::EntryName;
use crate::table::Table;
use app_core::OutOfMemory;
use event_lists::{Event, LaneName};

/// The entry that an event puts or erases.
fn entry_of(lane: LaneName, event: &Event) -> Option<EntryName>
    ensures { result ≡ entry_of lane event.now }
{
    match *event {
        Event::Put(name) | Event::Erased(name) => Some(EntryName { lane, name }),
        _ => None,
    }
}

/// Makes room for the entry that an event puts or erases.
pub fn room(
    puts: &mut Table<EntryName, bool>,
    lane: LaneName,
    event: &Event,
) -> Result<(), OutOfMemory>
    ensures values { (e : EntryNameData) → value_at same_entry puts.new e ≡ value_at same_entry puts.old e }
    ensures place { OnOk result ((e : EntryNameData) → entry_of lane event.now ≡ Some e → has_place same_entry puts.new e ≡ true) }
{
    match entry_of(lane, event) {
        Some(entry) => puts.touch(entry),
        None => Ok(()),
    }
}

/// Notes what an event puts or erases, for which there is room.
pub fn note(puts: &mut Table<EntryName, bool>, lane: LaneName, event: &Event)
    requires place { (e : EntryNameData) → entry_of lane event.now ≡ Some e → has_place same_entry puts.old e ≡ true }
    ensures { (log : List MarkData) → KeepsPuts log puts.old → KeepsPuts (on lane event.now ∷ log) puts.new }
{
    if let Some(entry) = entry_of(lane, event) {
        puts.set(entry, matches!(event, Event::Put(_)));
    }
}
