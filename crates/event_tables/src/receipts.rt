//! The rows of passes, and the fences that have a receipt.
ghost use Rattle.std.specs.Prelude.{◌≡◌, ◌==◌, ℕ, List, ◌∷◌, true, Some, OnOk};
ghost use Rattle.event_lists.specs.declared.lane.LaneName.{LaneName as LaneNameData};
ghost use Rattle.event_lists.specs.declared.mark.Mark.{Mark as MarkData};
ghost use Rattle.event_lists.specs.Legal.{Legal};
ghost use Rattle.event_rules.specs.Listed.{on};
ghost use Rattle.event_rules.specs.Shown.{ShowsLane};
ghost use Rattle.event_tables.specs.declared.keys.PassName.{PassName as PassNameData};
ghost use Rattle.event_tables.specs.Keys.{same_pass};
ghost use Rattle.event_tables.specs.Tables.{value_at, has_place};
ghost use Rattle.event_tables.specs.Contents.{KeepsRows, KeepsReceipts};
ghost use Rattle.event_tables.specs.Touched.{pass_of, received_of};

use crate::keys::PassName;
use crate::table::Table;
use app_core::OutOfMemory;
use event_lists::{Event, LaneName, Row};
use event_rules::LaneState;

/// The pass that an event completes.
fn pass_of(lane: LaneName, event: &Event) -> Option<PassName>
    ensures { result ≡ pass_of lane event.now }
{
    match *event {
        Event::ReadSent {
            value: _,
            fence,
            pass,
        } => Some(PassName {
            rank: lane.rank,
            fence,
            pass,
        }),
        _ => None,
    }
}

/// Makes room for the row of the pass that an event completes.
pub fn room_for_row(
    rows: &mut Table<PassName, Option<Row>>,
    lane: LaneName,
    event: &Event,
) -> Result<(), OutOfMemory>
    ensures values { (p : PassNameData) → value_at same_pass rows.new p ≡ value_at same_pass rows.old p }
    ensures place { OnOk result ((p : PassNameData) → pass_of lane event.now ≡ Some p → has_place same_pass rows.new p ≡ true) }
{
    match pass_of(lane, event) {
        Some(pass) => rows.touch(pass),
        None => Ok(()),
    }
}

/// Notes the row of the pass that an event completes, for which there is room.
pub fn note_row(
    rows: &mut Table<PassName, Option<Row>>,
    state: &LaneState,
    lane: LaneName,
    event: &Event,
)
    requires place { (p : PassNameData) → pass_of lane event.now ≡ Some p → has_place same_pass rows.old p ≡ true }
    ensures { (ranks workers : ℕ) (log : List MarkData) → Legal ranks workers (on lane event.now ∷ log) → ShowsLane log lane state.now
        → KeepsRows log rows.old → KeepsRows (on lane event.now ∷ log) rows.new }
{
    if let Event::ReadSent { value, fence, pass } = *event {
        let name = PassName {
            rank: lane.rank,
            fence,
            pass,
        };
        rows.set(name, Some(state.recent.row_after(value)));
    }
}

/// Makes room for the receipt that an event is.
pub fn room_for_receipt(receipts: &mut Table<u32, bool>, event: &Event) -> Result<(), OutOfMemory>
    ensures values { (f : ℕ) → value_at (λ a b. a == b) receipts.new f ≡ value_at (λ a b. a == b) receipts.old f }
    ensures place { OnOk result ((f : ℕ) → received_of event.now ≡ Some f → has_place (λ a b. a == b) receipts.new f ≡ true) }
{
    match event {
        Event::Receipt(receipt) => receipts.touch(receipt.fence),
        _ => Ok(()),
    }
}

/// Notes the receipt that an event is, for which there is room.
pub fn note_receipt(receipts: &mut Table<u32, bool>, event: &Event)
    requires place { (f : ℕ) → received_of event.now ≡ Some f → has_place (λ a b. a == b) receipts.old f ≡ true }
    ensures { (lane : LaneNameData) (log : List MarkData) → KeepsReceipts log receipts.old → KeepsReceipts (on lane event.now ∷ log) receipts.new }
{
    if let Event::Receipt(receipt) = event {
        receipts.set(receipt.fence, true);
    }
}
