//! A lane takes a task that is ready in hand.
ghost use Rattle.std.specs.Prelude.{◌≡◌, ◌≢◌, ◌↔◌, ◌<◌, ◌∷◌, false, None, Some, Contains, IfErr, IfOk, IfSome, IsSome, OnErr, OnOk, map};
ghost use Rattle.app_core.specs.Inputs.{AreRight};
ghost use Rattle.event_lists.specs.declared.event.Event.TheVariants.{TookTask};
ghost use Rattle.event_lists.specs.Events.{Begins, in_hand, IsSubmitted};
ghost use Rattle.world_words.specs.Lanes.{ToldView, task_name};
ghost use Rattle.lane_tasks.specs.Tolds.{AreLearnt};
ghost use Rattle.lane_tasks.specs.LaneTasks.{TookUp};

use crate::lane_task::{LaneOpened, LaneReady};
use crate::laws::learnt_needs_are_known;
use app_core::{App, Facts};
use task_tables::Opened;
use world_carriers::WordsNaming;
use world_words::{Lane, Told, Words};

/// A lane learns what was told of the needs of a task that is ready, and takes the task in hand. What comes back is the
/// unit with all that its step is given, right for the unit.
///
/// # Errors
///
/// The task, exactly where it goes to another rank. Then the lane is what it was.
pub fn take_up<A: App, J: WordsNaming<A>>(
    words: &Words<A>,
    lane: &mut Lane,
    ready: LaneReady<A, J>,
) -> Result<Opened<A::Unit, A::Value, A::Cell>, LaneReady<A, J>>
    requires named { J.words ≡ Some words.now }
    requires table { lane.old.table ≡ words.now.table }
    requires room { 0 < lane.old.spare }
    requires free { (lane.old.owes ≡ None) × (in_hand lane.old.mine ≡ None) × (lane.old.name.bin ≡ false) }
    ensures here { OnOk result (ready.carrier.owed.to ≡ lane.old.name.rank) }
    ensures taken { OnOk result (TookUp words.now (A.may_do words.now.app) ready.task.number lane.old lane.new) }
    ensures hand { OnOk result (lane.new.mine ≡ TookTask lane.old.name.rank ready.task.number ∷ lane.old.mine) }
    ensures submitted { OnOk result (IfSome J.app (λ app. IsSubmitted lane.old.name.rank ready.task.number (task_name (A.label_of app ready.task.unit) ready.task.needs (A.due_of app ready.task.unit)) lane.new.seen)) }
    ensures opened { IfOk result (λ o. (o.unit ≡ ready.task.unit) × (o.number ≡ ready.task.number) × (o.due ≡ ready.task.due) × (map Some o.values.items ≡ ready.task.values) × (map Some o.cells.items ≡ ready.task.cells)) }
    ensures right { IfOk result (λ o. IfSome J.app (λ app. A.is_unit app o.unit × (IsSome o.due ↔ IsSome (A.due_of app o.unit))
        × AreRight (A.right_value app) (A.needs_of app o.unit) o.values.items
        × AreRight (A.right_cell app) (A.reads_of app o.unit) o.cells.items)) }
    ensures another { OnErr result (ready.carrier.owed.to ≢ lane.old.name.rank) }
    ensures back { IfErr result (λ r. r ≡ ready) }
    ensures same { OnErr result (lane.new ≡ lane.old) }
{
    if ready.task().to() != lane.name().rank {
        return Err(ready);
    }
    learnt_needs_are_known();
    let LaneOpened {
        opened,
        carrier,
        tolds,
    } = ready.into_parts();
    learn_all(words, lane, tolds);
    words.take_in(lane, carrier);
    Ok(opened)
}

// The lane knows all that it was told.
fn learn_all<A: Facts>(words: &Words<A>, lane: &mut Lane, tolds: Vec<Told>)
    requires table { lane.old.table ≡ words.now.table }
    requires tables { (told : ToldView) → Contains tolds.items told → told.table ≡ words.now.table }
    ensures lane { lane.new ≡ record lane.old { seen = lane.new.seen } }
    ensures seen { Begins lane.old.seen lane.new.seen }
    ensures learnt { AreLearnt tolds.items lane.new.seen }
{
    for told in tolds {
        words.learn(lane, told);
    }
}
