//! Examples of tasks beside their carriers.
ghost use Rattle.std.specs.Prelude.{◌≡◌, ◌<◌, ◌≤◌, ◌∷◌, false, None, Some, [], IfOk, IfSome, OnSome, length, replicate, slice_get};
ghost use Rattle.app_core.specs.Needs.{AreDistinct, max_needs};
ghost use Rattle.app_core.specs.declared.outline.Outline.TheVariants.{Spawn};
ghost use Rattle.event_lists.specs.declared.event.Event.TheVariants.{TookTask};
ghost use Rattle.event_lists.specs.declared.future.Bringer.TheVariants.{Main as MainOf};
ghost use Rattle.event_lists.specs.Events.{main_of, in_hand};
ghost use Rattle.event_laws.specs.Follows.{Start, program_at};
ghost use Rattle.lane_tasks.specs.Tolds.{IsTableOf, KnowsGiven};

use crate::OutOfMemory;
use crate::lane_task::{LaneReady, LaneTask, Submission};
use crate::laws::submitted_needs_are_by_what_is_in_hand;
use crate::taking::take_up;
use app_core::{App, Label};
use event_lists::{Bringer, Future};
use std::alloc::Global;
use task_tables::Opened;
use world_carriers::WordsNaming;
use world_words::{Lane, Told, Words};

/// The main of a rank submits the unit of its first start, which waits for its needs.
pub fn submit_first<A: App, J: WordsNaming<A>>(
    alloc: Global,
    app: &A,
    words: &Words<A>,
    lane: &mut Lane,
    unit: A::Unit,
    needs: &[Label],
) -> Result<LaneTask<A, J>, OutOfMemory>
    requires named { (J.app ≡ Some app.now) × (J.words ≡ Some words.now) }
    requires unit { A.is_unit app.now unit × (A.needs_of app.now unit ≡ needs.now) }
    requires needs { (length needs.now ≤ max_needs) × AreDistinct needs.now }
    requires table { lane.old.table ≡ words.now.table }
    requires lane { (lane.old.mine ≡ []) × (lane.old.seen ≡ []) × (lane.old.owes ≡ None) × (0 < lane.old.spare) × (lane.old.name ≡ main_of lane.old.name.rank) }
    requires next { slice_get (program_at lane.old.name.rank words.now.program) 0 ≡ Some (Start (Spawn (A.label_of app.now unit) (A.due_of app.now unit) needs.now lane.old.name.rank)) }
    ensures task { IfOk result (λ t. (t.task.unit ≡ unit) × (t.task.needs ≡ needs.now) × (t.by ≡ Some (MainOf lane.old.name.rank)) × (t.task.values ≡ replicate (length needs.now) None)) }
    ensures to { IfOk result (λ t. t.carrier.owed.to ≡ lane.old.name.rank) }
{
    submitted_needs_are_by_what_is_in_hand::<A>();
    let label = app.label(&unit);
    let due = app.due(&unit);
    let number = words.submitted(lane, label, needs, due);
    let carrier = words.pack(lane);
    let rank = lane.name().rank;
    let main = Bringer::Main { rank };
    let submission = Submission {
        unit,
        number,
        to: rank,
        due: match due {
            Some(_) => Some(main),
            None => None,
        },
        by: Some(main),
        carrier,
    };
    LaneTask::new(alloc, app, submission, needs)
}

/// Two futures have their values, each of which came with what knows this; a lane that knew of neither takes the task up
/// that needs them. None where the task needs others, or goes to another rank.
pub fn take_up_after_two<A: App, J: WordsNaming<A>>(
    words: &Words<A>,
    lane: &mut Lane,
    mut task: LaneTask<A, J>,
    first: (Future, A::Value, Told),
    second: (Future, A::Value, Told),
) -> Option<Opened<A::Unit, A::Value, A::Cell>>
    requires named { J.words ≡ Some words.now }
    requires right { IfSome J.app (λ app. A.right_value app first.0.label first.1 × A.right_value app second.0.label second.1) }
    requires tables { IsTableOf J.words first.2.table × IsTableOf J.words second.2.table }
    requires given { KnowsGiven first.0 first.2 × KnowsGiven second.0 second.2 }
    requires table { lane.old.table ≡ words.now.table }
    requires room { 0 < lane.old.spare }
    requires free { (lane.old.owes ≡ None) × (in_hand lane.old.mine ≡ None) × (lane.old.name.bin ≡ false) }
    ensures taken { OnSome result (lane.new.mine ≡ TookTask lane.old.name.rank task.task.number ∷ lane.old.mine) }
{
    let (future, value, told) = first;
    task.fill_value(0, future, value, told);
    let (future, value, told) = second;
    task.fill_value(1, future, value, told);
    if !task.is_ready() {
        return None;
    }
    match take_up(words, lane, LaneReady::new(task)) {
        Ok(opened) => Some(opened),
        Err(_) => None,
    }
}
