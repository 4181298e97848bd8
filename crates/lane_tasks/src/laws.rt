//! Laws on what is known of the needs of tasks. The functions do nothing.
ghost use Rattle.std.specs.Prelude.{◌≡◌, ◌≤◌, ℕ, List, Option, Some};
ghost use Rattle.app_core.specs.declared.label.Label.{Label as LabelData};
ghost use Rattle.event_lists.specs.declared.event.Event.TheVariants.{Submitted, Gave};
ghost use Rattle.event_lists.specs.declared.future.Future.{Future as FutureData};
ghost use Rattle.event_lists.specs.declared.mark.EffectName.{EffectName};
ghost use Rattle.event_lists.specs.declared.mark.Item.TheVariants.{Task};
ghost use Rattle.event_lists.specs.declared.mark.Mark.{Mark};
ghost use Rattle.event_lists.specs.Events.{in_hand};
ghost use Rattle.event_lists.specs.Futures.{bringer, futures_by, needs_of, own_due, times_given};
ghost use Rattle.world_rule.specs.declared.view.Pending.TheVariants.{Counted};
ghost use Rattle.world_rule.specs.Owing.{NeedsKnown};
ghost use Rattle.world_words.specs.Lanes.{WordsView, LaneView, ToldView, Grew, task_name};
ghost use Rattle.lane_tasks.specs.Tolds.{AreTold, AreLearnt};

use app_core::Facts;

/// A lane that learnt all that was told with a task, whose needs were known as given to those who told, knows each of them
/// as given.
pub fn learnt_needs_are_known()
    ensures { (rank number : ℕ) (told seen : List Mark) (tolds : List ToldView) → AreTold rank number told tolds → AreLearnt tolds seen → NeedsKnown (Counted (Task rank number)) told seen }
{}

/// The futures that a task needs, once it was counted, are those of its labels, created by who spawns with what the lane
/// has in hand.
pub fn submitted_needs_are_by_what_is_in_hand<A: Facts>()
    ensures { (words : WordsView A) (number : ℕ) (unit : LabelData) (needs : List LabelData) (due : Option LabelData) (f : Option EffectName) (old new : LaneView)
        → Grew words (A.may_do words.app) (Submitted number (task_name unit needs due)) f old new → needs_of (Task new.name.rank number) new.seen ≡ futures_by (bringer new.name.rank (in_hand old.mine)) needs }
{}

/// A lane that gave the due of what it has in hand knows this future as given.
pub fn what_a_lane_gave_is_known_to_it<A: Facts>()
    ensures { (words : WordsView A) (label : LabelData) (future : FutureData) (f : Option EffectName) (old new : LaneView)
        → Grew words (A.may_do words.app) (Gave label) f old new → own_due (in_hand old.mine) old.seen ≡ Some future → 1 ≤ times_given future new.seen }
{}
