//! Laws on the states of turns. The functions do nothing.
ghost use Rattle.std.specs.Prelude.{◌≡◌, ℕ, false, []};
ghost use Rattle.event_lists.specs.Events.{Begins};
ghost use Rattle.event_lists.specs.Fences.{readings};
ghost use Rattle.event_lists.specs.OwnEvents.{has_receipt_on_lane};
ghost use Rattle.world_words.specs.Lanes.{LaneView};
ghost use Rattle.fence_tree.specs.Turns.{StateView, IsInside, IsTurning, new_state};

use app_core::Facts;
use world_words::Words;

/// A new state may turn with a lane that entered its fence, and has no readings and no receipt of it.
pub fn new_states_may_turn<A: Facts>(_words: &Words<A>)
    ensures { (rank fence : ℕ) (v : LaneView) → IsInside _words.now rank fence v → readings v.mine ≡ [] → has_receipt_on_lane fence v.mine ≡ false → IsTurning _words.now (new_state rank _words.now.ranks fence) v }
{}

/// A state may turn with its lane after the lane did other work inside of the fence: it made no readings and no receipt,
/// has nothing in hand again, and sees what it saw.
pub fn other_work_keeps_the_turn<A: Facts>(_words: &Words<A>)
    ensures { (s : StateView) (old new : LaneView) → IsTurning _words.now s old → IsInside _words.now s.rank s.fence new → readings new.mine ≡ readings old.mine → has_receipt_on_lane s.fence new.mine ≡ has_receipt_on_lane s.fence old.mine → Begins old.seen new.seen → IsTurning _words.now s new }
{}
