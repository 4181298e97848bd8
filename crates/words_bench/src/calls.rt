//! The calls of lanes, each in a function that isn't inlined, so that its instructions can be counted. Each has the contract
//! of the call.
ghost use Rattle.std.specs.Prelude.{◌≡◌, ◌≢◌, ℕ, ◌<◌, false, None, Some, ◌≤◌, length, IsSome};
ghost use Rattle.event_lists.specs.declared.event.Event.TheVariants.{Sent, Submitted};
ghost use Rattle.event_lists.specs.declared.mark.Item.TheVariants.{Message, Task};
ghost use Rattle.event_lists.specs.Events.{in_hand, IsSubmitted, Begins};
ghost use Rattle.event_lists.specs.Counting.{MaySpawn, MaySubmit};
ghost use Rattle.event_lists.specs.Dues.{Dues};
ghost use Rattle.event_lists.specs.Fences.{fence_in};
ghost use Rattle.event_lists.specs.Futures.{is_fresh};
ghost use Rattle.world_rule.specs.Owing.{ended, Made, IsCounted, NeedsKnown, took};
ghost use Rattle.world_rule.specs.Steps.{IsNextEffect, effect_of, KnowsStored};
ghost use Rattle.world_words.specs.Lanes.{Grew, SeesMore, task_name};
ghost use Rattle.app_core.specs.Needs.{AreDistinct, max_needs};
ghost use Rattle.app_core.specs.Outlines.{outlines};
ghost use Rattle.event_lists.specs.declared.event.TaskName.{TaskName};
ghost use Rattle.event_laws.specs.Follows.{since};
ghost use Rattle.world_rule.specs.declared.view.Progress.{Progress};
ghost use Rattle.world_rule.specs.Views.{begun};

use app_core::{App, Effects, Facts, Label};
use event_lists::Parcel;
use world_words::{Carrier, Lane, Told, Words};

/// `Words::sent`.
#[inline(never)]
pub fn sent<A: Facts>(words: &Words<A>, lane: &mut Lane, to: u32, parcel: Parcel) -> u64
    requires table { lane.old.table ≡ words.now.table }
    requires room { 0 < lane.old.spare }
    requires free { (lane.old.owes ≡ None) × (lane.old.name.bin ≡ false) }
    requires spawn { MaySpawn lane.old.name (in_hand lane.old.mine) }
    requires target { (to < words.now.ranks) × (to ≢ lane.old.name.rank) }
    requires dues { Dues lane.old.seen lane.old.name lane.old.mine (Sent 0 to parcel) }
    requires outside { in_hand lane.old.mine ≡ None → fence_in lane.old.mine ≡ None }
    requires next { IsNextEffect words.now.program lane.old.progress lane.old.seen lane.old.name lane.old.mine (Sent 0 to parcel) (in_hand lane.old.mine) }
    ensures { Grew words.now (A.may_do words.now.app) (Sent result to parcel) (effect_of lane.old.progress) lane.old lane.new }
{
    words.sent(lane, to, parcel)
}

/// `Words::handled`.
#[inline(never)]
pub fn handled<A: Facts>(words: &Words<A>, lane: &mut Lane) -> u64
    requires table { lane.old.table ≡ words.now.table }
    requires room { 0 < lane.old.spare }
    requires free { (lane.old.owes ≡ None) × (lane.old.name.bin ≡ false) }
    requires hand { (rank : ℕ) × (number : ℕ) × (in_hand lane.old.mine ≡ Some (Message rank number)) }
    requires done { is_fresh lane.old.mine ≡ false }
    ensures { Grew words.now (A.may_do words.now.app) (ended result (in_hand lane.old.mine)) None lane.old lane.new }
{
    words.handled(lane)
}

/// `Words::submitted`.
#[inline(never)]
pub fn submitted<A: Facts>(
    words: &Words<A>,
    lane: &mut Lane,
    unit: Label,
    needs: &[Label],
    due: Option<Label>,
) -> u64
    requires table { lane.old.table ≡ words.now.table }
    requires room { 0 < lane.old.spare }
    requires free { (lane.old.owes ≡ None) × (lane.old.name.bin ≡ false) }
    requires needs { (length needs.now ≤ max_needs) × AreDistinct needs.now }
    requires spawn { MaySubmit lane.old.name (in_hand lane.old.mine) }
    requires dues { Dues lane.old.seen lane.old.name lane.old.mine (Submitted 0 (task_name unit needs.now due)) }
    requires outside { in_hand lane.old.mine ≡ None → fence_in lane.old.mine ≡ None }
    requires next { IsNextEffect words.now.program lane.old.progress lane.old.seen lane.old.name lane.old.mine (Submitted 0 (task_name unit needs.now due)) (in_hand lane.old.mine) }
    ensures { Grew words.now (A.may_do words.now.app) (Submitted result (task_name unit needs.now due)) (effect_of lane.old.progress) lane.old lane.new }
{
    words.submitted(lane, unit, needs, due)
}

/// `Words::ran`.
#[inline(never)]
pub fn ran<A: Facts>(words: &Words<A>, lane: &mut Lane) -> u64
    requires table { lane.old.table ≡ words.now.table }
    requires room { 0 < lane.old.spare }
    requires free { (lane.old.owes ≡ None) × (lane.old.name.bin ≡ false) }
    requires done { (b : Progress) × (lane.old.progress ≡ Some b) × (b.at ≡ length b.outlines) × KnowsStored b (length b.outlines) lane.old.seen }
    requires dues { Dues lane.old.seen lane.old.name lane.old.mine (ended 0 (in_hand lane.old.mine)) }
    ensures { Grew words.now (A.may_do words.now.app) (ended result (in_hand lane.old.mine)) None lane.old lane.new }
{
    words.ran(lane)
}

/// `Words::begin`.
#[inline(never)]
pub fn begin<A: App>(
    words: &Words<A>,
    lane: &mut Lane,
    effects: &Effects<A::Unit, A::Value, A::Cell>,
)
    requires table { lane.old.table ≡ words.now.table }
    requires new { (lane.old.progress ≡ None) × (since lane.old.mine ≡ 0) }
    requires task { (rank : ℕ) × (number : ℕ) × (task : TaskName) × (in_hand lane.old.mine ≡ Some (Task rank number)) × IsSubmitted rank number task lane.old.seen
        × A.may_do words.now.app task.unit (outlines (A.label_of words.now.app) (A.due_of words.now.app) (A.home_of words.now.app) (A.kept_at words.now.app) words.now.ranks effects.now) }
    ensures lane { lane.new ≡ record lane.old { seen = lane.new.seen; progress = Some (begun (in_hand lane.old.mine) (outlines (A.label_of words.now.app) (A.due_of words.now.app) (A.home_of words.now.app) (A.kept_at words.now.app) words.now.ranks effects.now)) } }
    ensures sees { SeesMore words.now (A.may_do words.now.app) lane.old lane.new }
{
    words.begin(lane, effects);
}

/// `Words::pack`.
#[inline(never)]
pub fn pack<A: Facts>(words: &Words<A>, lane: &mut Lane) -> Carrier
    requires table { lane.old.table ≡ words.now.table }
    requires owes { IsSome lane.old.owes }
    ensures carrier { (result.table ≡ lane.old.table) × (result.seen ≡ lane.old.seen) }
    ensures owed { lane.old.owes ≡ Some result.owed }
    ensures lane { lane.new ≡ record lane.old { owes = None } }
{
    words.pack(lane)
}

/// `Words::take_in`.
#[inline(never)]
pub fn take_in<A: Facts>(words: &Words<A>, lane: &mut Lane, carrier: Carrier)
    requires table { (lane.old.table ≡ words.now.table) × (carrier.table ≡ words.now.table) }
    requires room { 0 < lane.old.spare }
    requires free { (lane.old.owes ≡ None) × (in_hand lane.old.mine ≡ None) × (lane.old.name.bin ≡ false) }
    requires item { IsCounted carrier.owed.pending × (carrier.owed.to ≡ lane.old.name.rank) }
    requires needs { NeedsKnown carrier.owed.pending carrier.seen lane.old.seen }
    ensures grew { Grew words.now (A.may_do words.now.app) (took carrier.owed.pending) None lane.old lane.new }
    ensures learnt { Begins carrier.seen lane.new.seen }
    ensures made { Made carrier.owed lane.new.seen }
{
    words.take_in(lane, carrier);
}

/// `Words::tell`.
#[inline(never)]
pub fn tell<A: Facts>(words: &Words<A>, lane: &mut Lane) -> Told
    requires table { lane.old.table ≡ words.now.table }
    ensures told { (result.table ≡ lane.old.table) × (result.seen ≡ lane.old.seen) }
    ensures lane { lane.new ≡ lane.old }
{
    words.tell(lane)
}

/// `Words::learn`.
#[inline(never)]
pub fn learn<A: Facts>(words: &Words<A>, lane: &mut Lane, told: Told)
    requires table { (lane.old.table ≡ words.now.table) × (told.table ≡ words.now.table) }
    ensures lane { lane.new ≡ record lane.old { seen = lane.new.seen } }
    ensures sees { SeesMore words.now (A.may_do words.now.app) lane.old lane.new }
    ensures learnt { Begins told.seen lane.new.seen }
{
    words.learn(lane, told);
}
