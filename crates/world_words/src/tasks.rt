//! Tasks: they are submitted, begun, give futures their values, and run.
ghost use Rattle.std.specs.Prelude.{◌≡◌, ℕ, ◌<◌, ◌≤◌, false, None, Some, length};
ghost use Rattle.atomic_table.specs.Table.{Allows};
ghost use Rattle.app_core.specs.Needs.{AreDistinct, max_needs};
ghost use Rattle.app_core.specs.Outlines.{outlines};
ghost use Rattle.event_lists.specs.declared.event.Event.TheVariants.{Submitted, Gave};
ghost use Rattle.event_lists.specs.declared.event.TaskName.{TaskName};
ghost use Rattle.event_lists.specs.declared.mark.Item.TheVariants.{Task};
ghost use Rattle.event_lists.specs.Events.{in_hand, IsSubmitted};
ghost use Rattle.event_lists.specs.Counting.{MaySubmit};
ghost use Rattle.event_lists.specs.Dues.{Dues};
ghost use Rattle.event_lists.specs.Fences.{fence_in};
ghost use Rattle.event_laws.specs.Follows.{since};
ghost use Rattle.world_rule.specs.declared.view.Progress.{Progress};
ghost use Rattle.world_rule.specs.Owing.{ended};
ghost use Rattle.world_rule.specs.Views.{begun};
ghost use Rattle.world_rule.specs.Shows.{ShowsOneRun};
ghost use Rattle.world_rule.specs.Steps.{BeginsTask, IsNextEffect, KnowsStored, effect_of};
ghost use Rattle.world_words.specs.Lanes.{Grew, SeesMore, task_name};

use crate::lane::Lane;
use crate::words::{QUIET_WORD, RAN, SUBMITTED, Words};
use app_core::{App, Effects, Facts, Label};
use atomic_table::Seat;
use event_lists::Item;
use std::marker::Brand;
use world_rule::steps::{BeginTask, RunParameters};
use world_rule::view::View;

impl<A: Facts> Words<A> {
    /// Counts a task, which the lane then owes: its number, from 0 at each rank.
    ///
    /// The task is the next start of rank 0's main, the next effect of the task in hand, or the unit that the message in
    /// hand brought. A unit has at most 16 needs, none twice.
    pub fn submitted(
        &self,
        lane: &mut Lane,
        unit: Label,
        needs: &[Label],
        due: Option<Label>,
    ) -> u64
        requires table { lane.old.table ≡ self.now.table }
        requires room { 0 < lane.old.spare }
        requires free { (lane.old.owes ≡ None) × (lane.old.name.bin ≡ false) }
        requires needs { (length needs.now ≤ max_needs) × AreDistinct needs.now }
        requires spawn { MaySubmit lane.old.name (in_hand lane.old.mine) }
        requires dues { Dues lane.old.seen lane.old.name lane.old.mine (Submitted 0 (task_name unit needs.now due)) }
        requires outside { in_hand lane.old.mine ≡ None → fence_in lane.old.mine ≡ None }
        requires next { IsNextEffect self.now.program lane.old.progress lane.old.seen lane.old.name lane.old.mine (Submitted 0 (task_name unit needs.now due)) (in_hand lane.old.mine) }
        ensures { Grew self.now (A.may_do self.now.app) (Submitted result (task_name unit needs.now due)) (effect_of lane.old.progress) lane.old lane.new }
    {
        let rank = lane.name.rank;
        let word = 16 * rank as usize + SUBMITTED;
        let number = self.add_event::<Brand, (Label, Option<Label>), &[Label]>(
            &mut lane.seat,
            word,
            lane.name,
            (unit, due),
            &needs,
        );
        lane.own.submitted(number, unit, needs, due);
        lane.owes = Some(Item::Task { rank, number });
        number
    }

    /// A future has its value: the message in hand brought it, or the task in hand gives it.
    pub fn gave(&self, lane: &mut Lane, future: Label)
        requires table { lane.old.table ≡ self.now.table }
        requires room { 0 < lane.old.spare }
        requires free { (lane.old.owes ≡ None) × (lane.old.name.bin ≡ false) }
        requires dues { Dues lane.old.seen lane.old.name lane.old.mine (Gave future) }
        requires next { IsNextEffect self.now.program lane.old.progress lane.old.seen lane.old.name lane.old.mine (Gave future) (in_hand lane.old.mine) }
        ensures { Grew self.now (A.may_do self.now.app) (Gave future) (effect_of lane.old.progress) lane.old lane.new }
    {
        self.load_event::<Brand, Label, ()>(&mut lane.seat, QUIET_WORD, lane.name, future, &());
        lane.own.gave(future);
    }

    /// Counts the task in hand as run: the number of the run, from 0 at each rank.
    ///
    /// All of its effects were carried out; its puts and erases are known so.
    pub fn ran(&self, lane: &mut Lane) -> u64
        requires table { lane.old.table ≡ self.now.table }
        requires room { 0 < lane.old.spare }
        requires free { (lane.old.owes ≡ None) × (lane.old.name.bin ≡ false) }
        requires done { (b : Progress) × (lane.old.progress ≡ Some b) × (b.at ≡ length b.outlines) × KnowsStored b (length b.outlines) lane.old.seen }
        requires dues { Dues lane.old.seen lane.old.name lane.old.mine (ended 0 (in_hand lane.old.mine)) }
        ensures { Grew self.now (A.may_do self.now.app) (ended result (in_hand lane.old.mine)) None lane.old lane.new }
    {
        let word = 16 * lane.name.rank as usize + RAN;
        let number = self.add_event::<Brand, (), ()>(&mut lane.seat, word, lane.name, (), &());
        lane.own.ended(number, lane.hand);
        lane.hand = None;
        number
    }
}

impl<A: App> Words<A> {
    // Loads word 0. A call picks Q from the seat's task in hand and the effects.
    fn begin_as<Q: RunParameters>(
        &self,
        seat: &mut Seat<(), View>,
        _effects: &Effects<A::Unit, A::Value, A::Cell>,
    )
        requires table { seat.old.table_id ≡ self.now.table }
        requires step { Allows (ShowsOneRun self.now.ranks self.now.workers self.now.program (A.may_do self.now.app)) self.now.table.slots seat.old.id seat.old.me 0 (λ n. n) (λ n w. BeginsTask Q.ranks Q.workers Q.program Q.may Q.task seat.old.me w) }
        ensures { (seat.new.table_id ≡ seat.old.table_id) × BeginsTask Q.ranks Q.workers Q.program Q.may Q.task seat.old.me seat.new.me }
    {
        let _ = &self.table;
        self.table.shared.load::<BeginTask<Q>>(seat, QUIET_WORD);
    }

    /// Begins the task in hand: these are effects that a unit with its label may have.
    pub fn begin(&self, lane: &mut Lane, effects: &Effects<A::Unit, A::Value, A::Cell>)
        requires table { lane.old.table ≡ self.now.table }
        requires new { (lane.old.progress ≡ None) × (since lane.old.mine ≡ 0) }
        requires task { (rank : ℕ) × (number : ℕ) × (task : TaskName) × (in_hand lane.old.mine ≡ Some (Task rank number)) × IsSubmitted rank number task lane.old.seen
            × A.may_do self.now.app task.unit (outlines (A.label_of self.now.app) (A.due_of self.now.app) (A.home_of self.now.app) (A.kept_at self.now.app) self.now.ranks effects.now) }
        ensures lane { lane.new ≡ record lane.old { seen = lane.new.seen; progress = Some (begun (in_hand lane.old.mine) (outlines (A.label_of self.now.app) (A.due_of self.now.app) (A.home_of self.now.app) (A.kept_at self.now.app) self.now.ranks effects.now)) } }
        ensures sees { SeesMore self.now (A.may_do self.now.app) lane.old lane.new }
    {
        self.begin_as::<Brand>(&mut lane.seat, effects);
    }
}
