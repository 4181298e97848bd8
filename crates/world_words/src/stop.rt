//! The stop word, and looks at counts without an event.
ghost use Rattle.std.specs.Prelude.{◌≡◌, ◌⊎◌, ℕ, suc, ◌<◌, true, bit_or};
ghost use Rattle.atomic_table.specs.Table.{Allows};
ghost use Rattle.event_lists.specs.declared.kind.Kind.TheVariants.{Submissions, Runs};
ghost use Rattle.event_lists.specs.Events.{count};
ghost use Rattle.world_rule.specs.CounterWords.{stop_word, word_at};
ghost use Rattle.world_rule.specs.Views.{one_more_look};
ghost use Rattle.world_rule.specs.Shows.{ShowsOneRun};
ghost use Rattle.world_rule.specs.Steps.{SetsStop, SeesStop, SeesCount};
ghost use Rattle.world_words.specs.Lanes.{SeesMore};

use crate::lane::Lane;
use crate::words::{RAN, STOP_WORD, SUBMITTED, Words};
use app_core::Facts;
use atomic_table::Seat;
use event_lists::LaneName;
use std::marker::Brand;
use world_rule::steps::{LookRan, LookSubmitted, RunParameters, SeeStop, SetStop};
use world_rule::view::View;

impl<A: Facts> Words<A> {
    // Sets the stop word.
    fn stop_as<Q: RunParameters>(&self, seat: &mut Seat<(), View>)
        requires table { (seat.old.table_id ≡ self.now.table) × (stop_word < self.now.table.words) }
        requires step { Allows (ShowsOneRun self.now.ranks self.now.workers self.now.program (A.may_do self.now.app)) self.now.table.slots seat.old.id seat.old.me stop_word (λ n. bit_or n 1) (λ n w. SetsStop Q.ranks Q.workers Q.program Q.may seat.old.me w) }
        ensures { (seat.new.table_id ≡ seat.old.table_id) × SetsStop Q.ranks Q.workers Q.program Q.may seat.old.me seat.new.me }
    {
        self.table.shared.fetch_or::<SetStop<Q>>(seat, STOP_WORD, 1);
    }

    // Looks at the stop word.
    fn is_stopped_as<Q: RunParameters>(&self, seat: &mut Seat<(), View>) -> u64
        requires table { (seat.old.table_id ≡ self.now.table) × (stop_word < self.now.table.words) }
        requires step { Allows (ShowsOneRun self.now.ranks self.now.workers self.now.program (A.may_do self.now.app)) self.now.table.slots seat.old.id seat.old.me stop_word (λ n. n) (SeesStop Q.ranks Q.workers Q.program Q.may seat.old.me) }
        ensures { (seat.new.table_id ≡ seat.old.table_id) × SeesStop Q.ranks Q.workers Q.program Q.may seat.old.me result seat.new.me }
    {
        self.table.shared.load::<SeeStop<Q>>(seat, STOP_WORD)
    }

    /// Sets the stop word.
    pub fn stop(&self, lane: &mut Lane)
        requires table { lane.old.table ≡ self.now.table }
        ensures lane { lane.new ≡ record lane.old { seen = lane.new.seen; set_stop = true } }
        ensures sees { SeesMore self.now (A.may_do self.now.app) lane.old lane.new }
    {
        let _ = &self.table;
        self.stop_as::<Brand>(&mut lane.seat);
    }

    /// Whether the stop word is set. It stays set for good.
    pub fn is_stopped(&self, lane: &mut Lane) -> bool
        requires table { lane.old.table ≡ self.now.table }
        ensures lane { lane.new ≡ record lane.old { seen = lane.new.seen; stop_looks = suc lane.old.stop_looks; saw_stop = result } }
        ensures again { (lane.old.set_stop ≡ true) ⊎ (lane.old.saw_stop ≡ true) → result ≡ true }
        ensures sees { SeesMore self.now (A.may_do self.now.app) lane.old lane.new }
    {
        let _ = &self.table;
        self.is_stopped_as::<Brand>(&mut lane.seat) == 1
    }

    // Looks at the count of tasks that ran at the lane's rank.
    fn look_ran_as<Q: RunParameters>(
        &self,
        seat: &mut Seat<(), View>,
        word: usize,
        _name: LaneName,
    ) -> u64
        requires table { (seat.old.table_id ≡ self.now.table) × (word < self.now.table.words) }
        requires step { Allows (ShowsOneRun self.now.ranks self.now.workers self.now.program (A.may_do self.now.app)) self.now.table.slots seat.old.id seat.old.me word (λ n. n) (SeesCount Q.ranks Q.workers Q.program Q.may Runs Q.lane.rank seat.old.me) }
        ensures { (seat.new.table_id ≡ seat.old.table_id) × SeesCount Q.ranks Q.workers Q.program Q.may Runs Q.lane.rank seat.old.me result seat.new.me }
    {
        self.table.shared.load::<LookRan<Q>>(seat, word)
    }

    // Looks at the count of tasks submitted at the lane's rank.
    fn look_submitted_as<Q: RunParameters>(
        &self,
        seat: &mut Seat<(), View>,
        word: usize,
        _name: LaneName,
    ) -> u64
        requires table { (seat.old.table_id ≡ self.now.table) × (word < self.now.table.words) }
        requires step { Allows (ShowsOneRun self.now.ranks self.now.workers self.now.program (A.may_do self.now.app)) self.now.table.slots seat.old.id seat.old.me word (λ n. n) (SeesCount Q.ranks Q.workers Q.program Q.may Submissions Q.lane.rank seat.old.me) }
        ensures { (seat.new.table_id ≡ seat.old.table_id) × SeesCount Q.ranks Q.workers Q.program Q.may Submissions Q.lane.rank seat.old.me result seat.new.me }
    {
        self.table.shared.load::<LookSubmitted<Q>>(seat, word)
    }

    /// How many tasks of the lane's rank ran so far. The lane keeps what it found.
    pub fn look_ran(&self, lane: &mut Lane) -> u64
        requires table { lane.old.table ≡ self.now.table }
        ensures count { result ≡ count Runs lane.old.name.rank lane.new.seen }
        ensures lane { lane.new ≡ record lane.old { seen = lane.new.seen; ran_looks = one_more_look lane.old.name.rank result lane.old.ran_looks } }
        ensures sees { SeesMore self.now (A.may_do self.now.app) lane.old lane.new }
    {
        let _ = &self.table;
        let word = 16 * lane.name.rank as usize + RAN;
        self.look_ran_as::<Brand>(&mut lane.seat, word, lane.name)
    }

    /// How many tasks were submitted at the lane's rank so far. The lane keeps what it found.
    pub fn look_submitted(&self, lane: &mut Lane) -> u64
        requires table { lane.old.table ≡ self.now.table }
        ensures count { result ≡ count Submissions lane.old.name.rank lane.new.seen }
        ensures lane { lane.new ≡ record lane.old { seen = lane.new.seen; submitted_looks = one_more_look lane.old.name.rank result lane.old.submitted_looks } }
        ensures sees { SeesMore self.now (A.may_do self.now.app) lane.old lane.new }
    {
        let _ = &self.table;
        let word = 16 * lane.name.rank as usize + SUBMITTED;
        self.look_submitted_as::<Brand>(&mut lane.seat, word, lane.name)
    }
}
