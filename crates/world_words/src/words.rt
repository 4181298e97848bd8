//! The words, and the steps that the calls take on them.
ghost use Rattle.std.specs.Prelude.{◌≡◌, ℕ, ◌+◌, ◌*◌, ◌^◌, ◌%◌, ◌<◌, ◌≤◌, bit_or, List};
ghost use Rattle.atomic_table.specs.Table.{Allows};
ghost use Rattle.world_rule.specs.CounterWords.{place};
ghost use Rattle.world_rule.specs.Shows.{ShowsOneRun};
ghost use Rattle.world_rule.specs.Steps.{Appends, Finds};

use app_core::Facts;
use atomic_table::{Seat, Table};
use event_lists::{Kind, LaneName};
use std::alloc::Global;
use std::marker::{Brand, Model};
use world_rule::rule::{Setup, WordsRule};
use world_rule::steps::{Append, Look, RunParameters};
use world_rule::view::View;

/// The word that never changes, for steps that count nothing.
pub(crate) const QUIET_WORD: usize = 0;

/// The word that says that the run is to stop.
pub(crate) const STOP_WORD: usize = 16;

/// Where a rank's counts are, from the 16 words of the rank on that the rank's number counts off.
pub(crate) const SENT: usize = 32;

pub(crate) const HANDLED: usize = 33;

pub(crate) const SUBMITTED: usize = 34;

pub(crate) const RAN: usize = 35;

/// The table of counter words of some ranks, for an application.
///
/// Each rank has four counts: of messages sent and handled, and of tasks submitted and run.
#[derive(Drop)]
pub struct Words<A: Facts> {
    pub(crate) table: Table<(), View, Setup<A>, WordsRule, Global>,
    pub(crate) ranks: u32,
    pub(crate) workers: u32,
    pub(crate) trace: bool,
    pub(crate) alloc: Global,
}

impl<A: Facts> Model for Words<A> {
    ghost use Rattle.std.specs.Prelude.{◌≡◌, ◌≤◌};
    ghost use Rattle.app_core.specs.Commands.{IsRankCount};
    ghost use Rattle.event_laws.specs.Follows.{program_from};
    ghost use Rattle.world_rule.specs.CounterWords.{word_count};
    ghost use Rattle.world_words.specs.Lanes.{WordsView};

    ghost Value = { WordsView A };

    ghost view = { λ w. record {
      table = w.table.shared.table_id;
      ranks = w.table.shared.key.ranks;
      workers = w.table.shared.key.workers;
      trace = w.trace;
      app = w.table.shared.key.app.value;
      program = program_from 1 (A.kinds_of w.table.shared.key.app.value) (A.starts_of w.table.shared.key.app.value);
    } };

    ghost invariant = { λ w. (w.table.shared.table_id.words ≡ word_count w.ranks) × (w.table.shared.key.ranks ≡ w.ranks) × (w.table.shared.key.workers ≡ w.workers) × IsRankCount w.ranks × (w.workers ≤ 4) };
}

/// Where a rank's count of a kind is.
pub(crate) fn count_of(kind: Kind) -> usize
    ensures place { result ≡ 32 + place kind }
    ensures within { result ≤ 35 }
{
    match kind {
        Kind::Sends => SENT,
        Kind::Handlings => HANDLED,
        Kind::Submissions => SUBMITTED,
        Kind::Runs => RAN,
    }
}

impl<A: Facts> Words<A> {
    // Adds one to a word, with the event that Q names. A call picks Q from the arguments: the lane's name, and what else
    // its event is made of.
    pub(crate) fn add_event<Q: RunParameters, S: Copy, T>(
        &self,
        seat: &mut Seat<(), View>,
        word: usize,
        _name: LaneName,
        _small: S,
        _large: &T,
    ) -> u64
        requires table { (seat.old.table_id ≡ self.now.table) × (word < self.now.table.words) }
        requires step { Allows (ShowsOneRun self.now.ranks self.now.workers self.now.program (A.may_do self.now.app)) self.now.table.slots seat.old.id seat.old.me word (λ n. (n + 1) % 2 ^ 64) (Appends Q.ranks Q.workers Q.program Q.may Q.lane Q.event Q.effect seat.old.me) }
        ensures { (seat.new.table_id ≡ seat.old.table_id) × Appends Q.ranks Q.workers Q.program Q.may Q.lane Q.event Q.effect seat.old.me result seat.new.me }
    {
        self.table.shared.fetch_add::<Append<Q>>(seat, word, 1)
    }

    // Loads a word, with the event that Q names.
    pub(crate) fn load_event<Q: RunParameters, S: Copy, T>(
        &self,
        seat: &mut Seat<(), View>,
        word: usize,
        _name: LaneName,
        _small: S,
        _large: &T,
    ) -> u64
        requires table { (seat.old.table_id ≡ self.now.table) × (word < self.now.table.words) }
        requires step { Allows (ShowsOneRun self.now.ranks self.now.workers self.now.program (A.may_do self.now.app)) self.now.table.slots seat.old.id seat.old.me word (λ n. n) (Appends Q.ranks Q.workers Q.program Q.may Q.lane Q.event Q.effect seat.old.me) }
        ensures { (seat.new.table_id ≡ seat.old.table_id) × Appends Q.ranks Q.workers Q.program Q.may Q.lane Q.event Q.effect seat.old.me result seat.new.me }
    {
        self.table.shared.load::<Append<Q>>(seat, word)
    }

    // Loads a word, without an event.
    fn look_as<Q: RunParameters>(&self, seat: &mut Seat<(), View>, word: usize) -> u64
        requires table { (seat.old.table_id ≡ self.now.table) × (word < self.now.table.words) }
        requires step { Allows (ShowsOneRun self.now.ranks self.now.workers self.now.program (A.may_do self.now.app)) self.now.table.slots seat.old.id seat.old.me word (λ n. n) (Finds Q.ranks Q.workers Q.program Q.may word seat.old.me) }
        ensures { (seat.new.table_id ≡ seat.old.table_id) × Finds Q.ranks Q.workers Q.program Q.may word seat.old.me result seat.new.me }
    {
        self.table.shared.load::<Look<Q>>(seat, word)
    }

    // Loads word 0, after which the seat sees all events so far.
    pub(crate) fn look(&self, seat: &mut Seat<(), View>)
        requires table { seat.old.table_id ≡ self.now.table }
        ensures { (seat.new.table_id ≡ seat.old.table_id) × ((n : ℕ) × Finds self.now.ranks self.now.workers self.now.program (A.may_do self.now.app) 0 seat.old.me n seat.new.me) }
    {
        let _ = &self.table;
        self.look_as::<Brand>(seat, QUIET_WORD);
    }
}
