//! How the words begin, and how lanes are given out and taken back.
ghost use Rattle.std.specs.Prelude.{◌≡◌, ◌≢◌, ℕ, ◌+◌, ◌*◌, ◌^◌, ◌<◌, ◌≤◌, ◌||◌, ◌↔◌, true, false, Some, None, Err, List, [], ◌∷◌, ◌++◌, map, max, length, IsOk, IfOk, OnOk, OnErr, Contains};
ghost use Rattle.app_core.specs.Commands.{IsRankCount};
ghost use Rattle.event_lists.specs.declared.lane.LaneName.{LaneName as LaneNameData};
ghost use Rattle.event_lists.specs.Events.{Begins};
ghost use Rattle.event_lists.specs.Legal.{IsLane};
ghost use Rattle.event_laws.specs.Follows.{program_from};
ghost use Rattle.lane_trace.specs.declared.record.ReserveError.TheVariants.{Worn, OutOfMemory as NoMemory};
ghost use Rattle.lane_trace.specs.Traces.{TraceData};
ghost use Rattle.lane_trace.specs.Records.{event_limit};
ghost use Rattle.world_rule.specs.Views.{no_looks, empty_part, own_part, without, lane_of, gives_away};
ghost use Rattle.world_rule.specs.CounterWords.{all_lanes};
ghost use Rattle.world_words.specs.Lanes.{Lawful};

use crate::lane::{Lane, Root};
use crate::words::Words;
use app_core::Facts;
use atomic_table::{Seat, Table};
use event_lists::LaneName;
use lane_trace::{LaneRecord, LaneTrace, ReserveError};
use std::alloc::{AllocError as OutOfMemory, Global};
use std::marker::Brand;
use std::snapshot::Snapshot;
use world_rule::moves::{Joining, Making};
use world_rule::rule::Setup;
use world_rule::steps::RunParameters;
use world_rule::view::View;

impl<A: Facts> Words<A> {
    /// The words of some ranks, all 0, and a seat with all lanes: at each rank those of the main, of the workers, and of 16
    /// bins. With `trace` each lane is to keep its events.
    ///
    /// # Errors
    ///
    /// `OutOfMemory` where there is no room for the words.
    pub fn with_root(
        alloc: Global,
        app: &A,
        ranks: u32,
        workers: u32,
        trace: bool,
    ) -> Result<(Words<A>, Root), OutOfMemory>
        requires ranks { IsRankCount ranks }
        requires workers { workers ≤ 4 }
        ensures size { IfOk result (λ r. (r.0.ranks ≡ ranks) × (r.0.workers ≡ workers) × (r.0.trace ≡ trace)) }
        ensures app { IfOk result (λ r. (r.0.app ≡ app.now) × (r.0.program ≡ program_from 1 (A.kinds_of app.now) (A.starts_of app.now))) }
        ensures lanes { IfOk result (λ r. (r.1.table ≡ r.0.table) × (r.1.parts ≡ map empty_part (all_lanes ranks workers))) }
        ensures has { IfOk result (λ r. (l : LaneNameData) → IsLane ranks workers l → Contains r.1.parts (empty_part l)) }
        ensures new { IfOk result (λ r. (r.1.seen ≡ []) × (r.1.book ≡ []) × (21 * ranks ≤ r.1.room) × (r.1.set_stop ≡ false) × (r.1.saw_stop ≡ false)) }
    {
        let zeros = Vec::from_elem(alloc, 0u64, 16 * ranks as usize + 32)?;
        let parts = Vec::with_capacity(alloc, 21 * ranks as usize)?;
        let about = Setup {
            app: Snapshot::of(app),
            ranks,
            workers,
        };
        let (table, seat) = Table::of_words(alloc, zeros.as_slice(), &about)?;
        Ok((
            Words {
                table,
                ranks,
                workers,
                trace,
                alloc,
            },
            Root { seat, parts },
        ))
    }

    fn split_lane<Q: RunParameters>(
        &self,
        seat: &mut Seat<(), View>,
        name: LaneName,
    ) -> Seat<(), View>
        requires table { seat.old.table_id ≡ self.now.table }
        requires name { Q.lane ≡ name }
        requires has { Contains seat.old.me.0.parts (empty_part name) }
        ensures new { (result.table_id ≡ seat.old.table_id) × (result.me ≡ (lane_of name seat.old.me.0, [])) }
        ensures old { (seat.new.table_id ≡ seat.old.table_id) × (seat.new.me ≡ (gives_away name seat.old.me.0, seat.old.me.1)) }
    {
        self.table.shared.split_seat::<Making<Q>>(seat)
    }

    /// A lane that the root still has, before any event and with room for none.
    pub fn lane(&self, root: &mut Root, name: LaneName) -> Lane
        requires table { root.old.table ≡ self.now.table }
        requires name { name.rank < self.now.ranks }
        requires has { Contains root.old.parts (empty_part name) }
        requires new { root.old.seen ≡ [] }
        ensures lane { result ≡ record { table = self.now.table; name = name; mine = []; seen = []; owes = None; progress = None; set_stop = false; stop_looks = 0; saw_stop = false; ran_looks = no_looks; submitted_looks = no_looks; spare = 0; kept = self.now.trace } }
        ensures root { root.new ≡ record root.old { parts = without name root.old.parts } }
        ensures others { (l : LaneNameData) → l ≢ name → Contains root.old.parts (empty_part l) → Contains root.new.parts (empty_part l) }
    {
        let _ = &self.table;
        let seat = self.split_lane::<Brand>(&mut root.seat, name);
        Lane {
            seat,
            name,
            hand: None,
            owes: None,
            own: LaneRecord::new(self.alloc, self.trace),
        }
    }

    /// Makes room for this many events of the lane.
    ///
    /// # Errors
    ///
    /// `Worn` exactly where they were more than 2^48 with the lane's events; `OutOfMemory` only where the lane keeps a
    /// trace. Then nothing changes.
    pub fn reserve(&self, lane: &mut Lane, count: u32) -> Result<(), ReserveError>
        requires table { lane.old.table ≡ self.now.table }
        ensures room { OnOk result (lane.new ≡ record lane.old { spare = max lane.old.spare count }) }
        ensures worn { (result ≡ Err Worn) ↔ (event_limit < length lane.old.mine + count) }
        ensures memory { result ≡ Err NoMemory → lane.old.kept ≡ true }
        ensures there { count ≤ lane.old.spare → IsOk result }
        ensures refused { OnErr result (lane.new ≡ lane.old) }
    {
        let _ = &self.table;
        lane.own.reserve(count)
    }

    /// The root takes a lane back, with the lane's events, what it knows, and what it did to the stop word. The trace is
    /// given back, where the lane kept one.
    pub fn fold(&self, root: &mut Root, lane: Lane) -> Option<LaneTrace>
        requires table { (root.old.table ≡ self.now.table) × (lane.table ≡ self.now.table) }
        requires free { (lane.owes ≡ None) × (lane.progress ≡ None) }
        ensures parts { root.new.parts ≡ root.old.parts ++ own_part lane.name lane.mine ∷ [] }
        ensures table { (root.new.table ≡ root.old.table) × (root.new.book ≡ root.old.book) × (root.new.room ≡ root.old.room) }
        ensures seen { Begins root.old.seen root.new.seen × Begins lane.seen root.new.seen }
        ensures stop { (root.new.set_stop ≡ (root.old.set_stop || lane.set_stop)) × (root.new.saw_stop ≡ (root.old.saw_stop || lane.saw_stop)) }
        ensures lawful { Lawful self.now (A.may_do self.now.app) root.new.parts root.new.seen }
        ensures no_trace { result ≡ None → lane.kept ≡ false }
        ensures trace { (t : TraceData) → result ≡ Some t → (lane.kept ≡ true) × (t.events ≡ lane.mine) }
    {
        let Lane {
            seat,
            name: _,
            hand: _,
            owes: _,
            own,
        } = lane;
        self.table.shared.join_seat::<Joining>(&mut root.seat, seat);
        self.look(&mut root.seat);
        own.into_trace()
    }
}
