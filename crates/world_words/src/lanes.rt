//! All lanes of a run, by rank.
ghost use Rattle.std.specs.Prelude.{◌≡◌, ℕ, suc, ◌*◌, ◌<◌, ◌≤◌, true, false, [], map, Contains, IfOk, OnOk};
ghost use Rattle.app_core.specs.Commands.{IsRankCount};
ghost use Rattle.event_lists.specs.declared.lane.LaneName.{LaneName as LaneNameData};
ghost use Rattle.event_books.specs.Books.{lanes_from};
ghost use Rattle.event_laws.specs.Follows.{program_from};
ghost use Rattle.world_rule.specs.Views.{empty_part};
ghost use Rattle.world_words.specs.Closing.{new_lane, new_ranks, AreAllLanes};

use crate::lane::{Lane, Root};
use crate::words::Words;
use app_core::Facts;
use event_lists::LaneName;
use std::alloc::{AllocError as OutOfMemory, Global};
use std::marker::Model;

/// How many bins a rank has.
const BINS: u32 = 16;

/// The lanes of one rank's hands, or of its bins, by number.
#[derive(Drop)]
pub struct RankLanes {
    pub(crate) lanes: Vec<Lane>,
}

impl Model for RankLanes {
    ghost use Rattle.std.specs.Prelude.{List};
    ghost use Rattle.world_words.specs.Lanes.{LaneView};

    ghost Value = { List LaneView };

    ghost view = { λ l. l.lanes.items };
}

impl RankLanes {
    /// These lanes, which are moved in.
    pub fn new(lanes: Vec<Lane>) -> RankLanes
        ensures { result ≡ lanes.items }
    {
        RankLanes { lanes }
    }

    /// The lanes, moved out.
    pub fn into_vec(self) -> Vec<Lane>
        ensures { result.items ≡ self }
    {
        self.lanes
    }
}

/// All lanes of a run: those of the hands by rank and number, the main's first, those of each rank's bins, and the seat
/// that they were made from.
#[derive(Drop)]
pub struct Lanes {
    pub hands: Vec<RankLanes>,
    pub bins: Vec<RankLanes>,
    pub root: Root,
}

impl<A: Facts> Words<A> {
    // The lanes of a rank's hands or bins.
    fn new_rank(
        &self,
        alloc: Global,
        root: &mut Root,
        bin: bool,
        rank: u32,
        count: u32,
    ) -> Result<RankLanes, OutOfMemory>
        requires table { (root.old.table ≡ self.now.table) × (rank < self.now.ranks) }
        requires has { (n : ℕ) → n < count → Contains root.old.parts (empty_part (record { rank = rank; bin = bin; number = n })) }
        requires new { root.old.seen ≡ [] }
        ensures lanes { IfOk result (λ lanes. lanes ≡ map (new_lane self.now) (lanes_from bin rank 0 count)) }
        ensures root { OnOk result (root.new ≡ record root.old { parts = root.new.parts }) }
        ensures others { OnOk result ((l : LaneNameData) → ((l.bin ≡ bin) × (l.rank ≡ rank) → ⊥) → Contains root.old.parts (empty_part l) → Contains root.new.parts (empty_part l)) }
    {
        let mut lanes = Vec::with_capacity(alloc, count as usize)?;
        for number in 0..count {
            let lane = self.lane(root, LaneName { rank, bin, number });
            lanes.push_reserved(lane);
        }
        Ok(RankLanes { lanes })
    }

    // The lanes of all hands or bins, by rank.
    fn new_ranks(
        &self,
        alloc: Global,
        root: &mut Root,
        bin: bool,
        count: u32,
    ) -> Result<Vec<RankLanes>, OutOfMemory>
        requires table { root.old.table ≡ self.now.table }
        requires has { (r n : ℕ) → r < self.now.ranks → n < count → Contains root.old.parts (empty_part (record { rank = r; bin = bin; number = n })) }
        requires new { root.old.seen ≡ [] }
        ensures lanes { IfOk result (λ lanes. lanes.items ≡ new_ranks self.now bin count 0 self.now.ranks) }
        ensures root { OnOk result (root.new ≡ record root.old { parts = root.new.parts }) }
        ensures others { OnOk result ((l : LaneNameData) → (l.bin ≡ bin → ⊥) → Contains root.old.parts (empty_part l) → Contains root.new.parts (empty_part l)) }
    {
        let mut lanes = Vec::with_capacity(alloc, self.ranks as usize)?;
        for rank in 0..self.ranks {
            let row = self.new_rank(alloc, root, bin, rank, count)?;
            lanes.push_reserved(row);
        }
        Ok(lanes)
    }

    /// The words of some ranks, all 0, and the lanes of the main and the workers of each rank, and of its 16 bins, before
    /// any event and with room for none. With `trace` each lane is to keep its events.
    ///
    /// # Errors
    ///
    /// `OutOfMemory` where there is no room for the words, the lanes, or the list of parts that `close` fills.
    pub fn new(
        alloc: Global,
        app: &A,
        ranks: u32,
        workers: u32,
        trace: bool,
    ) -> Result<(Words<A>, Lanes), OutOfMemory>
        requires ranks { IsRankCount ranks }
        requires workers { workers ≤ 4 }
        ensures size { IfOk result (λ r. (r.0.ranks ≡ ranks) × (r.0.workers ≡ workers) × (r.0.trace ≡ trace)) }
        ensures app { IfOk result (λ r. (r.0.app ≡ app.now) × (r.0.program ≡ program_from 1 (A.kinds_of app.now) (A.starts_of app.now))) }
        ensures all { IfOk result (λ r. AreAllLanes r.0 r.1.hands.items r.1.bins.items) }
        ensures hands { IfOk result (λ r. r.1.hands.items ≡ new_ranks r.0 false (suc workers) 0 ranks) }
        ensures bins { IfOk result (λ r. r.1.bins.items ≡ new_ranks r.0 true 16 0 ranks) }
        ensures root { IfOk result (λ r. (r.1.root.table ≡ r.0.table) × (r.1.root.book ≡ []) × (21 * ranks ≤ r.1.root.room)) }
    {
        let (words, mut root) = Words::with_root(alloc, app, ranks, workers, trace)?;
        let hands = words.new_ranks(alloc, &mut root, false, workers + 1)?;
        let bins = words.new_ranks(alloc, &mut root, true, BINS)?;
        Ok((words, Lanes { hands, bins, root }))
    }
}
