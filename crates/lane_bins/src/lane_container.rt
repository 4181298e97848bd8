//! The bins of a rank with their lanes, each behind a lock.
ghost use Rattle.std.specs.Prelude.{◌≡◌, ◌<◌, true, map, All, IfOk, IfSome};
ghost use Rattle.event_books.specs.Books.{lanes_from};
ghost use Rattle.event_laws.specs.Follows.{bin_of as lane_of_bin};
ghost use Rattle.world_words.specs.Closing.{name_of, IsFree};
ghost use Rattle.lane_bins.specs.LaneBins.{IsNewBinLane};

use crate::lane_bin::LaneBin;
use app_core::{App, CellName};
use container::{OutOfMemory, bin_of};
use crossbeam_utils::CachePadded;
use event_lists::LaneName;
use std::alloc::Global;
use std::marker::Model;
use std::sync::{Mutex, MutexGuard, Wait};
use world_carriers::WordsNaming;
use world_words::{Lane, RankLanes};

/// A rank's share of the containers: 16 bins with their lanes, each behind a lock. Contracts see the rank.
#[derive(Drop)]
pub struct LaneContainer<A: App, J: WordsNaming<A>> {
    rank: u32,
    bins: Vec<CachePadded<Mutex<LaneBin<A, J>>>>,

    // Empty, with room for the lanes that `into_lanes` gives back.
    room: Vec<Lane>,
}

impl<A: App, J: WordsNaming<A>> Model for LaneContainer<A, J> {
    ghost use Rattle.std.specs.Prelude.{◌≡◌, ◌≤◌, ℕ, [], vec_len, vec_capacity};

    ghost Value = { ℕ };

    ghost view = { λ c. c.rank };

    ghost invariant = { λ c. (vec_len c.bins ≡ 16) × (c.room.items ≡ []) × (16 ≤ vec_capacity c.room) };
}

/// A bin whose lock is taken until the accessor is dropped. Contracts see the bin.
#[derive(Drop)]
pub struct LaneAccessor<'a, A: App, J: WordsNaming<A>> {
    guard: MutexGuard<'a, LaneBin<A, J>>,
}

impl<'a, A: App, J: WordsNaming<A>> Model for LaneAccessor<'a, A, J> {
    ghost use Rattle.std.specs.FinMap as fin;
    ghost use Rattle.std.specs.Sync.Mutex.{mutex_guard_value};
    ghost use Rattle.container.specs.Names.{name_code};
    ghost use Rattle.container.specs.contracts.look_ups.LookUp as look_ups;
    ghost use Rattle.container.specs.BinState.{bin_code};
    ghost use Rattle.world_words.specs.contracts.lane.Lane as lanes;
    ghost use Rattle.lane_bins.specs.LaneBins.{LaneBinData, lane_bin_code};

    ghost Value = { LaneBinData A.Cell };

    ghost coded = { lane_bin_code (bin_code (fin.code name_code A.Cell.code) look_ups.the_row.coded) lanes.the_row.coded };

    ghost view = { λ a. mutex_guard_value a.guard };
}

impl<A: App, J: WordsNaming<A>> LaneContainer<A, J> {
    /// The 16 bins of a rank, without entries, with these lanes: those of the rank's bins, by number, without events, of
    /// the words that `J` names.
    ///
    /// # Errors
    ///
    /// `OutOfMemory` where there is no room for them. The lanes are let go.
    pub fn new(
        alloc: Global,
        rank: u32,
        lanes: RankLanes,
    ) -> Result<LaneContainer<A, J>, OutOfMemory>
        requires names { map name_of lanes ≡ lanes_from true rank 0 16 }
        requires new { All (IsNewBinLane J.words) lanes }
        ensures { IfOk result (λ c. c ≡ rank) }
    {
        let mut bins = Vec::with_capacity(alloc, 16)?;
        let room = Vec::with_capacity(alloc, 16)?;
        for lane in lanes.into_vec() {
            bins.push_reserved(CachePadded::new(Mutex::new(LaneBin::new(alloc, lane))));
        }
        Ok(LaneContainer { rank, bins, room })
    }

    /// The rank.
    pub fn rank(&self) -> u32
        ensures { result ≡ self.now }
    {
        self.rank
    }

    /// Takes the lock of the bin that a name belongs to. It may wait for other threads.
    pub fn access<'a, R: Wait>(&'a self, rt: &'a R, name: CellName) -> LaneAccessor<'a, A, J>
        ensures bin { result.lane.name ≡ lane_of_bin self.now name }
    {
        self.access_bin(rt, bin_of(name))
    }

    /// Takes the lock of the bin with this number, below 16. It may wait for other threads.
    ///
    /// What a lock has is known by its type alone, so it looks at the bin's name, and looks again where this is another.
    pub fn access_bin<'a, R: Wait>(&'a self, rt: &'a R, number: u32) -> LaneAccessor<'a, A, J>
        requires number { number < 16 }
        ensures bin { result.lane.name ≡ record { rank = self.now; bin = true; number = number } }
    {
        let sought = LaneName {
            rank: self.rank,
            bin: true,
            number,
        };
        for _ in rt.forever() {
            let guard = self.bins[number as usize].lock(rt);
            if guard.name() == sought {
                return LaneAccessor { guard };
            }
        }
        unreachable!()
    }

    /// All lanes of the rank's bins, by number. The entries are let go.
    ///
    /// Where a bin has another name than its place has, it doesn't return.
    pub fn into_lanes<R: Wait>(self, rt: &R) -> RankLanes
        ensures names { map name_of result ≡ lanes_from true self 0 16 }
        ensures free { IfSome J.words (λ words. All (IsFree words) result) }
    {
        let LaneContainer {
            rank,
            bins,
            room: mut lanes,
        } = self;
        let mut number = 0u32;
        for bin in bins {
            let name = LaneName {
                rank,
                bin: true,
                number,
            };
            lanes.push_reserved(lane_named(rt, bin.into_inner().into_inner(), name));
            number += 1;
        }
        RankLanes::new(lanes)
    }
}

// The lane of a bin, where it has this name; else it doesn't return.
fn lane_named<A: App, J: WordsNaming<A>, R: Wait>(
    rt: &R,
    bin: LaneBin<A, J>,
    name: LaneName,
) -> Lane
    ensures name { result.name ≡ name }
    ensures free { IfSome J.words (λ words. IsFree words result) }
{
    if bin.name() == name {
        return bin.into_lane();
    }
    for _ in rt.forever() {}
    unreachable!()
}

impl<'a, A: App, J: WordsNaming<A>> LaneAccessor<'a, A, J> {
    /// The bin.
    pub fn bin(&mut self) -> &mut LaneBin<A, J>
        ensures bin { result.now ≡ self.old }
    {
        &mut self.guard
    }
}
