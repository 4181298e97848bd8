//! The cells between the ranks: one up to the parent and one down from it, for each rank but 0.
ghost use Rattle.std.specs.Prelude.{◌≡◌, ◌<◌, IfOk, IfSome};
ghost use Rattle.app_core.specs.Commands.{IsRankCount};

use crate::OutOfMemory;
use crate::cell_state::CellState;
use crate::items::{Announcement, Report};
use crossbeam_utils::CachePadded;
use std::alloc::Global;
use std::marker::Model;
use std::sync::{Mutex, Wait};
use world_carriers::WordsNaming;

// A cell behind its lock.
type Cell<T> = CachePadded<Mutex<CellState<T>>>;

// The two cells between a rank and its parent.
#[derive(Drop)]
struct RankCells<A, J: WordsNaming<A>> {
    up: Cell<Report<A, J>>,
    down: Cell<Announcement<A, J>>,
}

/// The cells of a fence. All mains share them by reference; contracts see for how many ranks they are.
///
/// A lock's value is known by its type alone, so what a cell gives out has what the types of the items state.
#[derive(Drop)]
pub struct FenceCells<A, J: WordsNaming<A>> {
    // Those of rank 1 come first.
    cells: Vec<RankCells<A, J>>,
    ranks: u32,
}

impl<A, J: WordsNaming<A>> Model for FenceCells<A, J> {
    ghost use Rattle.std.specs.Prelude.{◌≡◌, suc, vec_len};
    ghost use Rattle.app_core.specs.Commands.{IsRankCount};
    ghost use Rattle.fence_tree.specs.Verdicts.{CellsView};

    ghost Value = { CellsView };

    ghost view = { λ c. record { ranks = c.ranks } };

    ghost invariant = { λ c. (suc (vec_len c.cells) ≡ c.ranks) × IsRankCount c.ranks };
}

impl<A, J: WordsNaming<A>> FenceCells<A, J> {
    /// Empty cells for these ranks. This is all the memory that they take.
    ///
    /// # Errors
    ///
    /// `OutOfMemory` where there is no room for them.
    pub fn new(alloc: Global, ranks: u32) -> Result<FenceCells<A, J>, OutOfMemory>
        requires { IsRankCount ranks }
        ensures { IfOk result (λ cells. cells.ranks ≡ ranks) }
    {
        let mut cells = Vec::with_capacity(alloc, ranks as usize)?;
        for _rank in 1..ranks {
            cells.push_reserved(RankCells {
                up: CachePadded::new(Mutex::new(CellState::new())),
                down: CachePadded::new(Mutex::new(CellState::new())),
            });
        }
        Ok(FenceCells { cells, ranks })
    }

    // Takes the report of this rank out of its cell, for this pass of this fence. Items of others are let go.
    pub(crate) fn take_report<R: Wait>(
        &self,
        rt: &R,
        rank: u32,
        fence: u32,
        pass: u64,
    ) -> Option<Report<A, J>>
        requires { (0 < rank) × (rank < self.now.ranks) }
        ensures { IfSome result (λ r. (r.rank ≡ rank) × (r.fence ≡ fence) × (r.pass ≡ pass)) }
    {
        for _ in rt.forever() {
            let report = self.cells[rank as usize - 1].up.lock(rt).take()?;
            if report.is_of(rank, fence, pass) {
                return Some(report);
            }
        }
        unreachable!()
    }

    // Puts the report of this rank into its cell. Where that isn't empty, it tries again.
    pub(crate) fn put_report<R: Wait>(&self, rt: &R, rank: u32, report: Report<A, J>)
        requires { (0 < rank) × (rank < self.now.ranks) }
    {
        let mut refused = report;
        for _ in rt.forever() {
            match self.cells[rank as usize - 1].up.lock(rt).put(refused) {
                None => return,
                Some(back) => refused = back,
            }
        }
    }

    // Takes what the parent announced out of this rank's cell, for this pass of this fence. Items of others are let go.
    pub(crate) fn take_announcement<R: Wait>(
        &self,
        rt: &R,
        rank: u32,
        parent: u32,
        fence: u32,
        pass: u64,
    ) -> Option<Announcement<A, J>>
        requires { (0 < rank) × (rank < self.now.ranks) }
        ensures { IfSome result (λ a. (a.rank ≡ parent) × (a.fence ≡ fence) × (a.pass ≡ pass)) }
    {
        for _ in rt.forever() {
            let announcement = self.cells[rank as usize - 1].down.lock(rt).take()?;
            if announcement.is_of(parent, fence, pass) {
                return Some(announcement);
            }
        }
        unreachable!()
    }

    // Puts what is announced to this rank into its cell. Where that isn't empty, it tries again.
    pub(crate) fn put_announcement<R: Wait>(
        &self,
        rt: &R,
        rank: u32,
        announcement: Announcement<A, J>,
    )
        requires { (0 < rank) × (rank < self.now.ranks) }
    {
        let mut refused = announcement;
        for _ in rt.forever() {
            match self.cells[rank as usize - 1].down.lock(rt).put(refused) {
                None => return,
                Some(back) => refused = back,
            }
        }
    }
}
