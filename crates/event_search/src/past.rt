//! What the rules ask of the list.
use crate::list::SearchedList;
use crate::{dues, fences, items, lanes};
use app_core::CellName;
use event_lists::{Bringer, Future, Item, Kind, LaneName, Row};
use event_rules::{Found, LaneState, Made, Past};

impl Past for SearchedList {
    ghost ranks_of = { λ s. s.ranks };

    ghost workers_of = { λ s. s.workers };

    ghost log_of = { λ s. s.log };

    fn ranks(&self) -> u32 {
        self.ranks()
    }

    fn workers(&self) -> u32 {
        self.workers()
    }

    fn lane(&self, lane: LaneName) -> LaneState {
        let marks = self.marks();
        let own = items::own_due(lane, marks);
        LaneState {
            hand: lanes::in_hand(lane, marks),
            own,
            keeps: own.is_some_and(|due| lanes::is_kept(due.label, lane, marks)),
            fresh: lanes::is_fresh(lane, marks),
            fence: lanes::fence_in(lane, marks),
            entered: lanes::enters(lane, marks),
            passes: fences::passes(lane, marks),
            recent: fences::recent(lane, marks),
        }
    }

    fn item(&self, item: Item) -> Option<Made> {
        let marks = self.marks();
        let load = items::load_of(item, marks)?;
        Some(Made {
            load,
            by: items::spawner_of(item, marks),
            due: items::due_of(item, marks),
            taken: items::is_taken(item, marks),
        })
    }

    fn future(&self, future: Future) -> Found {
        let marks = self.marks();
        Found {
            due: dues::was_due(future.by, future.label, marks),
            needed: dues::was_needed(future.by, future.label, marks),
            given: dues::was_given(future, marks),
        }
    }

    fn lacks_dues(&self, bringer: Bringer) -> bool {
        dues::lacks_dues(bringer, self.marks(), self.marks())
    }

    fn count(&self, kind: Kind, rank: u32) -> u64 {
        fences::count(kind, rank, self.marks())
    }

    fn row(&self, fence: u32, pass: u64, rank: u32) -> Option<Row> {
        let main = LaneName {
            rank,
            bin: false,
            number: 0,
        };
        fences::row_of(fence, pass, main, self.marks())
    }

    fn has_receipt(&self, fence: u32) -> bool {
        fences::has_receipt(fence, self.marks())
    }

    fn is_put(&self, lane: LaneName, name: CellName) -> bool {
        lanes::is_put(name, lane, self.marks())
    }
}
