//! The list of the events of a run.
ghost use Rattle.std.specs.Prelude.{◌≡◌, ◌↔◌, ◌≤◌, [], ◌∷◌, Ok, Err, true, false, OnOk, OnErr, IfOk, IsTrue, IsFalse, reverse};
ghost use Rattle.app_core.specs.Commands.{IsRankCount};
ghost use Rattle.event_lists.specs.declared.event.Event.TheVariants.{Receipt as Receives};
ghost use Rattle.event_lists.specs.declared.receipt.Receipt.{Receipt as ReceiptData};
ghost use Rattle.event_lists.specs.Quiet.{Quiet};
ghost use Rattle.event_rules.specs.Listed.{on, HasLegalLog, Allows, AreInRange};

use app_core::{CellName, OutOfMemory};
use event_lists::{Bringer, Event, Future, Item, Kind, LaneName, Mark, Row};
use event_rules::{Found, LaneState, Made, Past, allows};
use event_tables::{CountName, EntryName, Indexes, PassName, lacks_dues};
use std::alloc::Global;
use std::marker::Model;

const MAX_EVENTS: usize = 1 << 48;

/// A legal list of events over a number of ranks and workers, which takes one more exactly where it stays legal.
///
/// It keeps indexes of its events, so that an event costs the logarithm of the list.
#[derive(Drop)]
pub struct EventList {
    ranks: u32,
    workers: u32,
    marks: Vec<Mark>,
    indexes: Indexes,
}

impl Model for EventList {
    ghost use Rattle.std.specs.Prelude.{reverse};
    ghost use Rattle.event_rules.specs.Listed.{Listed};
    ghost use Rattle.event_tables.specs.Indexed.{IsKept};

    ghost Value = { Listed };

    ghost view = { λ s. record { ranks = s.ranks; workers = s.workers; log = reverse s.marks.items } };

    ghost invariant = { λ s. IsKept s.ranks s.workers (reverse s.marks.items) s.indexes };
}

impl EventList {
    /// No events, over 1 to 16 ranks with 0 to 4 workers each. `OutOfMemory` comes only when memory is refused.
    pub fn new(alloc: Global, ranks: u32, workers: u32) -> Result<EventList, OutOfMemory>
        requires range { AreInRange ranks workers }
        ensures { IfOk result (λ s. s ≡ record { ranks = ranks; workers = workers; log = [] }) }
    {
        Ok(EventList {
            ranks,
            workers,
            marks: Vec::new(alloc),
            indexes: Indexes::new(alloc),
        })
    }

    /// From 1 to 16.
    pub fn ranks(&self) -> u32
        ensures ranks { result ≡ self.now.ranks }
        ensures range { IsRankCount result }
    {
        self.ranks
    }

    /// From 0 to 4.
    pub fn workers(&self) -> u32
        ensures workers { result ≡ self.now.workers }
        ensures range { result ≤ 4 }
    {
        self.workers
    }

    /// Adds an event to the end, and returns true, exactly when the longer list is legal. Otherwise, and when memory
    /// is refused, the list stays as it is.
    pub fn add(&mut self, lane: LaneName, event: &Event) -> Result<bool, OutOfMemory>
        ensures allowed { IfOk result (λ added. IsTrue added ↔ Allows self.old lane event.now) }
        ensures added { IfOk result (λ added. IsTrue added → self.new ≡ record self.old { log = on lane event.now ∷ self.old.log }) }
        ensures refused { IfOk result (λ added. IsFalse added → self.new ≡ self.old) }
        ensures no_memory { OnErr result (self.new ≡ self.old) }
        ensures err_allowed { OnErr result (Allows self.old lane event.now) }
        ensures legal { HasLegalLog self.new }
        ensures quiet { IfOk result (λ added. IsTrue added → (r : ReceiptData) → event.now ≡ Receives r → Quiet self.new.log self.old.log r) }
    {
        if !allows(&*self, lane, event) {
            return Ok(false);
        }
        if self.marks.len() >= MAX_EVENTS {
            return Err(OutOfMemory);
        }
        let state = self.indexes.lanes.get(lane);
        self.indexes.room(&state, lane, event)?;
        let mark = Mark {
            lane,
            event: *event,
            effect: None,
        };
        match self.marks.push(mark) {
            Ok(()) => {
                self.indexes.note(&state, lane, event);
                Ok(true)
            }
            Err(_) => Err(OutOfMemory),
        }
    }

    /// The events in order, the oldest first. They are legal.
    pub fn marks(&self) -> &[Mark]
        ensures marks { reverse result.now ≡ self.now.log }
        ensures legal { HasLegalLog self.now }
    {
        &self.marks
    }
}

impl Past for EventList {
    ghost ranks_of = { λ s. s.ranks };

    ghost workers_of = { λ s. s.workers };

    ghost log_of = { λ s. s.log };

    fn ranks(&self) -> u32 {
        self.ranks
    }

    fn workers(&self) -> u32 {
        self.workers
    }

    fn lane(&self, lane: LaneName) -> LaneState {
        self.indexes.lanes.get(lane)
    }

    fn item(&self, item: Item) -> Option<Made> {
        self.indexes.items.get(item)
    }

    fn future(&self, future: Future) -> Found {
        self.indexes.futures.get(future)
    }

    fn lacks_dues(&self, bringer: Bringer) -> bool {
        lacks_dues(&self.indexes.lacking, bringer)
    }

    fn count(&self, kind: Kind, rank: u32) -> u64 {
        self.indexes.counts.get(CountName { rank, kind })
    }

    fn row(&self, fence: u32, pass: u64, rank: u32) -> Option<Row> {
        self.indexes.rows.get(PassName { rank, fence, pass })
    }

    fn has_receipt(&self, fence: u32) -> bool {
        self.indexes.receipts.get(fence)
    }

    fn is_put(&self, lane: LaneName, name: CellName) -> bool {
        self.indexes.puts.get(EntryName { lane, name })
    }
}
