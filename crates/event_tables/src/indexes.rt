//! What is kept of a list of events, so that the next event is judged without a search.
ghost use Rattle.std.specs.Prelude.{◌≡◌, ℕ, ◌<◌, List, [], ◌∷◌, length, OnOk};
ghost use Rattle.event_lists.specs.declared.mark.Mark.{Mark as MarkData};
ghost use Rattle.event_lists.specs.Legal.{Legal};
ghost use Rattle.event_rules.specs.Listed.{on};
ghost use Rattle.event_rules.specs.Shown.{ShowsLane};
ghost use Rattle.event_tables.specs.Contents.{max_events};
ghost use Rattle.event_tables.specs.Indexed.{Keeps, HasSameValues, HasRoom};

use crate::keys::{CountName, EntryName, PassName};
use crate::table::Table;
use crate::{counts, futures, items, lacking, lanes, puts, receipts};
use app_core::OutOfMemory;
use event_lists::{Bringer, Event, Future, Item, LaneName, Row};
use event_rules::{Found, LaneState, Made, Recent};
use std::alloc::Global;

const IDLE: LaneState = LaneState {
    hand: None,
    own: None,
    keeps: false,
    fresh: false,
    fence: None,
    entered: 0,
    passes: 0,
    recent: Recent {
        first: None,
        second: None,
        third: None,
    },
};

/// The tables of a list of events.
#[derive(Drop)]
pub struct Indexes {
    pub lanes: Table<LaneName, LaneState>,
    pub items: Table<Item, Option<Made>>,
    pub futures: Table<Future, Found>,
    pub lacking: Table<Bringer, u64>,
    pub counts: Table<CountName, u64>,
    pub rows: Table<PassName, Option<Row>>,
    pub receipts: Table<u32, bool>,
    pub puts: Table<EntryName, bool>,
}

impl Indexes {
    /// Those of no events.
    pub fn new(alloc: Global) -> Indexes
        ensures { Keeps [] result }
    {
        Indexes {
            lanes: Table::new(alloc, IDLE),
            items: Table::new(alloc, None),
            futures: futures::empty(alloc),
            lacking: lacking::empty(alloc),
            counts: Table::new(alloc, 0),
            rows: Table::new(alloc, None),
            receipts: Table::new(alloc, false),
            puts: Table::new(alloc, false),
        }
    }

    /// Makes room for an event on a lane in this state.
    pub fn room(
        &mut self,
        state: &LaneState,
        lane: LaneName,
        event: &Event,
    ) -> Result<(), OutOfMemory>
        ensures values { HasSameValues self.old self.new }
        ensures room { OnOk result (HasRoom self.new state.now lane event.now) }
    {
        lanes::room(&mut self.lanes, lane)?;
        items::room(&mut self.items, lane, event)?;
        futures::room(&mut self.futures, state, lane, event)?;
        lacking::room(&mut self.lacking, state, lane, event)?;
        counts::room(&mut self.counts, lane, event)?;
        receipts::room_for_row(&mut self.rows, lane, event)?;
        receipts::room_for_receipt(&mut self.receipts, event)?;
        puts::room(&mut self.puts, lane, event)
    }

    /// Notes an event, for which there is room, on a lane that was in this state before.
    pub fn note(&mut self, state: &LaneState, lane: LaneName, event: &Event)
        requires room { HasRoom self.old state.now lane event.now }
        ensures { (ranks workers : ℕ) (log : List MarkData) → Legal ranks workers (on lane event.now ∷ log) → length log < max_events
            → ShowsLane log lane state.now → Keeps log self.old → Keeps (on lane event.now ∷ log) self.new }
    {
        lanes::note(&mut self.lanes, &self.items, lane, event);
        items::note(&mut self.items, state, lane, event);
        lacking::note(&mut self.lacking, &self.futures, state, lane, event);
        futures::note(&mut self.futures, state, lane, event);
        counts::note(&mut self.counts, lane, event);
        receipts::note_row(&mut self.rows, state, lane, event);
        receipts::note_receipt(&mut self.receipts, event);
        puts::note(&mut self.puts, lane, event);
    }
}
