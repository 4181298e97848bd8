//! Books: what each lane of a run wrote.
ghost use Rattle.std.specs.Prelude.{◌≡◌, ◌<◌, ◌↔◌, [], length, reverse, slice_get, Some, IsTrue};
ghost use Rattle.event_books.specs.Books.{IsBook};

use event_lists::{Event, LaneName};
use lane_trace::LaneTrace;
use std::marker::Model;

/// A lane with its events, in order: the trace that the lane kept.
#[derive(Drop)]
pub struct LanePart {
    lane: LaneName,
    trace: LaneTrace,
}

impl Model for LanePart {
    ghost use Rattle.std.specs.Prelude.{reverse};
    ghost use Rattle.event_books.specs.Books.{PartData};

    ghost Value = { PartData };

    ghost view = { λ p. record { lane = p.lane; events = reverse p.trace.events } };
}

impl LanePart {
    /// This lane with the events of this trace, which is moved in.
    pub fn new(lane: LaneName, trace: LaneTrace) -> LanePart
        ensures { result ≡ record { lane = lane; events = reverse trace.events } }
    {
        LanePart { lane, trace }
    }

    pub fn lane(&self) -> LaneName
        ensures { result ≡ self.now.lane }
    {
        self.lane
    }

    /// How many events there are.
    pub fn len(&self) -> usize
        ensures { result ≡ length self.now.events }
    {
        self.trace.len()
    }

    /// Whether there are none.
    pub fn is_empty(&self) -> bool
        ensures { IsTrue result ↔ (self.now.events ≡ []) }
    {
        self.trace.len() == 0
    }

    /// The event at an index, from 0 for the oldest.
    pub fn event_at(&self, index: usize) -> Event
        requires { index < length self.now.events }
        ensures { slice_get self.now.events index ≡ Some result }
    {
        self.trace.event_at(index)
    }

    /// The trace, moved out.
    pub fn into_trace(self) -> LaneTrace
        ensures { reverse result.events ≡ self.events }
    {
        self.trace
    }
}

/// The parts of the lanes of a run, over 1 to 16 ranks with 0 to 4 workers each.
///
/// Each lane that wrote an event is there once, and no other: hands first, by rank and number, then bins, by rank and
/// number. Each receipt has a row for each rank.
#[derive(Drop)]
pub struct Book {
    ranks: u32,
    workers: u32,
    parts: Vec<LanePart>,
}

impl Model for Book {
    ghost use Rattle.event_books.specs.Books.{BookData, IsBook};

    ghost Value = { BookData };

    ghost view = { λ b. record { ranks = b.ranks; workers = b.workers; parts = b.parts.items } };

    ghost invariant = { λ b. IsBook (record { ranks = b.ranks; workers = b.workers; parts = b.parts.items }) };
}

impl Book {
    /// A book of these parts, which are moved in.
    pub fn new(ranks: u32, workers: u32, parts: Vec<LanePart>) -> Book
        requires { IsBook (record { ranks = ranks; workers = workers; parts = parts.items }) }
        ensures { result ≡ record { ranks = ranks; workers = workers; parts = parts.items } }
    {
        Book {
            ranks,
            workers,
            parts,
        }
    }

    /// From 1 to 16.
    pub fn ranks(&self) -> u32
        ensures ranks { result ≡ self.now.ranks }
        ensures book { IsBook self.now }
    {
        self.ranks
    }

    /// From 0 to 4.
    pub fn workers(&self) -> u32
        ensures { result ≡ self.now.workers }
    {
        self.workers
    }

    /// The lanes with their events, in order.
    pub fn parts(&self) -> &[LanePart]
        ensures { result.now ≡ self.now.parts }
    {
        &self.parts
    }

    /// The lanes with their events, moved out.
    pub fn into_parts(self) -> Vec<LanePart>
        ensures { result.items ≡ self.parts }
    {
        self.parts
    }
}
