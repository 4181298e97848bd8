//! The list.
ghost use Rattle.std.specs.Prelude.{◌≡◌, ◌↔◌, ◌≤◌, [], ◌∷◌, reverse, IfOk, OnErr, IsTrue, IsFalse};
ghost use Rattle.event_rules.specs.Listed.{AreInRange, HasLegalLog, Allows, on};
ghost use Rattle.app_core.specs.Commands.{IsRankCount};

use app_core::OutOfMemory;
use event_lists::{Event, LaneName, Mark};
use event_rules::allows;
use std::alloc::Global;
use std::marker::Model;

/// A legal list of events over 1 to 16 ranks and 0 to 4 workers.
///
/// Contracts see the numbers of ranks and workers, and the events with the newest first.
#[derive(Drop)]
pub struct SearchedList {
    ranks: u32,
    workers: u32,
    marks: Vec<Mark>,
}

impl Model for SearchedList {
    ghost use Rattle.event_rules.specs.Listed.{Listed};
    ghost use Rattle.event_search.specs.Searched.{listed, IsKept};

    ghost Value = { Listed };

    ghost view = { λ s. listed s.ranks s.workers s.marks.items };

    ghost invariant = { λ s. IsKept (listed s.ranks s.workers s.marks.items) };
}

impl SearchedList {
    /// A list without events, over these numbers of ranks and workers. It takes no memory yet; `alloc` is where it will
    /// come from.
    pub fn new(alloc: Global, ranks: u32, workers: u32) -> SearchedList
        requires range { AreInRange ranks workers }
        ensures { result ≡ record { ranks = ranks; workers = workers; log = [] } }
    {
        SearchedList {
            ranks,
            workers,
            marks: Vec::new(alloc),
        }
    }

    /// The number of ranks, from 1 to 16.
    pub fn ranks(&self) -> u32
        ensures ranks { result ≡ self.now.ranks }
        ensures range { IsRankCount result }
    {
        self.ranks
    }

    /// The number of workers of each rank, from 0 to 4.
    pub fn workers(&self) -> u32
        ensures workers { result ≡ self.now.workers }
        ensures range { result ≤ 4 }
    {
        self.workers
    }

    /// The events, the oldest first. They are legal.
    pub fn marks(&self) -> &[Mark]
        ensures marks { reverse result.now ≡ self.now.log }
        ensures legal { HasLegalLog self.now }
    {
        self.marks.as_slice()
    }

    /// Adds an event on a lane, when the longer list is legal. False exactly when it isn't, and then the list stays
    /// as it is. When memory is refused for an event that may be added, it stays as it is too.
    pub fn add(&mut self, lane: LaneName, event: &Event) -> Result<bool, OutOfMemory>
        ensures allowed { IfOk result (λ added. IsTrue added ↔ Allows self.old lane event.now) }
        ensures added { IfOk result (λ added. IsTrue added → self.new ≡ record self.old { log = on lane event.now ∷ self.old.log }) }
        ensures refused { IfOk result (λ added. IsFalse added → self.new ≡ self.old) }
        ensures no_memory { OnErr result (self.new ≡ self.old) }
        ensures err_allowed { OnErr result (Allows self.old lane event.now) }
    {
        // A use of a field makes it known that the list is legal, of which the decision has need.
        let _ = &self.marks;
        if !allows(&*self, lane, event) {
            return Ok(false);
        }
        let mark = Mark {
            lane,
            event: *event,
            effect: None,
        };
        match self.marks.push(mark) {
            Ok(()) => Ok(true),
            Err(_) => Err(OutOfMemory),
        }
    }
}
