//! Lists that take events, whichever they are.
ghost use Rattle.event_rules.specs.Listed.{AreInRange};

use app_core::OutOfMemory;
use event_core::EventList;
use event_lists::{Event, LaneName, Mark};
use event_search::SearchedList;
use std::alloc::Global;

/// An event, and the lane that it is on.
pub type Step = (LaneName, Event);

/// A list that takes an event, or refuses it.
pub trait Offered {
    /// Whether the list took the event.
    fn offer(&mut self, lane: LaneName, event: &Event) -> Result<bool, OutOfMemory>;

    /// How many events it has.
    fn size(&self) -> usize;
}

impl Offered for EventList {
    fn offer(&mut self, lane: LaneName, event: &Event) -> Result<bool, OutOfMemory> {
        self.add(lane, event)
    }

    fn size(&self) -> usize {
        self.marks().len()
    }
}

impl Offered for SearchedList {
    fn offer(&mut self, lane: LaneName, event: &Event) -> Result<bool, OutOfMemory> {
        self.add(lane, event)
    }

    fn size(&self) -> usize {
        self.marks().len()
    }
}

/// How many of these events a list takes until it refuses one.
pub fn taken<L: Offered>(list: &mut L, steps: &[Step]) -> Result<usize, OutOfMemory> {
    for (i, (lane, event)) in steps.iter().enumerate() {
        if !list.offer(*lane, event)? {
            return Ok(i);
        }
    }
    Ok(steps.len())
}

/// An indexed list and a searched one, which are given the same events.
#[derive(Drop)]
pub struct Both {
    indexed: EventList,
    searched: SearchedList,
}

impl Both {
    /// Two lists without events.
    pub fn new(alloc: Global, ranks: u32, workers: u32) -> Result<Both, OutOfMemory>
        requires { AreInRange ranks workers }
    {
        Ok(Both {
            indexed: EventList::new(alloc, ranks, workers)?,
            searched: SearchedList::new(alloc, ranks, workers),
        })
    }

    /// What both return for an event. None where they don't agree.
    pub fn offer(&mut self, lane: LaneName, event: &Event) -> Result<Option<bool>, OutOfMemory> {
        let indexed = self.indexed.offer(lane, event)?;
        let searched = self.searched.offer(lane, event)?;
        Ok(if indexed == searched {
            Some(indexed)
        } else {
            None
        })
    }

    /// The events that both have. None where they don't agree.
    pub fn marks(&self) -> Option<&[Mark]> {
        if self.indexed.marks() == self.searched.marks() {
            Some(self.indexed.marks())
        } else {
            None
        }
    }
}
