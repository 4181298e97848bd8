//! Lists by place.

use std::alloc::{AllocFailed, Global};
use std::mem;

/// The most places that a table has: above those of a tree of any depth.
const MOST_PLACES: usize = 1 << 18;

/// Why something can't be kept.
#[derive(Clone, Copy, Debug, PartialEq, Eq)]
pub enum Unkept {
    /// Something is kept at the place already, or the place is too large.
    Refused,
    /// Memory was refused.
    OutOfMemory,
}

impl<T: Drop> From<AllocFailed<T>> for Unkept {
    fn from(_error: AllocFailed<T>) -> Unkept {
        Unkept::OutOfMemory
    }
}

/// Something for each of some places, in a list that is as long as the largest place so far.
#[derive(Drop)]
pub struct Table<T> {
    slots: Vec<Option<T>>,
    kept: u64,
}

impl<T: Drop> Table<T> {
    /// A table without anything.
    pub fn new(alloc: Global) -> Table<T> {
        Table {
            slots: Vec::new(alloc),
            kept: 0,
        }
    }

    /// How many places have something.
    pub fn kept(&self) -> u64 {
        self.kept
    }

    // Makes the list long enough for a place below `MOST_PLACES`.
    #[inline(never)]
    fn grow(&mut self, place: usize) -> Result<(), Unkept> {
        for _ in self.slots.len()..MOST_PLACES {
            if self.slots.len() > place {
                return Ok(());
            }
            self.slots.push(None)?;
        }
        Ok(())
    }

    /// Keeps something at a place that has nothing yet.
    pub fn put(&mut self, place: u64, kept: T) -> Result<(), Unkept> {
        let Ok(place) = usize::try_from(place) else {
            return Err(Unkept::Refused);
        };
        if place >= self.slots.len() {
            self.grow(place)?;
        }
        match self.slots.get_mut(place) {
            Some(slot) if slot.is_none() => {
                let _ = mem::replace(slot, Some(kept));
                self.kept = self.kept.wrapping_add(1);
                Ok(())
            }
            _ => Err(Unkept::Refused),
        }
    }

    /// What is kept at a place.
    pub fn get(&self, place: u64) -> Option<&T> {
        match usize::try_from(place) {
            Ok(place) => self.slots.get(place)?.as_ref(),
            Err(_) => None,
        }
    }

    /// Takes out what is kept at a place.
    pub fn take(&mut self, place: u64) -> Option<T> {
        let Ok(place) = usize::try_from(place) else {
            return None;
        };
        let taken = self.slots.get_mut(place)?.take()?;
        self.kept = self.kept.wrapping_sub(1);
        Some(taken)
    }
}
