//! The slots of a task's arguments, and how many of them are empty.
ghost use Rattle.std.specs.Prelude.{◌≡◌, ◌<◌, ◌≤◌, ◌↔◌, ℕ, length, map, replicate, slice_set, None, Some, IfErr, IfOk, IsErr, IsTrue, OnErr, OnOk};
ghost use Rattle.depend.specs.Slots.{IsFilled, IsLastEmpty, IsReady, empty_count};

use crate::OutOfMemory;
use crate::refusals::Twice;
use std::alloc::Global;
use std::marker::Model;

/// What filling a slot left.
#[derive(Clone, Copy, Debug, PartialEq, Eq)]
pub enum Learned {
    /// Every slot is filled.
    Ready,
    /// So many slots are still empty, at least one.
    Still(u32),
}

/// The slots of a task's arguments, each empty or filled. Contracts see the list of them.
#[derive(Drop)]
pub struct Waiting<T> {
    slots: Vec<Option<T>>,
    empty: u32,
    // Room for all values, so that `finish` takes no memory.
    values: Vec<T>,
}

impl<T> Model for Waiting<T> {
    ghost use Rattle.std.specs.Prelude.{◌≡◌, ◌≤◌, [], List, Option, vec_len, vec_capacity};
    ghost use Rattle.depend.specs.Slots.{empty_count};

    ghost Value = { List (Option T) };

    ghost view = { λ w. w.slots.items };

    ghost invariant = { λ w.
        (vec_len w.slots ≤ 32)
        × (w.empty ≡ empty_count w.slots.items)
        × (w.values.items ≡ [])
        × (vec_len w.slots ≤ vec_capacity w.values) };
}

impl<T: Drop> Waiting<T> {
    /// `needs` empty slots, at most 32. `OutOfMemory` when memory is refused for them and for their values; no
    /// later call takes any.
    pub fn new(alloc: Global, needs: u32) -> Result<Waiting<T>, OutOfMemory>
        requires { needs ≤ 32 }
        ensures { IfOk result (λ w. w ≡ replicate needs None) }
    {
        let values = Vec::with_capacity(alloc, needs as usize)?;
        let mut slots = Vec::with_capacity(alloc, needs as usize)?;
        for _ in 0..needs {
            slots.push(None)?;
        }
        Ok(Waiting {
            slots,
            empty: needs,
            values,
        })
    }

    /// How many slots there are, empty or filled.
    pub fn needs(&self) -> u32
        ensures { result ≡ length self.now }
    {
        self.slots.len() as u32
    }

    /// Fills the slot `index`, from 0, with the value. `Twice` exactly where that slot was filled: then all slots
    /// stay, and the value comes back.
    pub fn learn(&mut self, index: u32, value: T) -> Result<Learned, Twice<T>>
        requires { index < length self.old }
        ensures filled { OnOk result (self.new ≡ slice_set self.old index (Some value)) }

        // Ready comes exactly at the last empty slot, and finds every slot filled.
        ensures ready { (result ≡ Ok Learned.Ready) ↔ IsLastEmpty self.old index }
        ensures complete { result ≡ Ok Learned.Ready → IsReady self.new }
        ensures still { (n : ℕ) → result ≡ Ok (Learned.Still n) → (0 < n) × (n ≡ empty_count self.new) }

        // A slot is filled once.
        ensures twice { IsErr result ↔ IsFilled self.old index }
        ensures back { IfErr result (λ t. t.value ≡ value) }
        ensures same { OnErr result (self.new ≡ self.old) }
    {
        let at = index as usize;
        if self.slots[at].is_some() {
            return Err(Twice { value });
        }
        self.slots[at] = Some(value);
        self.empty -= 1;
        if self.empty == 0 {
            Ok(Learned::Ready)
        } else {
            Ok(Learned::Still(self.empty))
        }
    }

    /// Whether every slot is filled.
    pub fn is_ready(&self) -> bool
        ensures { IsTrue result ↔ IsReady self.now }
    {
        self.empty == 0
    }

    /// The values, in the order of their slots, all of which are filled.
    pub fn finish(self) -> Vec<T>
        requires { IsReady self }
        ensures { map Some result.items ≡ self }
    {
        let Waiting {
            slots,
            empty: _,
            mut values,
        } = self;
        for slot in slots {
            let Some(value) = slot else {
                unreachable!();
            };
            // `new` made the room.
            let Ok(()) = values.push(value) else {
                unreachable!();
            };
        }
        values
    }
}
