//! The effects of a step.
ghost use Rattle.std.specs.Prelude.{◌≡◌, ◌↔◌, ◌<◌, ◌≤◌, [], ◌∷◌, ◌++◌, IfOk, OnOk, OnErr, IsTrue, length, vec_len, vec_capacity};
ghost use Rattle.app_core.specs.declared.effect.Effect.TheVariants.{SpawnNeeding as Waiting};
ghost use Rattle.smallvec.specs.SmallVec.{HasRoomFor};
ghost use Rattle.app_core.specs.Needs.{AreDistinct, max_needs};

use crate::OutOfMemory;
use crate::effect::Effect;
use crate::effect_queue::EffectQueue;
use crate::effect_with::{EffectWith, Span};
use crate::label::Label;
use smallvec::SmallVec;
use std::alloc::Global;
use std::marker::Model;
use std::mem;

/// The effects of a step, in order. Contracts see their list.
///
/// An effect is stored without its needs; the labels of all needs are in one list beside the effects.
#[derive(Drop)]
pub struct Effects<U, V, C> {
    items: Vec<EffectWith<U, V, C, Span>>,
    labels: SmallVec<Label, 2>,
}

impl<U, V, C> Model for Effects<U, V, C> {
    ghost use Rattle.std.specs.Prelude.{List, map};
    ghost use Rattle.std.specs.List.{AllByRecursion};
    ghost use Rattle.app_core.specs.declared.effect.Effect.{Effect};
    ghost use Rattle.app_core.specs.StoredEffects.{stored_effect, IsStored};

    ghost Value = { List (Effect U V C) };

    ghost view = { λ e. map (stored_effect e.labels.items) e.items.items };

    ghost invariant = { λ e. AllByRecursion (IsStored e.labels.items) e.items.items };
}

impl<U, V, C> Effects<U, V, C> {
    /// No effects. It takes no memory yet; `alloc` is where it will come from.
    pub fn new(alloc: Global) -> Effects<U, V, C>
        ensures { result ≡ [] }
    {
        Effects {
            items: Vec::new(alloc),
            labels: SmallVec::new(alloc),
        }
    }

    /// No effects, and room for so many.
    #[inline(always)]
    pub fn with_capacity(alloc: Global, count: usize) -> Result<Effects<U, V, C>, OutOfMemory>
        ensures { IfOk result (λ e. e ≡ []) }
    {
        let Ok(items) = Vec::with_capacity(alloc, count) else {
            return Err(OutOfMemory);
        };
        Ok(Effects {
            items,
            labels: SmallVec::new(alloc),
        })
    }

    /// How many there are.
    pub fn len(&self) -> usize
        ensures { result ≡ length self.now }
    {
        self.items.len()
    }

    /// Whether there are none.
    pub fn is_empty(&self) -> bool
        ensures { IsTrue result ↔ (self.now ≡ []) }
    {
        self.items.is_empty()
    }

    /// The effects, to be taken out one after another. It takes no memory.
    #[inline(always)]
    pub fn queue(&mut self) -> EffectQueue<'_, U, V, C>
        ensures { result ≡ self.old }
    {
        let alloc = *self.items.allocator();
        let items = mem::replace(&mut self.items, Vec::new(alloc));
        EffectQueue::new(items, self.labels.as_slice())
    }
}

impl<U: Drop, V: Drop, C: Drop> Effects<U, V, C> {
    /// Adds an effect last. When memory is refused the effect is dropped, and those before stay.
    #[inline(always)]
    pub fn push(&mut self, effect: Effect<U, V, C>) -> Result<(), OutOfMemory>
        ensures ok { OnOk result (self.new ≡ self.old ++ effect ∷ []) }
        ensures err { OnErr result (self.new ≡ self.old) }
    {
        match effect {
            Effect::Spawn(unit) => append(&mut self.items, EffectWith::Spawn(unit)),
            Effect::SpawnNeeding(unit, needs) => {
                let _ = needs.len();
                self.push_needing(unit, needs.labels())
            }
            Effect::Give(future, value) => append(&mut self.items, EffectWith::Give(future, value)),
            Effect::Put(entry, cell) => append(&mut self.items, EffectWith::Put(entry, cell)),
            Effect::Erase(entry) => append(&mut self.items, EffectWith::Erase(entry)),
        }
    }

    /// Adds a spawn of a unit with these needs last. When memory is refused the unit is dropped, and the
    /// effects before stay.
    #[inline(always)]
    pub fn push_needing(&mut self, unit: U, labels: &[Label]) -> Result<(), OutOfMemory>
        requires within { length labels.now ≤ max_needs }
        requires distinct { AreDistinct labels.now }
        ensures ok { OnOk result (self.new ≡ self.old ++ Waiting unit labels.now ∷ []) }
        ensures err { OnErr result (self.new ≡ self.old) }
    {
        let span = Span {
            from: self.labels.len(),
            count: labels.len(),
        };
        if add_labels(&mut self.labels, labels).is_err() {
            return Err(OutOfMemory);
        }
        if append(&mut self.items, EffectWith::SpawnNeeding(unit, span)).is_err() {
            return Err(OutOfMemory);
        }
        Ok(())
    }
}

// Adds an item last. Of growing, only the test is inlined.
#[inline(always)]
fn append<T: Drop>(items: &mut Vec<T>, item: T) -> Result<(), OutOfMemory>
    ensures ok { OnOk result (items.new.items ≡ items.old.items ++ item ∷ []) }
    ensures err { OnErr result (items.new.items ≡ items.old.items) }
{
    if items.len() >= items.capacity() {
        make_room(items)?;
    }
    items.push_reserved(item);
    Ok(())
}

// Makes room for four more items.
#[inline(never)]
fn make_room<T>(items: &mut Vec<T>) -> Result<(), OutOfMemory>
    ensures items { items.new.items ≡ items.old.items }
    ensures room { OnOk result (vec_len items.new < vec_capacity items.new) }
{
    if items.reserve(4).is_err() {
        return Err(OutOfMemory);
    }
    Ok(())
}

// Adds labels last. Of growing, only the test is inlined.
#[inline(always)]
fn add_labels(all: &mut SmallVec<Label, 2>, labels: &[Label]) -> Result<(), OutOfMemory>
    ensures ok { OnOk result (all.new.items ≡ all.old.items ++ labels.now) }
    ensures err { OnErr result (all.new.items ≡ all.old.items) }
{
    if all.capacity() - all.len() < labels.len() {
        make_room_for_labels(all, labels.len())?;
    }
    for label in labels {
        all.push_reserved(*label);
    }
    Ok(())
}

// Makes room for so many more labels.
#[inline(never)]
fn make_room_for_labels(all: &mut SmallVec<Label, 2>, count: usize) -> Result<(), OutOfMemory>
    ensures items { all.new.items ≡ all.old.items }
    ensures room { OnOk result (HasRoomFor all.new count) }
{
    if all.reserve(count).is_err() {
        return Err(OutOfMemory);
    }
    Ok(())
}
