//! Effects that are being taken out.
ghost use Rattle.std.specs.Prelude.{◌≡◌, ◌↔◌, ◌<◌, ◌++◌, [], IsTrue, IsSome, IfSome, length, map};
ghost use Rattle.std.specs.List.{AllByRecursion};
ghost use Rattle.app_core.specs.StoredEffects.{stored_effect, effect_of, lent_effects, IsStored, HasNeeds};

use crate::effect_with::{EffectWith, LentEffect, Span};
use crate::label::Label;
use std::collections::VecDeque;
use std::marker::Model;

/// Effects that are being taken out, in order. Each lends the labels of its needs. Contracts see the list of those
/// that are left.
#[derive(Drop)]
pub struct EffectQueue<'a, U, V, C> {
    items: VecDeque<EffectWith<U, V, C, Span>>,
    labels: &'a [Label],
}

impl<'a, U, V, C> Model for EffectQueue<'a, U, V, C> {
    ghost use Rattle.std.specs.Prelude.{List, map};
    ghost use Rattle.std.specs.List.{AllByRecursion};
    ghost use Rattle.app_core.specs.declared.effect.Effect.{Effect};
    ghost use Rattle.app_core.specs.StoredEffects.{stored_effect, IsStored};

    ghost Value = { List (Effect U V C) };

    ghost view = { λ q. map (stored_effect q.labels.now) q.items.items };

    ghost invariant = { λ q. AllByRecursion (IsStored q.labels.now) q.items.items };
}

impl<'a, U, V, C> EffectQueue<'a, U, V, C> {
    // These effects beside these labels. It takes no memory.
    #[inline(always)]
    pub(crate) fn new(
        items: Vec<EffectWith<U, V, C, Span>>,
        labels: &'a [Label],
    ) -> EffectQueue<'a, U, V, C>
        requires { AllByRecursion (IsStored labels.now) items.items }
        ensures { result ≡ map (stored_effect labels.now) items.items }
    {
        EffectQueue {
            items: VecDeque::from_vec(items),
            labels,
        }
    }

    /// How many are left.
    pub fn len(&self) -> usize
        ensures { result ≡ length self.now }
    {
        self.items.len()
    }

    /// Whether none is left.
    pub fn is_empty(&self) -> bool
        ensures { IsTrue result ↔ (self.now ≡ []) }
    {
        self.items.is_empty()
    }

    /// Takes the first effect out. None exactly where there is none. It takes no memory.
    #[inline(always)]
    pub fn take_first(&mut self) -> Option<LentEffect<'a, U, V, C>>
        ensures some { IsSome result ↔ (0 < length self.old) }
        ensures rest { self.old ≡ lent_effects result ++ self.new }
        ensures needs { IfSome result HasNeeds }
    {
        match self.items.pop_front() {
            None => None,
            Some(item) => Some(lend(item, self.labels)),
        }
    }
}

// The effect with the labels at its span.
#[inline(always)]
fn lend<'a, U, V, C>(
    item: EffectWith<U, V, C, Span>,
    labels: &'a [Label],
) -> LentEffect<'a, U, V, C>
    requires { IsStored labels.now item }
    ensures same { effect_of (λ l. l.now) result ≡ stored_effect labels.now item }
    ensures needs { HasNeeds result }
{
    match item {
        EffectWith::Spawn(unit) => EffectWith::Spawn(unit),
        EffectWith::SpawnNeeding(unit, span) => {
            let rest = &labels[span.from..];
            EffectWith::SpawnNeeding(unit, &rest[..span.count])
        }
        EffectWith::Give(future, value) => EffectWith::Give(future, value),
        EffectWith::Put(entry, cell) => EffectWith::Put(entry, cell),
        EffectWith::Erase(entry) => EffectWith::Erase(entry),
    }
}

#[cfg(test)]
mod tests {
    use super::*;
    use crate::effect::Effect;
    use crate::effects::Effects;
    use crate::label::CellName;
    use crate::needs::Needs;
    use std::test::Fail;

    fn future(place: u64) -> Label {
        Label {
            command: 1,
            part: 0,
            place,
        }
    }

    const ENTRY: CellName = CellName {
        version: 1,
        place: 1,
    };

    // Sixteen different labels, from this place on.
    fn sixteen(from: u8) -> [Label; 16] {
        let mut labels = [future(0); 16];
        for (i, label) in labels.iter_mut().enumerate() {
            label.place = u64::from(from) + i as u64;
        }
        labels
    }

    #[test]
    fn effects_come_out_in_the_order_in_which_they_went_in(rt: HostRuntime) {
        let mut effects: Effects<u8, u64, u32> = Effects::new(rt.alloc());
        assert!(rt; effects.push(Effect::Put(ENTRY, 5)).is_ok());
        assert!(rt; effects.push(Effect::Give(future(1), 7)).is_ok());
        assert!(rt; effects.push(Effect::Spawn(3)).is_ok());
        assert!(rt; effects.push(Effect::Erase(ENTRY)).is_ok());
        assert_eq!(rt; (effects.len(), effects.is_empty()), (4, false));
        let mut queue = effects.queue();
        assert_eq!(rt; (queue.len(), queue.is_empty()), (4, false));
        assert!(rt; queue.take_first() == Some(LentEffect::Put(ENTRY, 5)));
        assert!(rt; queue.take_first() == Some(LentEffect::Give(future(1), 7)));
        assert!(rt; queue.take_first() == Some(LentEffect::Spawn(3)));
        assert!(rt; queue.take_first() == Some(LentEffect::Erase(ENTRY)));
        assert!(rt; queue.take_first().is_none() && queue.is_empty());
    }

    #[test]
    fn each_spawn_lends_its_own_labels(rt: HostRuntime) -> Result<(), Fail> {
        let mut effects: Effects<u8, u64, u32> = Effects::with_capacity(rt.alloc(), 6)?;
        let (first, last) = (sixteen(10), sixteen(40));
        for (unit, labels) in [(1u8, &first[..2]), (2, &last[..]), (3, &last[..1])] {
            if let Some(needs) = Needs::of(labels) {
                assert!(rt; effects.push(Effect::SpawnNeeding(unit, needs)).is_ok());
                assert!(rt;
                    effects
                        .push_needing(unit.wrapping_add(10), needs.labels())
                        .is_ok()
                );
            }
        }
        let mut queue = effects.queue();
        for (unit, labels) in [(1u8, &first[..2]), (2, &last[..]), (3, &last[..1])] {
            for asked in [unit, unit.wrapping_add(10)] {
                assert!(rt; queue.take_first() == Some(LentEffect::SpawnNeeding(asked, labels)));
            }
        }
        assert!(rt; queue.is_empty());
        Ok(())
    }
}
