//! The list of what waits.
ghost use Rattle.std.specs.Prelude.{◌≡◌, ◌↔◌, ◌==◌, ◌∷◌, ◌++◌, [], length, option_to_list, IfErr, IsNone, OnErr, OnOk};

use crate::Refused;
use std::alloc::Global;
use std::collections::VecDeque;
use std::marker::Model;

/// The units that wait, the oldest first. Contracts see the list of them.
///
/// A unit that comes out is one that was pushed, so it has whatever the type of the units states.
#[derive(Drop)]
pub struct PoolState<U> {
    units: VecDeque<U>,
}

impl<U> Model for PoolState<U> {
    ghost use Rattle.std.specs.Prelude.{List};

    ghost Value = { List U };

    ghost view = { λ p. p.units.items };
}

impl<U> PoolState<U> {
    /// No units. It takes no memory; `alloc` is where that of later ones will come from.
    pub fn new(alloc: Global) -> PoolState<U>
        ensures { result ≡ [] }
    {
        PoolState {
            units: VecDeque::new(alloc),
        }
    }

    /// Adds the unit last. Where there is no memory for it, the units stay and it comes back.
    pub fn push(&mut self, unit: U) -> Result<(), Refused<U>>
        ensures ok { OnOk result (self.new ≡ self.old ++ unit ∷ []) }
        ensures err { OnErr result (self.new ≡ self.old) }
        ensures back { IfErr result (λ e. e.value ≡ unit) }
    {
        self.units.push_back(unit)
    }

    /// Takes the first unit out. None exactly where there is none. It takes no memory.
    pub fn take(&mut self) -> Option<U>
        ensures first { self.old ≡ option_to_list result ++ self.new }
        ensures none { IsNone result ↔ (self.old ≡ []) }
    {
        self.units.pop_front()
    }

    /// How many units there are.
    pub fn len(&self) -> usize
        ensures { result ≡ length self.now }
    {
        self.units.len()
    }

    /// Whether there are none.
    pub fn is_empty(&self) -> bool
        ensures { result ≡ (length self.now == 0) }
    {
        self.units.is_empty()
    }
}
