//! The look-ups that wait in a bin, in the order in which they came.
ghost use Rattle.std.specs.Prelude.{◌≡◌, [], ◌∷◌, ◌++◌, IfOk, IsTrue, OnErr, OnOk};
ghost use Rattle.container.specs.LookUps.{callbacks_of, first_waited, others};
ghost use Rattle.container.specs.WaitLog.{left_in};

use crate::OutOfMemory;
use crate::look_ups::LookUp;
use crate::wait_log::{Places, add_place, collect, empty, waited};
use app_core::CellName;
use future_cell::Callbacks;
use std::alloc::Global;
use std::collections::HashMap;
use std::marker::Model;

// The log is made anew before it has more slots than this, and more than twice those that were in use the last time.
const SHORT: usize = 32;

/// Look-ups that wait. Contracts see the list of them, in the order in which they came.
///
/// They are in a log, and a map has the places of each name's look-ups in it. So neither a look-up nor an entry that is
/// put touches what waits for other names. A look-up that is taken out leaves an empty slot. The log is emptied when
/// nothing waits any more, and made anew when it has grown to twice its last length.
#[derive(Drop)]
pub(crate) struct WaitList {
    log: Vec<Option<LookUp>>,
    places: HashMap<CellName, Places>,
    limit: usize,
    alloc: Global,
}

impl Model for WaitList {
    ghost use Rattle.std.specs.Prelude.{List};
    ghost use Rattle.std.specs.Coded.{coded_list};
    ghost use Rattle.container.specs.declared.look_ups.LookUp.{LookUp};
    ghost use Rattle.container.specs.contracts.look_ups.LookUp as look_ups;
    ghost use Rattle.container.specs.WaitLog.{ArePlaced, left_in};

    ghost Value = { List LookUp };

    ghost coded = { coded_list look_ups.the_row.coded };

    ghost view = { λ w. left_in w.log.items };

    ghost invariant = { λ w. ArePlaced w.log.items w.places };
}

impl WaitList {
    // Nothing waits. It takes no memory.
    pub(crate) fn new(alloc: Global) -> WaitList
        ensures { result ≡ [] }
    {
        WaitList {
            log: Vec::new(alloc),
            places: HashMap::new(alloc),
            limit: SHORT,
            alloc,
        }
    }

    // Whether nothing waits.
    pub(crate) fn is_empty(&self) -> bool
        ensures { IsTrue result → self.now ≡ [] }
    {
        self.log.is_empty()
    }

    // Adds a look-up after all others.
    pub(crate) fn push(&mut self, look_up: LookUp) -> Result<(), OutOfMemory>
        ensures ok { OnOk result (self.new ≡ self.old ++ look_up ∷ []) }
        ensures err { OnErr result (self.new ≡ self.old) }
    {
        if self.log.len() >= self.limit {
            self.shorten();
        }
        self.add(look_up)
    }

    // `push`, however long the log is.
    fn add(&mut self, look_up: LookUp) -> Result<(), OutOfMemory>
        ensures ok { OnOk result (self.new ≡ self.old ++ look_up ∷ []) }
        ensures err { OnErr result (self.new ≡ self.old) }
    {
        let place = self.log.len();
        if self.log.push(Some(look_up)).is_err() {
            return Err(OutOfMemory);
        }
        if add_place(self.alloc, &mut self.places, look_up.name, place).is_err() {
            let _ = self.log.pop();
            return Err(OutOfMemory);
        }
        Ok(())
    }

    // Adds the look-up of a slot, if there is one.
    fn add_slot(&mut self, slot: Option<LookUp>) -> Result<(), OutOfMemory>
        ensures { OnOk result (self.new ≡ self.old ++ left_in (slot ∷ [])) }
    {
        match slot {
            Some(look_up) => self.add(look_up),
            None => Ok(()),
        }
    }

    // Makes the log anew, without empty slots. Where there is no memory for that, it stays as it is.
    fn shorten(&mut self)
        ensures { self.new ≡ self.old }
    {
        if let Ok(short) = made_of(self.alloc, &self.log) {
            *self = short;
        }
    }

    // The callbacks that wait for a name, in order.
    pub(crate) fn callbacks_of(&self, name: CellName) -> Result<Callbacks, OutOfMemory>
        ensures { IfOk result (λ c. c ≡ callbacks_of name self.now) }
    {
        match self.places.get(&name) {
            Some(places) => collect(self.alloc, &self.log, places.first, &places.later),
            None => Ok(Callbacks::new(self.alloc)),
        }
    }

    // Leaves the look-ups that wait for other names.
    pub(crate) fn leave_others(&mut self, name: CellName)
        ensures { self.new ≡ others name self.old }
    {
        let Some(places) = self.places.remove(&name) else {
            return;
        };
        empty(&mut self.log, places.first, &places.later);
        if self.places.is_empty() {
            self.log.clear();
        }
    }

    // The name of the first look-up that waits for an entry of a version.
    pub(crate) fn first_waited(&self, version: u32) -> Option<CellName>
        ensures { result ≡ first_waited version self.now }
    {
        waited(&self.log, version)
    }
}

// The look-ups of a log.
fn made_of(alloc: Global, log: &[Option<LookUp>]) -> Result<WaitList, OutOfMemory>
    ensures { IfOk result (λ w. w ≡ left_in log.now) }
{
    let mut made = WaitList::new(alloc);
    for slot in log {
        made.add_slot(*slot)?;
    }
    made.limit = made.log.len().saturating_mul(2).max(SHORT);
    Ok(made)
}
