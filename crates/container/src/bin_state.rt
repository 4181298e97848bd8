//! A bin's state: its entries, and the look-ups that wait.
ghost use Rattle.std.specs.Prelude.{◌≡◌, ◌↔◌, [], ◌∷◌, ◌++◌, None, Some, Err, IfErr, IfOk, IfSome, IfNone, IsSome, OnErr, OnOk, OnSome, not};
ghost use Rattle.std.specs.FinMap as fin;
ghost use Rattle.container.specs.Names.{is_of};
ghost use Rattle.container.specs.LookUps.{callbacks_of, others, first_waited};
ghost use Rattle.container.specs.Refusals.{refused_cell};
ghost use Rattle.container.specs.BinState.{AreMissing};

use crate::OutOfMemory;
use crate::entries::Entries;
use crate::look_ups::LookUp;
use crate::refusals::{InsertError, StillWaited};
use crate::wait_list::WaitList;
use app_core::CellName;
use future_cell::{Callback, Callbacks};
use std::alloc::Global;
use std::marker::Model;

/// Entries by name, and the look-ups that wait for entries, in the order in which they came. Contracts see the finite map
/// `entries` and the list `waiting`. A name that is waited for has no entry.
#[derive(Drop)]
pub struct BinState<C: Copy> {
    entries: Entries<C>,
    waiting: WaitList,
    alloc: Global,
}

impl<C: Copy> Model for BinState<C> {
    ghost use Rattle.std.specs.FinMap as fin;
    ghost use Rattle.container.specs.Names.{name_code};
    ghost use Rattle.container.specs.contracts.look_ups.LookUp as look_ups;
    ghost use Rattle.container.specs.BinState.{BinData, bin_code, AreMissing};

    ghost Value = { BinData C };

    ghost coded = { bin_code (fin.code name_code C.code) look_ups.the_row.coded };

    ghost view = { λ b. record { entries = b.entries; waiting = b.waiting } };

    ghost invariant = { λ b. AreMissing b.entries b.waiting };
}

impl<C: Copy> BinState<C> {
    /// No entries, and none waited for. It takes no memory.
    pub fn new(alloc: Global) -> BinState<C>
        ensures entries { result.entries ≡ fin.empty }
        ensures waiting { result.waiting ≡ [] }
    {
        BinState {
            entries: Entries::new(alloc),
            waiting: WaitList::new(alloc),
            alloc,
        }
    }

    /// The cell of a name. None exactly where the name has no entry. It takes no memory.
    pub fn find(&self, name: CellName) -> Option<C>
        ensures { result ≡ fin.get self.now.entries name }
    {
        self.entries.find(name)
    }

    /// The cell of a name. Where the name has no entry, the callback waits for it from now on, after all others.
    pub fn find_or_wait(
        &mut self,
        name: CellName,
        callback: Callback,
    ) -> Result<Option<C>, OutOfMemory>
        ensures found { IfOk result (λ o. o ≡ fin.get self.old.entries name) }
        ensures there { IfOk result (λ o. IfSome o (λ _. self.new ≡ self.old)) }
        ensures waits { IfOk result (λ o. IfNone o (self.new ≡ record { entries = self.old.entries; waiting = self.old.waiting ++ record { name = name; callback = callback } ∷ [] })) }
        ensures missing { OnErr result (fin.get self.old.entries name ≡ None) }
        ensures err { OnErr result (self.new ≡ self.old) }
    {
        let found = self.entries.find(name);
        if found.is_some() {
            return Ok(found);
        }
        self.waiting.push(LookUp { name, callback })?;
        Ok(None)
    }

    /// Adds an entry, and hands out the callbacks that wait for its name, in order. `Present` exactly where the name
    /// has an entry. Each refusal hands the cell back, and all stays.
    pub fn insert(&mut self, name: CellName, cell: C) -> Result<Callbacks, InsertError<C>>
        ensures entries { OnOk result (self.new.entries ≡ fin.insert self.old.entries name cell) }
        ensures waiting { OnOk result (self.new.waiting ≡ others name self.old.waiting) }
        ensures callbacks { IfOk result (λ c. c ≡ callbacks_of name self.old.waiting) }
        ensures present { (result ≡ Err (InsertError.Present cell)) ↔ IsSome (fin.get self.old.entries name) }
        ensures back { IfErr result (λ e. refused_cell e ≡ cell) }
        ensures same { OnErr result (self.new ≡ self.old) }
    {
        if self.waiting.is_empty() {
            self.entries.insert(name, cell)?;
            return Ok(Callbacks::new(self.alloc));
        }
        self.insert_awaited(name, cell)
    }

    // `insert` where something waits. What it hands out is taken before the entry is added, so that a refusal leaves all
    // as it was.
    fn insert_awaited(&mut self, name: CellName, cell: C) -> Result<Callbacks, InsertError<C>>
        ensures entries { OnOk result (self.new.entries ≡ fin.insert self.old.entries name cell) }
        ensures waiting { OnOk result (self.new.waiting ≡ others name self.old.waiting) }
        ensures callbacks { IfOk result (λ c. c ≡ callbacks_of name self.old.waiting) }
        ensures present { (result ≡ Err (InsertError.Present cell)) ↔ IsSome (fin.get self.old.entries name) }
        ensures back { IfErr result (λ e. refused_cell e ≡ cell) }
        ensures same { OnErr result (self.new ≡ self.old) }
    {
        if self.entries.find(name).is_some() {
            return Err(InsertError::Present(cell));
        }
        let Ok(callbacks) = self.waiting.callbacks_of(name) else {
            return Err(InsertError::OutOfMemory(cell));
        };
        self.entries.insert(name, cell)?;
        if callbacks.is_empty() {
            return Ok(callbacks);
        }
        self.waiting.leave_others(name);
        Ok(callbacks)
    }

    /// Gives the entry of a name another cell, and returns the one that it had. None exactly where the name has no
    /// entry, and then all stays. It takes no memory.
    pub fn replace(&mut self, name: CellName, cell: C) -> Option<C>
        ensures old { result ≡ fin.get self.old.entries name }
        ensures new { OnSome result (self.new.entries ≡ fin.insert self.old.entries name cell) }
        ensures waiting { self.new.waiting ≡ self.old.waiting }
        ensures same { IfNone result (self.new ≡ self.old) }
    {
        self.entries.replace(name, cell)
    }

    /// Takes the entry of a name out, and returns its cell. None exactly where the name has no entry. It takes no
    /// memory.
    pub fn erase(&mut self, name: CellName) -> Option<C>
        ensures cell { result ≡ fin.get self.old.entries name }
        ensures rest { self.new ≡ record { entries = fin.remove self.old.entries name; waiting = self.old.waiting } }
    {
        self.entries.erase(name)
    }

    /// Lets all entries of a version go, and says how many there were. `StillWaited` exactly where something waits for
    /// an entry of the version, with the name for which the first such look-up waits, and then all stays.
    pub fn drop_version(&mut self, version: u32) -> Result<u64, StillWaited>
        ensures count { IfOk result (λ n. n ≡ fin.len (fin.retain_keys self.old.entries (is_of version))) }
        ensures rest { OnOk result (self.new ≡ record { entries = fin.retain_keys self.old.entries (λ n. not (is_of version n)); waiting = self.old.waiting }) }
        ensures unwaited { OnOk result (first_waited version self.old.waiting ≡ None) }
        ensures waited { IfErr result (λ e. first_waited version self.old.waiting ≡ Some e.name) }
        ensures same { OnErr result (self.new ≡ self.old) }
    {
        if let Some(name) = self.waiting.first_waited(version) {
            return Err(StillWaited { name });
        }
        Ok(self.entries.drop_version(version))
    }

    /// How many entries have the version. It takes no memory.
    pub fn size_of(&self, version: u32) -> u64
        ensures { result ≡ fin.len (fin.retain_keys self.now.entries (is_of version)) }
    {
        self.entries.size_of(version)
    }

    /// A name that is waited for has no entry: a fact of every state.
    pub fn waited_names_are_missing(&self)
        ensures { AreMissing self.now.entries self.now.waiting }
    {
        let _ = &self.waiting;
    }
}
