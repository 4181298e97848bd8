//! A value that is assigned at most once, and what waits for it.
ghost use Rattle.std.specs.Prelude.{◌≡◌, ◌∷◌, ◌++◌, ◌↔◌, [], Err, None, Some, false, true, IfErr, IfOk, IsSome, IsTrue, OnErr, OnOk};
ghost use Rattle.std.specs.Option.{option_copied};
ghost use Rattle.once_cell.specs.Once.{cell_name};
ghost use Rattle.future_cell.specs.CellState.{StillKnows};
ghost use Rattle.future_cell.specs.PendingState.{refused_callback};
ghost use Rattle.future_cell.specs.Assigning.{IsAlready, refused_value};

use crate::callback::{Callback, FutureId};
use crate::callbacks::Callbacks;
use crate::notes::CellNote;
use crate::pending::{NotAdded, Pending};
use once_cell::race::OnceBox;
use std::alloc::Global;
use std::fmt::Debug;
use std::marker::Model;
use std::sync::{Mutex, Wait};
use thiserror::Error;

/// Why a value wasn't assigned. Each gives it back.
#[derive(Debug, PartialEq, Eq, Drop, Error)]
#[error_bound(T: Debug + Drop)]
pub enum AssignError<T> {
    /// The future has a value.
    #[error("the future has a value")]
    Already(T),
    /// Memory was refused for the value.
    #[error("out of memory")]
    OutOfMemory(T),
}

/// A future: a value that is assigned at most once, and the callbacks that wait for it. Contracts see whose it is,
/// and the name that it shares with its notes. Each call that takes a note asks for one of this future, which
/// [`FutureCell::note`] makes.
#[derive(Drop)]
pub struct FutureCell<T: Drop> {
    id: FutureId,
    value: OnceBox<T>,
    pending: Mutex<Pending>,
    alloc: Global,
}

impl<T: Drop> Model for FutureCell<T> {
    ghost use Rattle.once_cell.specs.Once.{cell_name};
    ghost use Rattle.future_cell.specs.CellState.{CellState};

    ghost Value = { CellState };

    ghost view = { λ f. record { id = f.id; cell = cell_name f.value } };
}

impl<T: Drop> FutureCell<T> {
    /// A future without a value. It takes no memory; `alloc` is where that of its value and callbacks will come from.
    pub fn new(alloc: Global, id: FutureId) -> FutureCell<T>
        ensures { result.id ≡ id }
    {
        FutureCell {
            id,
            value: OnceBox::new(alloc),
            pending: Mutex::new(Pending::new(alloc)),
            alloc,
        }
    }

    /// Whose future it is.
    pub fn id(&self) -> FutureId
        ensures { result ≡ self.now.id }
    {
        self.id
    }

    /// A note of this future that knows nothing.
    pub fn note(&self) -> CellNote<T>
        ensures cell { result.cell ≡ self.now.cell }
        ensures nothing { result.known ≡ None }
    {
        self.value.note()
    }

    /// Looks the future up: whether the note knows a value as the call ends. It takes no memory.
    pub fn probe(&self, note: &mut CellNote<T>) -> bool
        requires { note.old.cell ≡ self.now.cell }
        ensures known { IsTrue result ↔ IsSome note.new.known }
        ensures keeps { StillKnows note.old.known note.new.known }
        ensures cell { note.new.cell ≡ note.old.cell }
    {
        self.get(note).is_some()
    }

    /// Looks the future up: the value that the note knows as the call ends. It takes no memory.
    pub fn get<'a>(&'a self, note: &mut CellNote<T>) -> Option<&'a T>
        requires { note.old.cell ≡ self.now.cell }
        ensures value { option_copied result ≡ note.new.known }
        ensures keeps { StillKnows note.old.known note.new.known }
        ensures cell { note.new.cell ≡ note.old.cell }
    {
        self.value.get_as(note)
    }

    /// Gives the future its value, and returns the callbacks that were added so far, in order; no later one is
    /// added. It may wait for other threads. `Already` where the future has a value: of the two refusals, exactly
    /// where the note knows one as the call ends. `OutOfMemory` when memory is refused for the value. Each gives
    /// the value back.
    pub fn assign<R: Wait>(
        &self,
        rt: &R,
        note: &mut CellNote<T>,
        value: T,
    ) -> Result<Callbacks, AssignError<T>>
        requires { note.old.cell ≡ self.now.cell }
        ensures assigned { OnOk result (note.new.known ≡ Some value) }
        ensures first { OnOk result (note.old.known ≡ None) }
        ensures already { IfErr result (λ e. IsAlready e ↔ IsSome note.new.known) }
        ensures back { IfErr result (λ e. refused_value e ≡ value) }
        ensures keeps { StillKnows note.old.known note.new.known }
        ensures cell { note.new.cell ≡ note.old.cell }
    {
        if self.probe(note) {
            return Err(AssignError::Already(value));
        }
        let boxed = boxed(self.alloc, value)?;
        let mut pending = self.pending.lock(rt);
        settle(self.alloc, &self.value, &mut pending, note, boxed)
    }

    /// Adds a callback, which `assign` returns when the future gets its value. It may wait for other threads.
    /// `Assigned` where the future has a value: exactly where the note knows one as the call ends. `OutOfMemory` when
    /// memory is refused for the callback. Each gives it back.
    pub fn on_assigned<R: Wait>(
        &self,
        rt: &R,
        note: &mut CellNote<T>,
        callback: Callback,
    ) -> Result<(), NotAdded>
        requires { note.old.cell ≡ self.now.cell }
        ensures added { OnOk result (note.new.known ≡ None) }
        ensures assigned { (result ≡ Err (NotAdded.Assigned callback)) ↔ IsSome note.new.known }
        ensures back { IfErr result (λ e. refused_callback e ≡ callback) }
        ensures keeps { StillKnows note.old.known note.new.known }
        ensures cell { note.new.cell ≡ note.old.cell }
    {
        for _ in rt.forever() {
            if self.probe(note) {
                return Err(NotAdded::Assigned(callback));
            }
            match self.pending.lock(rt).add(callback) {
                // The value came after the look. It was set before the state was closed, so the next look finds it;
                // only that no proof can say so.
                Err(NotAdded::Assigned(_)) => {}
                answer => return answer,
            }
        }
        unreachable!()
    }

    /// `assign` for a caller that has the future alone, as behind a lock of its own. It takes no lock and doesn't wait.
    pub fn assign_mut(
        &mut self,
        note: &mut CellNote<T>,
        value: T,
    ) -> Result<Callbacks, AssignError<T>>
        requires { note.old.cell ≡ self.old.cell }
        ensures assigned { OnOk result (note.new.known ≡ Some value) }
        ensures first { OnOk result (note.old.known ≡ None) }
        ensures already { IfErr result (λ e. IsAlready e ↔ IsSome note.new.known) }
        ensures back { IfErr result (λ e. refused_value e ≡ value) }
        ensures keeps { StillKnows note.old.known note.new.known }
        ensures cell { note.new.cell ≡ note.old.cell }
        ensures same { self.new ≡ self.old }
    {
        if self.probe(note) {
            return Err(AssignError::Already(value));
        }
        let boxed = boxed(self.alloc, value)?;
        let pending = self.pending.get_mut();
        settle(self.alloc, &self.value, pending, note, boxed)
    }

    /// `on_assigned` for a caller that has the future alone, as behind a lock of its own. It takes no lock and doesn't
    /// wait.
    pub fn on_assigned_mut(
        &mut self,
        note: &mut CellNote<T>,
        callback: Callback,
    ) -> Result<(), NotAdded>
        requires { note.old.cell ≡ self.old.cell }
        ensures added { OnOk result (note.new.known ≡ None) }
        ensures assigned { (result ≡ Err (NotAdded.Assigned callback)) ↔ IsSome note.new.known }
        ensures back { IfErr result (λ e. refused_callback e ≡ callback) }
        ensures keeps { StillKnows note.old.known note.new.known }
        ensures cell { note.new.cell ≡ note.old.cell }
        ensures same { self.new ≡ self.old }
    {
        if self.probe(note) {
            return Err(NotAdded::Assigned(callback));
        }
        add_open(self.alloc, self.pending.get_mut(), callback)
    }
}

// Adds a callback of a future without a value. Its state is open; a closed one, which can't come about, is opened anew,
// since no proof can say so.
fn add_open(alloc: Global, pending: &mut Pending, callback: Callback) -> Result<(), NotAdded>
    ensures added { OnOk result (pending.new.callbacks ≡ pending.old.callbacks ++ callback ∷ []) }
    ensures open { pending.new.closed ≡ false }
    ensures memory { IfErr result (λ e. e ≡ NotAdded.OutOfMemory callback) }
    ensures kept { OnErr result (pending.new.callbacks ≡ pending.old.callbacks) }
{
    if pending.is_closed() {
        *pending = Pending::new(alloc);
    }
    pending.add(callback)
}

// The value in memory of its own. `OutOfMemory` where there is none.
fn boxed<T>(alloc: Global, value: T) -> Result<Box<T>, AssignError<T>>
    ensures value { IfOk result (λ b. b.value ≡ value) }
    ensures memory { IfErr result (λ e. e ≡ AssignError.OutOfMemory value) }
{
    match Box::new(alloc, value) {
        Ok(boxed) => Ok(boxed),
        Err(refused) => Err(AssignError::OutOfMemory(refused.value)),
    }
}

// Sets the value where it is the first, and then takes out what waits for it. `Already` where it isn't the first. The
// caller has the state alone, so that no callback is added between the two.
fn settle<T: Drop>(
    alloc: Global,
    cell: &OnceBox<T>,
    pending: &mut Pending,
    note: &mut CellNote<T>,
    value: Box<T>,
) -> Result<Callbacks, AssignError<T>>
    requires { note.old.cell ≡ cell_name cell.now }
    ensures all { IfOk result (λ c. c ≡ pending.old.callbacks) }
    ensures closed { OnOk result (pending.new ≡ record { callbacks = []; closed = true }) }
    ensures same { OnErr result (pending.new ≡ pending.old) }
    ensures assigned { OnOk result (note.new.known ≡ Some value.value) }
    ensures first { OnOk result (note.old.known ≡ None) }
    ensures already { OnErr result (IsSome note.new.known) }
    ensures back { IfErr result (λ e. e ≡ AssignError.Already value.value) }
    ensures keeps { StillKnows note.old.known note.new.known }
    ensures cell { note.new.cell ≡ note.old.cell }
{
    if let Err(back) = cell.set_as(value, note) {
        return Err(AssignError::Already(Box::into_inner(back)));
    }
    match pending.close() {
        Some(callbacks) => Ok(callbacks),
        None => Ok(Callbacks::new(alloc)),
    }
}
