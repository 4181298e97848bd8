//! A future in a table.
ghost use Rattle.std.specs.Prelude.{◌≡◌, ◌↔◌, [], ◌∷◌, ◌++◌, Some, IfErr, IfNone, IfOk, IsSome, IsTrue, OnErr, OnSome};
ghost use Rattle.task_tables.specs.declared.future_state.FutureState.TheVariants as of;
ghost use Rattle.task_tables.specs.Futures.{value_of, callbacks_of};

use crate::OutOfMemory;
use app_core::App;
use future_cell::{Callback, Callbacks, CellNote};
use once_cell::race::OnceBox;
use std::alloc::{AllocFailed, Global};
use std::marker::Model;

/// A future that a table knows.
#[derive(Drop)]
pub enum FutureState<V: Drop> {
    /// It has its value, and nobody has asked for it.
    Given(GivenValue<V>),
    /// It has no value, and these callbacks wait for it.
    Waiting(Callbacks),
}

impl<V: Drop> FutureState<V> {
    // Whether it has its value.
    pub(crate) fn has_value(&self) -> bool
        ensures { IsTrue result ↔ IsSome (value_of (Some self.now)) }
    {
        match self {
            FutureState::Given(given) => {
                given.has_value();
                true
            }
            FutureState::Waiting(_) => false,
        }
    }
}

/// A value that was given, in a cell that is set once. Contracts see the value.
#[derive(Drop)]
pub struct GivenValue<V: Drop> {
    cell: OnceBox<V>,
    note: CellNote<V>,
}

impl<V: Drop> Model for GivenValue<V> {
    ghost use Rattle.std.specs.Prelude.{◌≡◌, Option, IsSome};
    ghost use Rattle.once_cell.specs.Once.{cell_name};

    ghost Value = { Option V };

    ghost view = { λ g. g.note.known };

    ghost invariant = { λ g. (g.note.cell ≡ cell_name g.cell) × IsSome g.note.known };
}

impl<V: Drop> GivenValue<V> {
    // The value, in a cell of its own. Where there is no memory for it, it comes back.
    pub(crate) fn new(alloc: Global, value: V) -> Result<GivenValue<V>, AllocFailed<V>>
        ensures ok { IfOk result (λ g. g ≡ Some value) }
        ensures back { IfErr result (λ e. e.value ≡ value) }
    {
        let boxed = Box::new(alloc, value)?;
        let cell = OnceBox::new(alloc);
        let mut note = cell.note();
        match cell.set_as(boxed, &mut note) {
            Ok(()) => Ok(GivenValue { cell, note }),
            // A new cell is empty, so that this doesn't come; only that no proof can say so.
            Err(boxed) => Err(AllocFailed {
                value: Box::into_inner(boxed),
            }),
        }
    }

    // It has a value.
    pub(crate) fn has_value(&self)
        ensures { IsSome self.now }
    {
        let _ = &self.cell;
    }
}

// The value of a future, if it has one: a copy.
pub(crate) fn look_at<A: App>(
    alloc: Global,
    app: &A,
    state: &mut FutureState<A::Value>,
) -> Result<Option<A::Value>, OutOfMemory>
    ensures found { IfOk result (λ o. o ≡ value_of (Some state.old)) }
    ensures same { state.new ≡ state.old }
{
    match state {
        FutureState::Given(given) => Ok(Some(copy_of(alloc, app, given)?)),
        FutureState::Waiting(_) => Ok(None),
    }
}

// The value of a future, if it has one: a copy. Where it has none, the callback waits for it, after all others.
pub(crate) fn look_or_wait<A: App>(
    alloc: Global,
    app: &A,
    state: &mut FutureState<A::Value>,
    callback: Callback,
) -> Result<Option<A::Value>, OutOfMemory>
    ensures found { IfOk result (λ o. o ≡ value_of (Some state.old)) }
    ensures there { IfOk result (λ o. OnSome o (state.new ≡ state.old)) }
    ensures waits { IfOk result (λ o. IfNone o (state.new ≡ of.Waiting (callbacks_of (Some state.old) ++ callback ∷ []))) }
    ensures err { OnErr result (state.new ≡ state.old) }
{
    match state {
        FutureState::Given(given) => Ok(Some(copy_of(alloc, app, given)?)),
        FutureState::Waiting(callbacks) => match callbacks.push(callback) {
            Ok(()) => Ok(None),
            Err(_) => Err(OutOfMemory),
        },
    }
}

// A copy of the value. `OutOfMemory` where there is no memory for one.
fn copy_of<A: App>(
    alloc: Global,
    app: &A,
    given: &mut GivenValue<A::Value>,
) -> Result<A::Value, OutOfMemory>
    ensures value { IfOk result (λ v. given.old ≡ Some v) }
    ensures same { given.new ≡ given.old }
{
    match given.cell.get_as(&mut given.note) {
        Some(value) => app.copy_value(alloc, value),
        None => unreachable!(),
    }
}
