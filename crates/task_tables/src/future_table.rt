//! The futures of a rank.
ghost use Rattle.std.specs.Prelude.{◌≡◌, ◌↔◌, [], ◌∷◌, ◌++◌, None, Some, IfErr, IfNone, IfOk, IfSome, IsSome, IsTrue, OnErr, OnOk, OnSome};
ghost use Rattle.task_tables.specs.declared.future_state.FutureState.TheVariants as of;
ghost use Rattle.task_tables.specs.Futures.{state_of, value_of, callbacks_of, HasInPlace, HasTheSame};
ghost use Rattle.task_tables.specs.Giving.{IsAlready, refused_value, IsGiven, IsAsked, IsKnown};

use crate::OutOfMemory;
use crate::future_state::{FutureState, GivenValue, look_at, look_or_wait};
use app_core::{App, Naming};
use event_lists::Future;
use future_cell::{Callback, Callbacks};
use std::alloc::Global;
use std::collections::HashMap;
use std::fmt::Debug;
use std::marker::{Model, PhantomData};
use thiserror::Error;

/// What giving a future its value came to.
#[derive(Drop)]
pub enum Given<V> {
    /// Nobody waits for the value: the table has it.
    Stored,
    /// The callbacks that wait for the value, in order, and the value. The table has nothing of the future any more.
    Awaited(V, Callbacks),
}

/// Why a future wasn't given its value. Each hands the value back.
#[derive(Debug, PartialEq, Eq, Drop, Error)]
#[error_bound(V: Debug + Drop)]
pub enum GiveError<V> {
    /// The future has a value.
    #[error("the future has a value")]
    Already(V),
    /// Memory was refused for the value.
    #[error("out of memory")]
    OutOfMemory(V),
}

/// The futures of a rank for the application that `J` names, by who created them and their labels. Contracts see the
/// list of those that it knows, in no order. Each value in it is right for the label of its future, whoever gave it.
#[derive(Drop)]
pub struct FutureTable<A: App, J: Naming<A>> {
    futures: HashMap<Future, FutureState<A::Value>>,
    alloc: Global,
    of: PhantomData<J>,
}

impl<A: App, J: Naming<A>> Model for FutureTable<A, J> {
    ghost use Rattle.std.specs.Prelude.{List, IfSome};
    ghost use Rattle.event_lists.specs.declared.future.Future.{Future};
    ghost use Rattle.task_tables.specs.declared.future_state.FutureState.{FutureState};
    ghost use Rattle.task_tables.specs.Futures.{AreRightStates};

    ghost Value = { List (Future × FutureState A.Value) };

    ghost view = { λ t. t.futures.entries };

    ghost invariant = { λ t. IfSome J.app (λ app. AreRightStates (A.right_value app) t.futures.entries) };
}

impl<A: App, J: Naming<A>> FutureTable<A, J> {
    /// No futures. It takes no memory; `alloc` is where that of later ones will come from.
    pub fn new(alloc: Global) -> FutureTable<A, J>
        ensures { result ≡ [] }
    {
        FutureTable {
            futures: HashMap::new(alloc),
            alloc,
            of: PhantomData,
        }
    }

    /// Takes the value of a future out: a copy comes, and the table knows the future no more. Where the future has no
    /// value yet, the callback waits for it from now on, after all others.
    pub fn take_or_wait(
        &mut self,
        app: &A,
        future: Future,
        callback: Callback,
    ) -> Result<Option<A::Value>, OutOfMemory>
        ensures found { IfOk result (λ o. o ≡ value_of (state_of self.old future)) }
        ensures taken { IfOk result (λ o. OnSome o (HasInPlace self.old self.new future None)) }
        ensures waits { IfOk result (λ o. IfNone o (HasInPlace self.old self.new future (Some (of.Waiting (callbacks_of (state_of self.old future) ++ callback ∷ []))))) }
        ensures right { IfSome J.app (λ app. IfOk result (λ o. IfSome o (λ v. A.right_value app future.label v))) }
        ensures err { OnErr result (HasTheSame self.old self.new) }
    {
        match ask(self.alloc, app, &mut self.futures, future, callback)? {
            Asked::Waits => Ok(None),
            Asked::Unknown => {
                wait_first(self.alloc, &mut self.futures, future, callback)?;
                Ok(None)
            }
            Asked::Found(value) => {
                let _ = self.futures.remove(&future);
                Ok(Some(value))
            }
        }
    }

    /// A copy of the value of a future, if it has one; the table keeps it.
    pub fn find(&mut self, app: &A, future: Future) -> Result<Option<A::Value>, OutOfMemory>
        ensures found { IfOk result (λ o. o ≡ value_of (state_of self.old future)) }
        ensures right { IfSome J.app (λ app. IfOk result (λ o. IfSome o (λ v. A.right_value app future.label v))) }
        ensures same { HasTheSame self.old self.new }
    {
        find_value(self.alloc, app, &mut self.futures, future)
    }

    /// Whether a future has its value, and nobody has taken it out.
    pub fn is_given(&self, future: Future) -> bool
        ensures { IsTrue result ↔ IsSome (value_of (state_of self.now future)) }
    {
        matches!(known_of(&self.futures, future), Known::Value)
    }

    /// Gives a future its value, which is right for its label. `Already` exactly where the future has one. Each refusal
    /// hands the value back, and all stays.
    pub fn give(
        &mut self,
        future: Future,
        value: A::Value,
    ) -> Result<Given<A::Value>, GiveError<A::Value>>
        requires { IfSome J.app (λ app. A.right_value app future.label value) }
        ensures given { IfOk result (λ g. IsGiven self.old self.new future (state_of self.old future) value g) }
        ensures already { IfErr result (λ e. IsAlready e ↔ IsSome (value_of (state_of self.old future))) }
        ensures back { IfErr result (λ e. refused_value e ≡ value) }
        ensures same { OnErr result (HasTheSame self.old self.new) }
    {
        match known_of(&self.futures, future) {
            Known::Nothing => store(self.alloc, &mut self.futures, future, value),
            Known::Value => Err(GiveError::Already(value)),
            Known::Callbacks => Ok(hand_out(&mut self.futures, future, value)),
        }
    }
}

// What is known of a future.
#[derive(Clone, Copy)]
enum Known {
    Nothing,
    Value,
    Callbacks,
}

fn known_of<V: Drop>(futures: &HashMap<Future, FutureState<V>>, future: Future) -> Known
    ensures { IsKnown (state_of futures.now.entries future) result }
{
    match futures.get(&future) {
        None => Known::Nothing,
        Some(state) => {
            if state.has_value() {
                Known::Value
            } else {
                Known::Callbacks
            }
        }
    }
}

// The callbacks that wait for a future, with its value.
fn hand_out<V: Drop>(
    futures: &mut HashMap<Future, FutureState<V>>,
    future: Future,
    value: V,
) -> Given<V>
    requires awaited { value_of (state_of futures.old.entries future) ≡ None }
    requires known { IsSome (state_of futures.old.entries future) }
    ensures { IsGiven futures.old.entries futures.new.entries future (state_of futures.old.entries future) value result }
{
    match futures.remove(&future) {
        Some(FutureState::Waiting(callbacks)) => Given::Awaited(value, callbacks),
        Some(FutureState::Given(given)) => {
            given.has_value();
            unreachable!()
        }
        None => unreachable!(),
    }
}

// What asking for the value of a future came to.
#[derive(Drop)]
enum Asked<V> {
    // Nothing is known of the future.
    Unknown,
    // The callback was added to those that wait.
    Waits,
    // It has this value.
    Found(V),
}

// A copy of the value of a future. Where others wait for it, the callback waits after them.
fn ask<A: App>(
    alloc: Global,
    app: &A,
    futures: &mut HashMap<Future, FutureState<A::Value>>,
    future: Future,
    callback: Callback,
) -> Result<Asked<A::Value>, OutOfMemory>
    ensures asked { IfOk result (λ r. IsAsked futures.old.entries futures.new.entries future (state_of futures.old.entries future) callback r) }
    ensures err { OnErr result (HasInPlace futures.old.entries futures.new.entries future (state_of futures.old.entries future)) }
{
    match futures.get_mut(&future) {
        None => Ok(Asked::Unknown),
        Some(state) => match look_or_wait(alloc, app, state, callback) {
            Ok(None) => Ok(Asked::Waits),
            Ok(Some(value)) => Ok(Asked::Found(value)),
            Err(_) => Err(OutOfMemory),
        },
    }
}

// The first callback waits for a future of which nothing is known.
fn wait_first<V: Drop>(
    alloc: Global,
    futures: &mut HashMap<Future, FutureState<V>>,
    future: Future,
    callback: Callback,
) -> Result<(), OutOfMemory>
    requires { state_of futures.old.entries future ≡ None }
    ensures ok { OnOk result (HasInPlace futures.old.entries futures.new.entries future (Some (of.Waiting (callback ∷ [])))) }
    ensures err { OnErr result (HasTheSame futures.old.entries futures.new.entries) }
{
    let mut callbacks = Callbacks::new(alloc);
    callbacks.push(callback)?;
    if futures
        .insert(future, FutureState::Waiting(callbacks))
        .is_err()
    {
        return Err(OutOfMemory);
    }
    Ok(())
}

// The value of a future of which nothing is known.
fn store<V: Drop>(
    alloc: Global,
    futures: &mut HashMap<Future, FutureState<V>>,
    future: Future,
    value: V,
) -> Result<Given<V>, GiveError<V>>
    requires { state_of futures.old.entries future ≡ None }
    ensures given { IfOk result (λ g. IsGiven futures.old.entries futures.new.entries future None value g) }
    ensures memory { IfErr result (λ e. e ≡ GiveError.OutOfMemory value) }
    ensures err { OnErr result (HasTheSame futures.old.entries futures.new.entries) }
{
    if futures.reserve(1).is_err() {
        return Err(GiveError::OutOfMemory(value));
    }
    let given = match GivenValue::new(alloc, value) {
        Ok(given) => given,
        Err(refused) => return Err(GiveError::OutOfMemory(refused.value)),
    };
    let _ = futures.insert(future, FutureState::Given(given));
    Ok(Given::Stored)
}

// A copy of the value of a future, if it has one.
fn find_value<A: App>(
    alloc: Global,
    app: &A,
    futures: &mut HashMap<Future, FutureState<A::Value>>,
    future: Future,
) -> Result<Option<A::Value>, OutOfMemory>
    ensures found { IfOk result (λ o. o ≡ value_of (state_of futures.old.entries future)) }
    ensures unknown { state_of futures.old.entries future ≡ None → HasTheSame futures.old.entries futures.new.entries }
    ensures known { IsSome (state_of futures.old.entries future) → HasInPlace futures.old.entries futures.new.entries future (state_of futures.old.entries future) }
{
    match futures.get_mut(&future) {
        None => Ok(None),
        Some(state) => look_at(alloc, app, state),
    }
}
