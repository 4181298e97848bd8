//! Values that are right for their futures, under a name for the application.
ghost use Rattle.std.specs.Prelude.{◌≡◌, ◌≢◌, [], ◌∷◌, ◌++◌, IfSome, IfNone, OnOk, OnErr, All, Contains};

use app_core::{App, Label, Naming, OutOfMemory};
use std::alloc::Global;
use std::marker::{Model, PhantomData};

/// A value that is right for its future.
#[derive(Drop)]
pub struct Held<A: App, J: Naming<A>> {
    future: Label,
    value: A::Value,
    of: PhantomData<J>,
}

impl<A: App, J: Naming<A>> Model for Held<A, J> {
    ghost use Rattle.std.specs.Prelude.{IfSome};
    ghost use Rattle.app_core.specs.declared.Label.{Label};

    ghost Value = { Label × A.Value };

    ghost view = { λ h. (h.future, h.value) };

    ghost invariant = { λ h. IfSome J.app (λ app. A.right_value app h.future h.value) };
}

impl<A: App, J: Naming<A>> Held<A, J> {
    /// A value that is right for this future.
    pub fn new(future: Label, value: A::Value) -> Held<A, J>
        requires { IfSome J.app (λ app. A.right_value app future value) }
        ensures { result ≡ (future, value) }
    {
        Held {
            future,
            value,
            of: PhantomData,
        }
    }

    /// Its future.
    pub fn future(&self) -> Label
        ensures { result ≡ self.now.0 }
    {
        self.future
    }

    /// The value.
    pub fn value(&self) -> &A::Value
        ensures value { result.now ≡ self.now.1 }
        ensures right { IfSome J.app (λ app. A.right_value app self.now.0 self.now.1) }
    {
        &self.value
    }
}

/// The values that were given, each right for its future.
#[derive(Drop)]
pub struct Table<A: App, J: Naming<A>> {
    held: Vec<Held<A, J>>,
}

impl<A: App, J: Naming<A>> Model for Table<A, J> {
    ghost use Rattle.std.specs.Prelude.{List};
    ghost use Rattle.app_core.specs.declared.Label.{Label};

    ghost Value = { List (Label × A.Value) };

    ghost view = { λ t. t.held.items };
}

impl<A: App, J: Naming<A>> Table<A, J> {
    /// A table without values. It takes no memory yet; `alloc` is where it will come from.
    pub fn new(alloc: Global) -> Table<A, J>
        ensures { result ≡ [] }
    {
        Table {
            held: Vec::new(alloc),
        }
    }

    /// Adds a value last. Where memory runs out the value is gone, and those before stay.
    pub fn put(&mut self, held: Held<A, J>) -> Result<(), OutOfMemory>
        ensures ok { OnOk result (self.new ≡ self.old ++ held ∷ []) }
        ensures err { OnErr result (self.new ≡ self.old) }
    {
        match self.held.push(held) {
            Ok(()) => Ok(()),
            Err(_) => Err(OutOfMemory),
        }
    }

    /// A value of this future. None exactly where there is none.
    pub fn find(&self, future: Label) -> Option<&Held<A, J>>
        ensures found { IfSome result (λ h. (h.now.0 ≡ future) × Contains self.now h.now) }
        ensures missing { IfNone result (All (λ h. h.0 ≢ future) self.now) }
    {
        for held in &self.held {
            if held.future() == future {
                return Some(held);
            }
        }
        None
    }
}
