//! Messages of an application.
ghost use Rattle.std.specs.Prelude.{◌≡◌, IfSome};
ghost use Rattle.mailbox.specs.Loads.{IsRightLoad};

use crate::load::Load;
use app_core::{App, Naming};
use std::marker::{Model, PhantomData};

/// A message of the application that `J` names. Contracts see its load, which is right, whoever sent it.
#[derive(Drop)]
pub struct Mail<A: App, J: Naming<A>> {
    load: Load<A::Unit, A::Value>,
    of: PhantomData<J>,
}

impl<A: App, J: Naming<A>> Model for Mail<A, J> {
    ghost use Rattle.std.specs.Prelude.{IfSome};
    ghost use Rattle.mailbox.specs.declared.load.Load.{Load};
    ghost use Rattle.mailbox.specs.Loads.{IsRightLoad};

    ghost Value = { Load A.Unit A.Value };

    ghost view = { λ m. m.load };

    ghost invariant = { λ m. IfSome J.app (λ app. IsRightLoad (A.is_unit app) (A.due_of app) (A.needs_of app) (A.right_value app) m.load) };
}

impl<A: App, J: Naming<A>> Mail<A, J> {
    /// A message with this load, which is right.
    pub fn new(load: Load<A::Unit, A::Value>) -> Mail<A, J>
        requires { IfSome J.app (λ app. IsRightLoad (A.is_unit app) (A.due_of app) (A.needs_of app) (A.right_value app) load) }
        ensures { result ≡ load }
    {
        Mail {
            load,
            of: PhantomData,
        }
    }

    /// Its load.
    pub fn into_load(self) -> Load<A::Unit, A::Value>
        ensures load { result ≡ self }
        ensures right { IfSome J.app (λ app. IsRightLoad (A.is_unit app) (A.due_of app) (A.needs_of app) (A.right_value app) result) }
    {
        self.load
    }
}
