//! Which application the values behind locks are of.
ghost use Rattle.std.specs.Prelude.{Option, None};

use std::marker::Brand;

/// Names an application, for the types of values behind locks.
///
/// What a lock holds is known by its type alone, and the application is there only when a program runs. So such a
/// type has a type parameter that stands for the application: `J: Naming<A>`, where `J.app` is `Some` of it. The
/// public call that gets the application calls one function at [`Brand`] and picks the member there; that
/// function, and all below it, have the condition that `J.app` is that application.
///
/// The trait has no bound on `A`, since a call can't pick the members of a trait that has one.
pub trait Naming<A> {
    /// The application, or none where no call picked one.
    ghost app: { Option A };
}

impl<A> Naming<A> for Brand {
    ghost app = { None };
}
