//! What waits for a future, until it has its value.
ghost use Rattle.std.specs.Prelude.{◌≡◌, ◌≢◌, ◌∷◌, ◌++◌, ◌↔◌, [], true, false, Err, IfErr, IfNone, IfSome, IsNone, IsTrue, OnErr, OnOk};
ghost use Rattle.future_cell.specs.PendingState.{refused_callback};

use crate::callback::Callback;
use crate::callbacks::Callbacks;
use std::alloc::Global;
use std::marker::Model;
use std::mem;
use thiserror::Error;

/// Why a callback wasn't added. Each hands it back.
#[derive(Clone, Copy, Debug, PartialEq, Eq, Error)]
pub enum NotAdded {
    /// The future has a value: what is to be done can be done at once.
    #[error("the future has a value")]
    Assigned(Callback),
    /// Memory was refused for one more callback.
    #[error("out of memory")]
    OutOfMemory(Callback),
}

/// The callbacks that wait for a future. It is open until they are handed out, and then closed and empty.
#[derive(Drop)]
pub struct Pending {
    callbacks: Callbacks,
    closed: bool,
    alloc: Global,
}

impl Model for Pending {
    ghost use Rattle.std.specs.Prelude.{◌≡◌, [], true};
    ghost use Rattle.future_cell.specs.PendingState.{PendingState};

    ghost Value = { PendingState };

    ghost view = { λ p. record { callbacks = p.callbacks; closed = p.closed } };

    ghost invariant = { λ p. p.closed ≡ true → p.callbacks ≡ [] };
}

impl Pending {
    /// No callbacks, and open. It takes no memory yet; `alloc` is where it will come from.
    pub fn new(alloc: Global) -> Pending
        ensures { result ≡ record { callbacks = []; closed = false } }
    {
        Pending {
            callbacks: Callbacks::new(alloc),
            closed: false,
            alloc,
        }
    }

    /// Adds the callback last. The first one takes no memory. `Assigned` exactly where the state is closed;
    /// `OutOfMemory` when memory is refused for a later one. Each gives the callback back, and the state stays.
    pub fn add(&mut self, callback: Callback) -> Result<(), NotAdded>
        ensures added { OnOk result (self.new.callbacks ≡ self.old.callbacks ++ callback ∷ []) }
        ensures open { OnOk result (self.new.closed ≡ false) }
        ensures assigned { (result ≡ Err (NotAdded.Assigned callback)) ↔ IsTrue self.old.closed }
        ensures later { result ≡ Err (NotAdded.OutOfMemory callback) → self.old.callbacks ≢ [] }
        ensures back { IfErr result (λ e. refused_callback e ≡ callback) }
        ensures same { OnErr result (self.new ≡ self.old) }
    {
        if self.closed {
            return Err(NotAdded::Assigned(callback));
        }
        if self.callbacks.push(callback).is_err() {
            return Err(NotAdded::OutOfMemory(callback));
        }
        Ok(())
    }

    /// Whether the callbacks were handed out.
    pub fn is_closed(&self) -> bool
        ensures { result ≡ self.now.closed }
    {
        self.closed
    }

    /// Hands out all callbacks, in order, and leaves the state empty and closed. None exactly where it was closed. It
    /// takes no memory.
    pub fn close(&mut self) -> Option<Callbacks>
        ensures all { IfSome result (λ c. c ≡ self.old.callbacks) }
        ensures none { IsNone result ↔ IsTrue self.old.closed }
        ensures empty { IfNone result (self.old.callbacks ≡ []) }
        ensures after { self.new ≡ record { callbacks = []; closed = true } }
    {
        if self.closed {
            return None;
        }
        self.closed = true;
        Some(mem::replace(&mut self.callbacks, Callbacks::new(self.alloc)))
    }
}
