//! Lists of callbacks, of which one takes no memory.
ghost use Rattle.std.specs.Prelude.{◌≡◌, ◌==◌, ◌∷◌, ◌++◌, [], length, IfOk, IsOk, OnErr, OnOk};

use crate::OutOfMemory;
use crate::callback::Callback;
use std::alloc::Global;
use std::marker::Model;
use std::slice;

/// Callbacks, in the order in which they were added. Contracts see the list of them. Almost always there is one, and
/// only more of them take memory.
#[derive(Drop)]
pub struct Callbacks {
    stored: Stored,
    alloc: Global,
}

// Where the callbacks are: one lies here, more lie in a vector.
#[derive(Drop)]
enum Stored {
    Empty,
    One(Callback),
    More(Vec<Callback>),
}

impl Model for Callbacks {
    ghost use Rattle.std.specs.Prelude.{List};
    ghost use Rattle.future_cell.specs.declared.callback.Callback.{Callback};

    ghost Value = { List Callback };

    ghost use Rattle.future_cell.specs.StoredCallbacks.{callbacks_in, IsStored};

    ghost view = { λ c. callbacks_in c.stored };

    ghost invariant = { λ c. IsStored c.stored };
}

impl Callbacks {
    /// No callbacks. It takes no memory; `alloc` is where that of later ones would come from.
    pub fn new(alloc: Global) -> Callbacks
        ensures { result ≡ [] }
    {
        Callbacks {
            stored: Stored::Empty,
            alloc,
        }
    }

    /// Adds a callback last. The first one takes no memory. `OutOfMemory` where there is no memory for a later one;
    /// then those before stay.
    pub fn push(&mut self, callback: Callback) -> Result<(), OutOfMemory>
        ensures ok { OnOk result (self.new ≡ self.old ++ callback ∷ []) }
        ensures err { OnErr result (self.new ≡ self.old) }
        ensures first { self.old ≡ [] → IsOk result }
    {
        match &mut self.stored {
            Stored::Empty => {
                self.stored = Stored::One(callback);
                Ok(())
            }
            Stored::One(first) => {
                self.stored = Stored::More(both(self.alloc, *first, callback)?);
                Ok(())
            }
            Stored::More(items) => match items.push(callback) {
                Ok(()) => Ok(()),
                Err(_) => Err(OutOfMemory),
            },
        }
    }

    /// All of them, in order.
    pub fn as_slice(&self) -> &[Callback]
        ensures { result.now ≡ self.now }
    {
        match &self.stored {
            Stored::Empty => &[],
            Stored::One(callback) => slice::from_ref(callback),
            Stored::More(items) => items.as_slice(),
        }
    }

    /// How many there are.
    pub fn len(&self) -> usize
        ensures { result ≡ length self.now }
    {
        self.as_slice().len()
    }

    /// Whether there are none.
    pub fn is_empty(&self) -> bool
        ensures { result ≡ (length self.now == 0) }
    {
        self.as_slice().is_empty()
    }
}

// A vector of two callbacks.
fn both(alloc: Global, first: Callback, second: Callback) -> Result<Vec<Callback>, OutOfMemory>
    ensures { IfOk result (λ v. v.items ≡ first ∷ second ∷ []) }
{
    let mut items = Vec::with_capacity(alloc, 2)?;
    items.push(first)?;
    items.push(second)?;
    Ok(items)
}
