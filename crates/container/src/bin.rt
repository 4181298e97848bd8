//! A bin of an application.
ghost use Rattle.std.specs.Prelude.{◌≡◌, ◌↔◌, [], ◌∷◌, ◌++◌, None, Err, IfErr, IfOk, IfSome, IfNone, IsSome, OnErr, OnOk};
ghost use Rattle.std.specs.FinMap as fin;
ghost use Rattle.container.specs.LookUps.{callbacks_of, others};
ghost use Rattle.container.specs.Refusals.{refused_cell};
ghost use Rattle.container.specs.RightBins.{AreRight, AreRead, IsRead};

use crate::OutOfMemory;
use crate::bin_state::BinState;
use crate::refusals::InsertError;
use app_core::{App, CellName, Naming};
use future_cell::{Callback, Callbacks};
use std::alloc::Global;
use std::marker::{Model, PhantomData};

/// A bin of the application that `J` names. Contracts see its state. Each entry in it has a cell that is right for its
/// name, whoever put it, and some unit of the application reads each entry that is waited for.
#[derive(Drop)]
pub struct Bin<A: App, J: Naming<A>> {
    state: BinState<A::Cell>,
    of: PhantomData<J>,
}

impl<A: App, J: Naming<A>> Model for Bin<A, J> {
    ghost use Rattle.std.specs.Prelude.{IfSome};
    ghost use Rattle.std.specs.FinMap as fin;
    ghost use Rattle.container.specs.Names.{name_code};
    ghost use Rattle.container.specs.contracts.look_ups.LookUp as look_ups;
    ghost use Rattle.container.specs.BinState.{BinData, bin_code};
    ghost use Rattle.container.specs.RightBins.{AreRight, AreRead};

    ghost Value = { BinData A.Cell };

    ghost coded = { bin_code (fin.code name_code A.Cell.code) look_ups.the_row.coded };

    ghost view = { λ b. b.state };

    ghost invariant = { λ b. IfSome J.app (λ app. AreRight (A.right_cell app) b.state.entries × AreRead (A.is_unit app) (A.reads_of app) b.state.waiting) };
}

impl<A: App, J: Naming<A>> Bin<A, J> {
    /// No entries, and none waited for. It takes no memory.
    pub fn new(alloc: Global) -> Bin<A, J>
        ensures entries { result.entries ≡ fin.empty }
        ensures waiting { result.waiting ≡ [] }
    {
        Bin {
            state: BinState::new(alloc),
            of: PhantomData,
        }
    }

    /// Its state, for reading.
    pub fn state(&self) -> &BinState<A::Cell>
        ensures state { result.now ≡ self.now }
        ensures right { IfSome J.app (λ app. AreRight (A.right_cell app) self.now.entries) }
        ensures read { IfSome J.app (λ app. AreRead (A.is_unit app) (A.reads_of app) self.now.waiting) }
    {
        &self.state
    }

    /// The cell of a name that some unit of the application reads, which is right for the name. Where the name has no
    /// entry, the callback waits for it from now on, after all others.
    pub fn find_or_wait(
        &mut self,
        name: CellName,
        callback: Callback,
    ) -> Result<Option<A::Cell>, OutOfMemory>
        requires { IfSome J.app (λ app. IsRead (A.is_unit app) (A.reads_of app) name) }
        ensures right { IfSome J.app (λ app. IfOk result (λ o. IfSome o (λ cell. A.right_cell app name cell))) }
        ensures found { IfOk result (λ o. o ≡ fin.get self.old.entries name) }
        ensures there { IfOk result (λ o. IfSome o (λ _. self.new ≡ self.old)) }
        ensures waits { IfOk result (λ o. IfNone o (self.new ≡ record { entries = self.old.entries; waiting = self.old.waiting ++ record { name = name; callback = callback } ∷ [] })) }
        ensures missing { OnErr result (fin.get self.old.entries name ≡ None) }
        ensures err { OnErr result (self.new ≡ self.old) }
    {
        self.state.find_or_wait(name, callback)
    }

    /// Adds an entry with a cell that is right for its name, and hands out the callbacks that wait for the name, in
    /// order. `Present` exactly where the name has an entry. Each refusal hands the cell back, and all stays.
    pub fn put(&mut self, name: CellName, cell: A::Cell) -> Result<Callbacks, InsertError<A::Cell>>
        requires { IfSome J.app (λ app. A.right_cell app name cell) }
        ensures entries { OnOk result (self.new.entries ≡ fin.insert self.old.entries name cell) }
        ensures waiting { OnOk result (self.new.waiting ≡ others name self.old.waiting) }
        ensures callbacks { IfOk result (λ c. c ≡ callbacks_of name self.old.waiting) }
        ensures present { (result ≡ Err (InsertError.Present cell)) ↔ IsSome (fin.get self.old.entries name) }
        ensures back { IfErr result (λ e. refused_cell e ≡ cell) }
        ensures same { OnErr result (self.new ≡ self.old) }
    {
        self.state.insert(name, cell)
    }
}
