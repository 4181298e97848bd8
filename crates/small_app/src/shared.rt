//! Two threads over values behind a lock, for any application.
ghost use Rattle.std.specs.Prelude.{◌≡◌, [], Some, IfSome, IfOk, OnOk, length};
ghost use Rattle.std.specs.List.{AllByRecursion};
ghost use Rattle.app_core.specs.Effects.{IsRightEffect};
ghost use Rattle.app_core.specs.Inputs.{AreRightInputs};

use crate::held::{Held, Table};
use app_core::{App, EffectQueue, Effects, Inputs, Label, LentEffect, Naming, OutOfMemory};
use std::alloc::Global;
use std::marker::Brand;
use std::sync::{Mutex, Wait};
use std::thread::{Threads, join};

/// Puts each value that is given into the table, and drops the other effects. At Ok none is left; that the values
/// are in the table then isn't proved, since a lock's value is known by its type alone. `OutOfMemory` comes only when
/// memory is refused, and the effects that weren't taken yet are left.
pub fn give<A: App, J: Naming<A>, R: Wait>(
    rt: &R,
    app: &A,
    table: &Mutex<Table<A, J>>,
    effects: &mut EffectQueue<A::Unit, A::Value, A::Cell>,
) -> Result<(), OutOfMemory>
    requires named { J.app ≡ Some app.now }
    requires right { AllByRecursion (IsRightEffect (A.right_value app.now) (A.right_cell app.now) (A.is_unit app.now)) effects.old }
    ensures { OnOk result (effects.new ≡ []) }
{
    while let Some(effect) = effects.take_first() {
        if let LentEffect::Give(future, value) = effect {
            table.lock(rt).put(Held::new(future, value))?;
        }
    }
    Ok(())
}

/// A copy of the value of a future, where it is in the table.
pub fn look<A: App, J: Naming<A>, R: Wait>(
    rt: &R,
    alloc: Global,
    app: &A,
    table: &Mutex<Table<A, J>>,
    future: Label,
) -> Result<Option<A::Value>, OutOfMemory>
    requires named { J.app ≡ Some app.now }
    ensures { IfOk result (λ o. IfSome o (λ v. A.right_value app.now future v)) }
{
    let open = table.lock(rt);
    match open.find(future) {
        None => Ok(None),
        Some(held) => Ok(Some(app.copy_value(alloc, held.value())?)),
    }
}

// One thread gives values while the other looks for one; once both have ended, it is looked for again.
fn give_and_look<A: App, J: Naming<A> + Send + Sync, R: Threads + Wait + Sync>(
    rt: &R,
    alloc: Global,
    app: &A,
    mut effects: Effects<A::Unit, A::Value, A::Cell>,
    future: Label,
) -> Result<Option<A::Value>, OutOfMemory>
    requires named { J.app ≡ Some app.now }
    requires right { AllByRecursion (IsRightEffect (A.right_value app.now) (A.right_cell app.now) (A.is_unit app.now)) effects }
    ensures { IfOk result (λ o. IfSome o (λ v. A.right_value app.now future v)) }
{
    let shared: Mutex<Table<A, J>> = Mutex::new(Table::new(alloc));
    let table = &shared;
    let work = &mut effects;
    let (given, found) = join(
        rt,
        move || -> Result<(), OutOfMemory>
            requires named { J.app ≡ Some app.now }
            requires right { AllByRecursion (IsRightEffect (A.right_value app.now) (A.right_cell app.now) (A.is_unit app.now)) work.now }
        { give(rt, app, table, &mut work.queue()) },
        move || -> Result<Option<A::Value>, OutOfMemory>
            requires named { J.app ≡ Some app.now }
            ensures { IfOk result (λ o. IfSome o (λ v. A.right_value app.entry.now future v)) }
        { look(rt, alloc, app, table, future) },
    );
    given?;
    match found? {
        Some(value) => Ok(Some(value)),
        None => look(rt, alloc, app, table, future),
    }
}

/// Makes the step of a unit on right inputs, and puts what it gives into a table behind a lock, while a second
/// thread looks there for the value of a future. What is found is right. None comes only where the step doesn't
/// give that future (not proved: a lock's value is known by its type alone). `OutOfMemory` comes only when memory
/// is refused.
pub fn step_and_look<A: App, R: Threads + Wait + Sync>(
    rt: &R,
    alloc: Global,
    app: &A,
    unit: A::Unit,
    inputs: Inputs<A::Value, A::Cell>,
    future: Label,
) -> Result<Option<A::Value>, OutOfMemory>
    requires unit { A.is_unit app.now unit }
    requires values { length inputs.values ≡ length (A.needs_of app.now unit) }
    requires cells { length inputs.cells ≡ length (A.reads_of app.now unit) }
    requires right { AreRightInputs (A.right_value app.now) (A.right_cell app.now) (A.right_size app.now)
        (A.needs_of app.now unit) (A.reads_of app.now unit) (A.counts_of app.now unit) (A.home_of app.now unit (A.ranks_of app.now)) inputs }
    ensures { IfOk result (λ o. IfSome o (λ v. A.right_value app.now future v)) }
{
    let effects = app.step(alloc, unit, inputs)?;
    give_and_look::<A, Brand, R>(rt, alloc, app, effects, future)
}
