//! What no clause says: that memory suffices. And the way of a task through the tables, at a small application.
ghost use Rattle.std.specs.Prelude.{◌≡◌, [], ◌∷◌, Some, IfOk, IfSome, IsSome};
ghost use Rattle.app_core.specs.Inputs.{AreRight};

use super::*;
use app_core::{App, CellName, Label, Naming};
use event_lists::{Bringer, Future};
use future_cell::Callback;
use small_app::{SmallApp, Unit};
use std::alloc::Global;
use std::marker::Brand;
use std::test::Fail;

const MAIN: Bringer = Bringer::Main { rank: 0 };

const TASK: Bringer = Bringer::Task { rank: 0, number: 0 };

// The future of this place that somebody created.
fn future(by: Bringer, place: u64) -> Future {
    Future {
        by,
        label: label(place),
    }
}

const fn label(place: u64) -> Label
    ensures { result ≡ record { command = 1; part = 0; place = place } }
{
    Label {
        command: 1,
        part: 0,
        place,
    }
}

const fn place_of(id: u64, index: u32) -> Callback {
    Callback::Task { id, index }
}

const APP: SmallApp = SmallApp { ranks: 1 };

#[test]
fn a_value_waits_for_who_asks(rt: HostRuntime) -> Result<(), Fail> {
    let mut table: FutureTable<SmallApp, Brand> = FutureTable::new(rt.alloc());
    assert!(rt; matches!(&table.give(future(TASK, 2), 5), Ok(Given::Stored)));
    assert!(rt; table.give(future(TASK, 2), 6).is_err());
    assert_eq!(rt; table.find(&APP, future(TASK, 2))?, Some(5));
    assert_eq!(rt; table.find(&APP, future(MAIN, 2))?, None);
    assert_eq!(rt;
        table.take_or_wait(&APP, future(TASK, 2), place_of(1, 0))?,
        Some(5)
    );
    assert_eq!(rt;
        table.take_or_wait(&APP, future(TASK, 2), place_of(1, 0))?,
        None
    );
    Ok(())
}

#[test]
fn who_asks_waits_for_a_value(rt: HostRuntime) -> Result<(), Fail> {
    let mut table: FutureTable<SmallApp, Brand> = FutureTable::new(rt.alloc());
    assert_eq!(rt;
        table.take_or_wait(&APP, future(TASK, 2), place_of(1, 0))?,
        None
    );
    assert_eq!(rt;
        table.take_or_wait(&APP, future(TASK, 2), place_of(2, 1))?,
        None
    );
    assert_eq!(rt; table.find(&APP, future(TASK, 2))?, None);
    match table.give(future(TASK, 2), 5) {
        Ok(Given::Awaited(value, callbacks)) => {
            assert_eq!(rt; value, 5);
            assert!(rt; callbacks.as_slice() == [place_of(1, 0), place_of(2, 1)].as_slice());
        }
        _ => return Err("two callbacks wait".into()),
    }
    assert_eq!(rt; table.find(&APP, future(TASK, 2))?, None);
    Ok(())
}

// A unit with two needs, through the tables: three values don't fill a place, or not the last one.
fn two_values_named<A: App, J: Naming<A>>(
    alloc: Global,
    app: &A,
    unit: A::Unit,
    needs: (Label, Label),
    first: A::Value,
    second: (A::Value, A::Value, A::Value),
) -> Result<Option<Opened<A::Unit, A::Value, A::Cell>>, OutOfMemory>
    requires named { J.app ≡ Some app.now }
    requires unit { A.is_unit app.now unit }
    requires due { IsSome (A.due_of app.now unit) }
    requires needs { A.needs_of app.now unit ≡ needs.0 ∷ needs.1 ∷ [] }
    requires first { A.right_value app.now needs.0 first }
    requires second { A.right_value app.now needs.1 second.0 × A.right_value app.now needs.1 second.1 × A.right_value app.now needs.1 second.2 }
    ensures { IfOk result (λ o. IfSome o (λ r. AreRight (A.right_value app.now) (A.needs_of app.now r.unit) r.values.items)) }
{
    let mut tables: RankTables<A, J> = RankTables::new(alloc);
    let number = 0;
    let task = Task::new(alloc, app, unit, number, Some(MAIN), &[needs.0, needs.1])?;
    let early = tables.tasks.enter(task)?;
    let of_another = tables.tasks.fill_value(number, 0, needs.1, second.0);
    let to_another = tables.tasks.fill_value(number + 1, 1, needs.1, second.1);
    let not_last = tables.tasks.fill_value(number, 1, needs.1, second.2);
    if early.is_some() || of_another.is_some() || to_another.is_some() || not_last.is_some() {
        return Ok(None);
    }
    match tables.tasks.fill_value(number, 0, needs.0, first) {
        Some(ready) => Ok(Some(ready.open())),
        None => Ok(None),
    }
}

fn two_values<A: App>(
    alloc: Global,
    app: &A,
    unit: A::Unit,
    needs: (Label, Label),
    first: A::Value,
    second: (A::Value, A::Value, A::Value),
) -> Result<Option<Opened<A::Unit, A::Value, A::Cell>>, OutOfMemory>
    requires unit { A.is_unit app.now unit }
    requires due { IsSome (A.due_of app.now unit) }
    requires needs { A.needs_of app.now unit ≡ needs.0 ∷ needs.1 ∷ [] }
    requires first { A.right_value app.now needs.0 first }
    requires second { A.right_value app.now needs.1 second.0 × A.right_value app.now needs.1 second.1 × A.right_value app.now needs.1 second.2 }
    ensures { IfOk result (λ o. IfSome o (λ r. AreRight (A.right_value app.now) (A.needs_of app.now r.unit) r.values.items)) }
{
    two_values_named::<A, Brand>(alloc, app, unit, needs, first, second)
}

#[test]
fn a_task_is_ready_at_its_last_place(rt: HostRuntime) -> Result<(), Fail> {
    let opened = two_values(
        rt.alloc(),
        &APP,
        Unit::Sum,
        (label(2), label(3)),
        5,
        (7, 7, 7),
    )?;
    let opened = opened.ok_or("both values are there")?;
    assert!(rt; opened.unit == Unit::Sum);
    assert!(rt; opened.values.as_slice() == [5, 7].as_slice());
    assert!(rt; opened.cells.is_empty() && opened.due == Some(MAIN));
    Ok(())
}

// A unit that reads one entry, through the tables.
fn one_cell_named<A: App, J: Naming<A>>(
    alloc: Global,
    app: &A,
    unit: A::Unit,
    entry: CellName,
    cell: A::Cell,
) -> Result<Option<Opened<A::Unit, A::Value, A::Cell>>, OutOfMemory>
    requires named { J.app ≡ Some app.now }
    requires unit { A.is_unit app.now unit }
    requires due { IsSome (A.due_of app.now unit) }
    requires needs { A.needs_of app.now unit ≡ [] }
    requires cell { A.right_cell app.now entry cell }
    ensures { IfOk result (λ o. IfSome o (λ r. AreRight (A.right_cell app.now) (A.reads_of app.now r.unit) r.cells.items)) }
{
    let mut table: TaskTable<A, J> = TaskTable::new(alloc);
    let task = Task::new(alloc, app, unit, 3, Some(MAIN), &[])?;
    if table.enter(task)?.is_some() {
        return Ok(None);
    }
    match table.fill_cell(app, 3, 0, entry, cell) {
        Some(ready) => Ok(Some(ready.open())),
        None => Ok(None),
    }
}

fn one_cell<A: App>(
    alloc: Global,
    app: &A,
    unit: A::Unit,
    entry: CellName,
    cell: A::Cell,
) -> Result<Option<Opened<A::Unit, A::Value, A::Cell>>, OutOfMemory>
    requires unit { A.is_unit app.now unit }
    requires due { IsSome (A.due_of app.now unit) }
    requires needs { A.needs_of app.now unit ≡ [] }
    requires cell { A.right_cell app.now entry cell }
    ensures { IfOk result (λ o. IfSome o (λ r. AreRight (A.right_cell app.now) (A.reads_of app.now r.unit) r.cells.items)) }
{
    one_cell_named::<A, Brand>(alloc, app, unit, entry, cell)
}

#[test]
fn a_task_waits_for_an_entry(rt: HostRuntime) -> Result<(), Fail> {
    let entry = CellName {
        version: 1,
        place: 2,
    };
    let opened = one_cell(rt.alloc(), &APP, Unit::Read, entry, 5)?;
    let opened = opened.ok_or("the entry is there")?;
    assert!(rt; opened.unit == Unit::Read && opened.number == 3);
    assert!(rt; opened.cells.as_slice() == [5].as_slice());
    Ok(())
}
