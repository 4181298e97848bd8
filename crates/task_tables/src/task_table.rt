//! The tasks of a rank that wait.
ghost use Rattle.std.specs.Prelude.{◌≡◌, [], None, Some, IfNone, IfOk, IfSome, OnErr, nat_eq};
ghost use Rattle.std.specs.HashMap as hash;
ghost use Rattle.task_tables.specs.Places.{IsEmptyPlaceOf};
ghost use Rattle.task_tables.specs.declared.task_table.Filling.TheVariants as of;
ghost use Rattle.task_tables.specs.Tasks.{TaskData, IsReadyTask, task_of, with_cell, with_value, HasInPlace, HasTheSame, FillsPlace, IsFilling};

use crate::OutOfMemory;
use crate::ready::Ready;
use crate::task::Task;
use app_core::{App, CellName, Label, Naming};
use std::alloc::Global;
use std::collections::HashMap;
use std::marker::Model;

/// The tasks of a rank that wait, by their numbers. Contracts see the list of them, in no order.
#[derive(Drop)]
pub struct TaskTable<A: App, J: Naming<A>> {
    tasks: HashMap<u64, Task<A, J>>,
}

impl<A: App, J: Naming<A>> Model for TaskTable<A, J> {
    ghost use Rattle.std.specs.Prelude.{ℕ, List};
    ghost use Rattle.std.specs.Coded.{coded_ℕ, coded_list, coded×};
    ghost use Rattle.event_lists.specs.contracts.future.Bringer as bringer;
    ghost use Rattle.app_core.specs.contracts.label.Label as label;
    ghost use Rattle.task_tables.specs.Tasks.{TaskData, task_code};

    ghost Value = { List (ℕ × TaskData A.Unit A.Value A.Cell) };

    ghost coded = { coded_list (coded× coded_ℕ (task_code A.Unit.code bringer.the_row.coded label.the_row.coded A.Value.code A.Cell.code)) };

    ghost view = { λ t. t.tasks.entries };
}

impl<A: App, J: Naming<A>> TaskTable<A, J> {
    /// No tasks. It takes no memory; `alloc` is where that of later ones will come from.
    pub fn new(alloc: Global) -> TaskTable<A, J>
        ensures { result ≡ [] }
    {
        TaskTable {
            tasks: HashMap::new(alloc),
        }
    }

    /// Takes a task in under its number. Where each of its places is filled it comes out again at once, and all stays.
    pub fn enter(&mut self, task: Task<A, J>) -> Result<Option<Ready<A, J>>, OutOfMemory>
        ensures ready { IfOk result (λ o. IfSome o (λ r. (r ≡ task) × IsReadyTask task × HasTheSame self.old self.new)) }
        ensures waits { IfOk result (λ o. IfNone o ((IsReadyTask task → ⊥) × HasInPlace self.old self.new task.number (Some task))) }
        ensures err { OnErr result (HasTheSame self.old self.new) }
    {
        if task.is_ready() {
            return Ok(Some(Ready::new(task)));
        }
        match self.tasks.insert(task.number(), task) {
            Ok(_) => Ok(None),
            Err(_) => Err(OutOfMemory),
        }
    }

    /// Fills the place of the needed future with this index, of the task with this number, with the future's value. Where
    /// there is no such task, or this isn't an empty place of it for this future, the value is dropped. The task comes
    /// out exactly where each of its places is filled then.
    pub fn fill_value(
        &mut self,
        number: u64,
        index: u32,
        future: Label,
        value: A::Value,
    ) -> Option<Ready<A, J>>
        requires { IfSome J.app (λ app. A.right_value app future value) }
        ensures unknown { task_of self.old number ≡ None → (result ≡ None) × HasTheSame self.old self.new }
        ensures known { (before : TaskData A.Unit A.Value A.Cell) → task_of self.old number ≡ Some before
            → FillsPlace self.old self.new number (IsEmptyPlaceOf before.needs before.values index future) (with_value before index value) result }
    {
        match fill_value_at(&mut self.tasks, number, index, future, value) {
            Filling::Refused => None,
            Filling::Waits => None,
            Filling::Last => take_out(&mut self.tasks, number),
        }
    }

    /// Fills the place of the entry with this index, of the task with this number, with the entry's cell. Where there is no
    /// such task, or this isn't an empty place of it for this entry, all stays. The task comes out exactly where each of
    /// its places is filled then.
    pub fn fill_cell(
        &mut self,
        app: &A,
        number: u64,
        index: u32,
        entry: CellName,
        cell: A::Cell,
    ) -> Option<Ready<A, J>>
        requires named { J.app ≡ Some app.now }
        requires right { A.right_cell app.now entry cell }
        ensures unknown { task_of self.old number ≡ None → (result ≡ None) × HasTheSame self.old self.new }
        ensures known { (before : TaskData A.Unit A.Value A.Cell) → task_of self.old number ≡ Some before
            → FillsPlace self.old self.new number (IsEmptyPlaceOf (A.reads_of app.now before.unit) before.cells index entry) (with_cell before index cell) result }
    {
        match fill_cell_at(app, &mut self.tasks, number, index, entry, cell) {
            Filling::Refused => None,
            Filling::Waits => None,
            Filling::Last => take_out(&mut self.tasks, number),
        }
    }
}

// What filling a place came to.
#[derive(Clone, Copy)]
pub(crate) enum Filling {
    // There is no such task, or this isn't an empty place for it.
    Refused,
    // The task has other empty places.
    Waits,
    // It was the last empty place.
    Last,
}

// Fills a place for a value, of the task with this number.
fn fill_value_at<A: App, J: Naming<A>>(
    tasks: &mut HashMap<u64, Task<A, J>>,
    number: u64,
    index: u32,
    future: Label,
    value: A::Value,
) -> Filling
    requires { IfSome J.app (λ app. A.right_value app future value) }
    ensures unknown { hash.get nat_eq tasks.old number ≡ None → (result ≡ of.Refused) × HasTheSame tasks.old.entries tasks.new.entries }
    ensures known { (before : TaskData A.Unit A.Value A.Cell) → hash.get nat_eq tasks.old number ≡ Some before
        → IsFilling tasks.old.entries tasks.new.entries number (IsEmptyPlaceOf before.needs before.values index future) before (with_value before index value) result }
{
    let Some(task) = tasks.get_mut(&number) else {
        return Filling::Refused;
    };
    if !task.fill_value(index, future, value) {
        return Filling::Refused;
    }
    if task.is_ready() {
        return Filling::Last;
    }
    Filling::Waits
}

// Fills a place for a cell, of the task with this number.
fn fill_cell_at<A: App, J: Naming<A>>(
    app: &A,
    tasks: &mut HashMap<u64, Task<A, J>>,
    number: u64,
    index: u32,
    entry: CellName,
    cell: A::Cell,
) -> Filling
    requires named { J.app ≡ Some app.now }
    requires right { A.right_cell app.now entry cell }
    ensures unknown { hash.get nat_eq tasks.old number ≡ None → (result ≡ of.Refused) × HasTheSame tasks.old.entries tasks.new.entries }
    ensures known { (before : TaskData A.Unit A.Value A.Cell) → hash.get nat_eq tasks.old number ≡ Some before
        → IsFilling tasks.old.entries tasks.new.entries number (IsEmptyPlaceOf (A.reads_of app.now before.unit) before.cells index entry) before (with_cell before index cell) result }
{
    let Some(task) = tasks.get_mut(&number) else {
        return Filling::Refused;
    };
    if !task.fill_cell(app, index, entry, cell) {
        return Filling::Refused;
    }
    if task.is_ready() {
        return Filling::Last;
    }
    Filling::Waits
}

// Takes the task of this number out. It is ready where each of its places is filled.
fn take_out<A: App, J: Naming<A>>(
    tasks: &mut HashMap<u64, Task<A, J>>,
    number: u64,
) -> Option<Ready<A, J>>
    ensures ready { (task : TaskData A.Unit A.Value A.Cell) → hash.get nat_eq tasks.old number ≡ Some task → IsReadyTask task → result ≡ Some task }
    ensures rest { HasInPlace tasks.old.entries tasks.new.entries number None }
{
    let task = tasks.remove(&number)?;
    if !task.is_ready() {
        return None;
    }
    Some(Ready::new(task))
}
