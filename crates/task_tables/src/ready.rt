//! A task that is ready to run.
ghost use Rattle.std.specs.Prelude.{◌≡◌, ◌↔◌, Some, IsSome, IfSome, map};
ghost use Rattle.app_core.specs.Inputs.{AreRight};
ghost use Rattle.task_tables.specs.Tasks.{IsReadyTask};

use crate::task::{Opened, Task};
use app_core::{App, Naming};
use std::marker::Model;

/// A task each of whose places is filled. Contracts see the task.
#[derive(Drop)]
pub struct Ready<A: App, J: Naming<A>> {
    task: Task<A, J>,
}

impl<A: App, J: Naming<A>> Model for Ready<A, J> {
    ghost use Rattle.event_lists.specs.contracts.future.Bringer as bringer;
    ghost use Rattle.app_core.specs.contracts.label.Label as label;
    ghost use Rattle.task_tables.specs.Tasks.{TaskData, task_code, IsReadyTask};

    ghost Value = { TaskData A.Unit A.Value A.Cell };

    ghost coded = { task_code A.Unit.code bringer.the_row.coded label.the_row.coded A.Value.code A.Cell.code };

    ghost view = { λ r. r.task };

    ghost invariant = { λ r. IsReadyTask r.task };
}

impl<A: App, J: Naming<A>> Ready<A, J> {
    /// The task, each of whose places is filled.
    pub fn new(task: Task<A, J>) -> Ready<A, J>
        requires { IsReadyTask task }
        ensures { result ≡ task }
    {
        Ready { task }
    }

    /// Its task.
    pub fn task(&self) -> &Task<A, J>
        ensures task { result.now ≡ self.now }
        ensures ready { IsReadyTask self.now }
    {
        &self.task
    }

    /// The unit with all that its step is given, which is right for the unit. It takes no memory.
    pub fn open(self) -> Opened<A::Unit, A::Value, A::Cell>
        ensures unit { (result.unit ≡ self.unit) × (result.number ≡ self.number) × (result.due ≡ self.due) }
        ensures values { map Some result.values.items ≡ self.values }
        ensures cells { map Some result.cells.items ≡ self.cells }
        ensures right { IfSome J.app (λ app. A.is_unit app result.unit × (IsSome result.due ↔ IsSome (A.due_of app result.unit))
            × AreRight (A.right_value app) (A.needs_of app result.unit) result.values.items
            × AreRight (A.right_cell app) (A.reads_of app result.unit) result.cells.items) }
    {
        self.task.open()
    }
}
