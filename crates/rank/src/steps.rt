//! Steps of units: what a task asks for once its places are filled, and the starts of commands.
ghost use Rattle.std.specs.Prelude.{◌≡◌, None, Some, IfOk};
ghost use Rattle.std.specs.List.{AllByRecursion};
ghost use Rattle.app_core.specs.Commands.{IsCommand, IsWork};
ghost use Rattle.app_core.specs.Effects.{IsRightEffect, IsSpawnedWithNeeds};
ghost use Rattle.app_core.specs.Inputs.{AreRight};

use crate::OutOfMemory;
use crate::desk::Desk;
use crate::spawner::Spawner;
use app_core::{App, Effects, Gate, Inputs, Naming};
use std::alloc::Global;
use std::sync::Wait;
use task_tables::{Opened, Ready};

impl<'a, A: App, J: Naming<A>> Desk<'a, A, J> {
    // Takes a task out of the pool and runs it. Whether there was one.
    pub(crate) fn run_next<G: Gate, R: Wait>(
        &mut self,
        rt: &R,
        app: &A,
        gate: &G,
    ) -> Result<bool, OutOfMemory>
        requires named { J.app ≡ Some app.now }
    {
        let Some(task) = self.take_task(rt) else {
            return Ok(false);
        };
        self.run(rt, app, gate, task)?;
        Ok(true)
    }

    // Makes the step of a task and carries its effects out. A task of another rank is dropped, and one whose unit counts
    // the entries of a version: how many there are is known at a fence alone, and mains pass over fences.
    fn run<G: Gate, R: Wait>(
        &mut self,
        rt: &R,
        app: &A,
        gate: &G,
        task: Ready<A, J>,
    ) -> Result<(), OutOfMemory>
        requires named { J.app ≡ Some app.now }
    {
        let share = self.share;
        let rank = share.rank();
        let opened = open_task(app, task);
        if app.home(&opened.unit, share.ranks()) != rank {
            return Ok(());
        }
        if app.counts(&opened.unit).is_some() {
            return Ok(());
        }
        let command = app.label(&opened.unit).command;
        let label = app.due(&opened.unit);
        let spawner = Spawner::task(rank, opened.number, label, opened.due);
        gate.enter(rt, rank, command);
        let effects = step(self.alloc, app, opened);
        gate.leave(rt, rank, command);
        self.carry_all(rt, app, spawner, &mut effects?.queue())
    }

    // Makes the starts of a work command, as the main of rank 0 does.
    pub(crate) fn start<R: Wait>(
        &mut self,
        rt: &R,
        app: &A,
        command: u32,
    ) -> Result<(), OutOfMemory>
        requires named { J.app ≡ Some app.now }
        requires command { IsCommand (A.kinds_of app.now) command }
        requires work { IsWork (A.kinds_of app.now) command }
    {
        let mut starts = starts(self.alloc, app, command, self.share.ranks_of(app))?;
        self.carry_all(rt, app, Spawner::main(), &mut starts.queue())
    }
}

// The starts of a command, which are right for as many ranks as the application is made for.
fn starts<A: App>(
    alloc: Global,
    app: &A,
    command: u32,
    ranks: u32,
) -> Result<Effects<A::Unit, A::Value, A::Cell>, OutOfMemory>
    requires command { IsCommand (A.kinds_of app.now) command }
    requires ranks { ranks ≡ A.ranks_of app.now }
    ensures right { IfOk result (λ e. AllByRecursion (IsRightEffect (A.right_value app.now) (A.right_cell app.now) (A.is_unit app.now)) e) }
    ensures needs { IfOk result (λ e. AllByRecursion (IsSpawnedWithNeeds (A.needs_of app.now)) e) }
{
    app.starts(alloc, command, ranks)
}

// A task's unit with its inputs, which are right for the application.
fn open_task<A: App, J: Naming<A>>(app: &A, task: Ready<A, J>) -> Opened<A::Unit, A::Value, A::Cell>
    requires named { J.app ≡ Some app.now }
    ensures unit { A.is_unit app.now result.unit }
    ensures values { AreRight (A.right_value app.now) (A.needs_of app.now result.unit) result.values.items }
    ensures cells { AreRight (A.right_cell app.now) (A.reads_of app.now result.unit) result.cells.items }
{
    let _ = app;
    task.open()
}

// The effects of a unit that counts nothing on its inputs, which are right.
fn step<A: App>(
    alloc: Global,
    app: &A,
    opened: Opened<A::Unit, A::Value, A::Cell>,
) -> Result<Effects<A::Unit, A::Value, A::Cell>, OutOfMemory>
    requires counts { A.counts_of app.now opened.unit ≡ None }
    requires unit { A.is_unit app.now opened.unit }
    requires values { AreRight (A.right_value app.now) (A.needs_of app.now opened.unit) opened.values.items }
    requires cells { AreRight (A.right_cell app.now) (A.reads_of app.now opened.unit) opened.cells.items }
    ensures right { IfOk result (λ e. AllByRecursion (IsRightEffect (A.right_value app.now) (A.right_cell app.now) (A.is_unit app.now)) e) }
    ensures needs { IfOk result (λ e. AllByRecursion (IsSpawnedWithNeeds (A.needs_of app.now)) e) }
{
    app.step(
        alloc,
        opened.unit,
        Inputs::new(opened.values, opened.cells, 0),
    )
}
