//! Tasks that are submitted at a rank.
ghost use Rattle.std.specs.Prelude.{◌≡◌, ◌≤◌, ◌↔◌, [], Some, IfOk, IfSome, IsSome, length};
ghost use Rattle.app_core.specs.Needs.{max_needs};
ghost use Rattle.container.specs.RightBins.{IsRead};

use crate::OutOfMemory;
use crate::desk::Desk;
use app_core::{App, CellName, Label, Naming};
use container::Container;
use event_lists::{Bringer, Future};
use future_cell::Callback;
use std::sync::Wait;
use task_tables::{FutureTable, Ready, Task};

// So many entries a unit reads at most.
const MAX_READS: u32 = 16;

impl<'a, A: App, J: Naming<A>> Desk<'a, A, J> {
    // Submits a unit of this rank that needs no future. `due` is who created its due, if it has one. Where each entry that
    // it reads is there, the lock of the tables isn't taken.
    pub(crate) fn submit<R: Wait>(
        &mut self,
        rt: &R,
        app: &A,
        unit: A::Unit,
        due: Option<Bringer>,
    ) -> Result<(), OutOfMemory>
        requires named { J.app ≡ Some app.now }
        requires unit { A.is_unit app.now unit }
        requires due { IsSome due ↔ IsSome (A.due_of app.now unit) }
        requires needs { A.needs_of app.now unit ≡ [] }
        requires home { A.home_of app.now unit self.old.share.now.ranks ≡ self.old.share.now.rank }
    {
        let share = self.share;
        let mut task = Task::new(self.alloc, app, unit, share.next_number(), due, &[])?;
        find_reads(rt, app, share.container(), &mut task);
        if task.is_ready() {
            return self.push(rt, Ready::new(task));
        }
        self.enter(rt, app, task, Bringer::Main { rank: 0 }, &[])
    }

    // Submits a unit of this rank that needs these futures, which `by` created.
    pub(crate) fn submit_needing<R: Wait>(
        &mut self,
        rt: &R,
        app: &A,
        by: Bringer,
        unit: A::Unit,
        due: Option<Bringer>,
        needs: &[Label],
    ) -> Result<(), OutOfMemory>
        requires named { J.app ≡ Some app.now }
        requires unit { A.is_unit app.now unit }
        requires due { IsSome due ↔ IsSome (A.due_of app.now unit) }
        requires needs { A.needs_of app.now unit ≡ needs.now }
        requires few { length needs.now ≤ max_needs }
        requires home { A.home_of app.now unit self.old.share.now.ranks ≡ self.old.share.now.rank }
    {
        let number = self.share.next_number();
        let task = Task::new(self.alloc, app, unit, number, due, needs)?;
        self.enter(rt, app, task, by, needs)
    }

    // Has a task wait until each of its places is filled. Those whose value or cell is there are filled at once.
    fn enter<R: Wait>(
        &mut self,
        rt: &R,
        app: &A,
        mut task: Task<A, J>,
        by: Bringer,
        needs: &[Label],
    ) -> Result<(), OutOfMemory>
        requires named { J.app ≡ Some app.now }
        requires few { length needs.now ≤ max_needs }
    {
        let share = self.share;
        let mut tables = share.tables().lock(rt);
        fill_needs(app, &mut tables.futures, &mut task, by, needs)?;
        fill_reads(rt, app, share.container(), &mut task)?;
        let ready = tables.tasks.enter(task)?;
        drop(tables);
        self.push_some(rt, ready)
    }
}

// Fills the places of the entries that a task's unit reads, up to the first that isn't there.
fn find_reads<A: App, J: Naming<A>, R: Wait>(
    rt: &R,
    app: &A,
    container: &Container<A, J>,
    task: &mut Task<A, J>,
)
    requires named { J.app ≡ Some app.now }
{
    for index in 0..MAX_READS {
        let Some(entry) = read_of(app, task, index) else {
            return;
        };
        let Some(cell) = find(rt, app, container, entry) else {
            return;
        };
        let _ = task.fill_cell(app, index, entry, cell);
    }
}

// The cell of an entry, if there is one.
fn find<A: App, J: Naming<A>, R: Wait>(
    rt: &R,
    app: &A,
    container: &Container<A, J>,
    entry: CellName,
) -> Option<A::Cell>
    requires named { J.app ≡ Some app.now }
    ensures { IfSome result (λ cell. A.right_cell app.now entry cell) }
{
    let _ = app;
    let mut accessor = container.access(rt, entry);
    accessor.bin().state().find(entry)
}

// Takes the values of needs that were given. For the others callbacks wait.
fn fill_needs<A: App, J: Naming<A>>(
    app: &A,
    futures: &mut FutureTable<A, J>,
    task: &mut Task<A, J>,
    by: Bringer,
    needs: &[Label],
) -> Result<(), OutOfMemory>
    requires named { J.app ≡ Some app.now }
    requires few { length needs.now ≤ max_needs }
{
    let id = task.number();
    for (i, need) in needs.iter().enumerate() {
        let index = i as u32;
        let future = Future { by, label: *need };
        if let Some(value) = futures.take_or_wait(app, future, Callback::Task { id, index })? {
            let _ = task.fill_value(index, *need, value);
        }
    }
    Ok(())
}

// Looks the entries up that the task's unit reads. For those that aren't there callbacks wait. A bin is locked inside the
// lock of the tables here, so that no entry is put between the look-up and the entry of the task.
fn fill_reads<A: App, J: Naming<A>, R: Wait>(
    rt: &R,
    app: &A,
    container: &Container<A, J>,
    task: &mut Task<A, J>,
) -> Result<(), OutOfMemory>
    requires named { J.app ≡ Some app.now }
{
    let id = task.number();
    for index in 0..MAX_READS {
        let Some(entry) = read_of(app, task, index) else {
            return Ok(());
        };
        if let Some(cell) = look_up(rt, app, container, entry, Callback::Task { id, index })? {
            let _ = task.fill_cell(app, index, entry, cell);
        }
    }
    Ok(())
}

// The entry that a task's unit reads with this index.
fn read_of<A: App, J: Naming<A>>(app: &A, task: &Task<A, J>, index: u32) -> Option<CellName>
    requires named { J.app ≡ Some app.now }
    ensures { IfSome result (λ name. IsRead (A.is_unit app.now) (A.reads_of app.now) name) }
{
    app.reads(task.unit(), index)
}

// The cell of an entry. Where there is none, the callback waits for it.
fn look_up<A: App, J: Naming<A>, R: Wait>(
    rt: &R,
    app: &A,
    container: &Container<A, J>,
    entry: CellName,
    callback: Callback,
) -> Result<Option<A::Cell>, OutOfMemory>
    requires named { J.app ≡ Some app.now }
    requires read { IsRead (A.is_unit app.now) (A.reads_of app.now) entry }
    ensures { IfOk result (λ o. IfSome o (λ cell. A.right_cell app.now entry cell)) }
{
    let _ = app;
    let mut accessor = container.access(rt, entry);
    accessor.bin().find_or_wait(entry, callback)
}
