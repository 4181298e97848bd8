//! Entries that are put at a rank.
ghost use Rattle.std.specs.Prelude.{◌≡◌, Some};

use crate::OutOfMemory;
use crate::desk::Desk;
use app_core::{App, CellName, Naming};
use container::{Container, InsertError};
use future_cell::{Callback, Callbacks};
use std::sync::Wait;
use task_tables::Ready;

impl<'a, A: App, J: Naming<A>> Desk<'a, A, J> {
    // Puts an entry at this rank, with a cell that is right for it, and hands it to the tasks that wait for it. Where
    // there is one of this name, it stays.
    pub(crate) fn put<R: Wait>(
        &mut self,
        rt: &R,
        app: &A,
        entry: CellName,
        cell: A::Cell,
    ) -> Result<(), OutOfMemory>
        requires named { J.app ≡ Some app.now }
        requires right { A.right_cell app.now entry cell }
    {
        let callbacks = insert(rt, app, self.share.container(), entry, cell)?;
        let Some(callbacks) = callbacks else {
            return Ok(());
        };
        for callback in callbacks.as_slice() {
            let ready = self.hand_cell(rt, app, entry, cell, *callback);
            self.push_some(rt, ready)?;
        }
        Ok(())
    }

    // Hands the cell of an entry to a callback. Only tasks wait in the bins of a rank.
    fn hand_cell<R: Wait>(
        &mut self,
        rt: &R,
        app: &A,
        entry: CellName,
        cell: A::Cell,
        callback: Callback,
    ) -> Option<Ready<A, J>>
        requires named { J.app ≡ Some app.now }
        requires right { A.right_cell app.now entry cell }
    {
        match callback {
            Callback::Task { id, index } => {
                let share = self.share;
                let mut tables = share.tables().lock(rt);
                tables.tasks.fill_cell(app, id, index, entry, cell)
            }
            Callback::Local(_) | Callback::Remote(_) => None,
        }
    }
}

// Adds an entry to its bin, whose lock is let go again, and returns the callbacks that waited for it. None where the name
// has an entry.
fn insert<A: App, J: Naming<A>, R: Wait>(
    rt: &R,
    app: &A,
    container: &Container<A, J>,
    entry: CellName,
    cell: A::Cell,
) -> Result<Option<Callbacks>, OutOfMemory>
    requires named { J.app ≡ Some app.now }
    requires right { A.right_cell app.now entry cell }
{
    let _ = app;
    let mut accessor = container.access(rt, entry);
    match accessor.bin().put(entry, cell) {
        Ok(callbacks) => Ok(Some(callbacks)),
        Err(InsertError::Present(_)) => Ok(None),
        Err(InsertError::OutOfMemory(_)) => Err(OutOfMemory),
    }
}
