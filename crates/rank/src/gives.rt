//! Values that are given to the futures of a rank.
ghost use Rattle.std.specs.Prelude.{◌≡◌, Some};

use crate::OutOfMemory;
use crate::desk::Desk;
use app_core::{App, Label, Naming};
use event_lists::Future;
use future_cell::Callback;
use std::sync::Wait;
use task_tables::{GiveError, Given, RankTables, Ready, TaskTable};

impl<'a, A: App, J: Naming<A>> Desk<'a, A, J> {
    // Gives a future of this rank its value, which is right for it. A second value is dropped.
    pub(crate) fn give<R: Wait>(
        &mut self,
        rt: &R,
        app: &A,
        future: Future,
        value: A::Value,
    ) -> Result<(), OutOfMemory>
        requires named { J.app ≡ Some app.now }
        requires right { A.right_value app.now future.label value }
        requires home { A.kept_at app.now future.label self.old.share.now.ranks ≡ self.old.share.now.rank }
    {
        let share = self.share;
        let mut tables = share.tables().lock(rt);
        let ready = self.give_in(rt, app, &mut tables, future, value)?;
        drop(tables);
        self.push_some(rt, ready)
    }

    // The same with the tables' lock taken: the task that the last callback makes ready comes out.
    fn give_in<R: Wait>(
        &mut self,
        rt: &R,
        app: &A,
        tables: &mut RankTables<A, J>,
        future: Future,
        value: A::Value,
    ) -> Result<Option<Ready<A, J>>, OutOfMemory>
        requires named { J.app ≡ Some app.now }
        requires right { A.right_value app.now future.label value }
    {
        match tables.futures.give(future, value) {
            Ok(Given::Stored) => Ok(None),
            Ok(Given::Awaited(value, callbacks)) => self.hand_out(
                rt,
                app,
                &mut tables.tasks,
                future.label,
                value,
                callbacks.as_slice(),
            ),
            Err(GiveError::Already(_)) => Ok(None),
            Err(GiveError::OutOfMemory(_)) => Err(OutOfMemory),
        }
    }

    // Hands the value of a future to all callbacks. There is almost always one, so that the value isn't copied.
    fn hand_out<R: Wait>(
        &mut self,
        rt: &R,
        app: &A,
        tasks: &mut TaskTable<A, J>,
        label: Label,
        value: A::Value,
        callbacks: &[Callback],
    ) -> Result<Option<Ready<A, J>>, OutOfMemory>
        requires named { J.app ≡ Some app.now }
        requires right { A.right_value app.now label value }
    {
        let Some((last, others)) = callbacks.split_last() else {
            return Ok(None);
        };
        for callback in others {
            let copy = app.copy_value(self.alloc, &value)?;
            let ready = hand_to(app, tasks, label, copy, *callback);
            self.push_some(rt, ready)?;
        }
        Ok(hand_to(app, tasks, label, value, *last))
    }
}

// Hands the value of a future to a callback. Only tasks wait in the tables of a rank: what a callback of another kind
// names is another future, for which the value isn't known to be right, so it is passed over.
fn hand_to<A: App, J: Naming<A>>(
    app: &A,
    tasks: &mut TaskTable<A, J>,
    label: Label,
    value: A::Value,
    callback: Callback,
) -> Option<Ready<A, J>>
    requires named { J.app ≡ Some app.now }
    requires right { A.right_value app.now label value }
{
    let _ = app;
    match callback {
        Callback::Task { id, index } => tasks.fill_value(id, index, label, value),
        Callback::Local(_) | Callback::Remote(_) => None,
    }
}
