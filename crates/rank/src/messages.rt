//! Messages that a rank receives.
ghost use Rattle.std.specs.Prelude.{◌≡◌, ◌↔◌, [], Some, IsSome};
ghost use Rattle.mailbox.specs.Loads.{IsRightLoad};

use crate::OutOfMemory;
use crate::desk::Desk;
use app_core::{App, Naming};
use event_lists::{Bringer, Future};
use mailbox::{Load, Mail};
use std::sync::Wait;

impl<'a, A: App, J: Naming<A>> Desk<'a, A, J> {
    // Takes a message that waits for the rank and handles it. Whether there was one.
    pub(crate) fn handle_message<R: Wait>(&mut self, rt: &R, app: &A) -> Result<bool, OutOfMemory>
        requires named { J.app ≡ Some app.now }
    {
        let Some(mail) = self.take_mail(rt) else {
            return Ok(false);
        };
        self.handle(rt, app, mail)?;
        Ok(true)
    }

    fn handle<R: Wait>(&mut self, rt: &R, app: &A, mail: Mail<A, J>) -> Result<(), OutOfMemory>
        requires named { J.app ≡ Some app.now }
    {
        match open_mail(app, mail) {
            Load::Unit { unit, due } => self.receive_unit(rt, app, unit, due),
            Load::Give {
                label,
                bringer,
                value,
            } => self.receive_value(rt, app, Future { by: bringer, label }, value),
        }
    }

    // Submits a unit that was sent. One of another rank is dropped.
    fn receive_unit<R: Wait>(
        &mut self,
        rt: &R,
        app: &A,
        unit: A::Unit,
        due: Option<Bringer>,
    ) -> Result<(), OutOfMemory>
        requires named { J.app ≡ Some app.now }
        requires unit { A.is_unit app.now unit }
        requires due { IsSome due ↔ IsSome (A.due_of app.now unit) }
        requires needs { A.needs_of app.now unit ≡ [] }
    {
        let share = self.share;
        if app.home(&unit, share.ranks()) != share.rank() {
            return Ok(());
        }
        self.submit(rt, app, unit, due)
    }

    // Gives a future the value that was sent. A future of another rank is passed over.
    fn receive_value<R: Wait>(
        &mut self,
        rt: &R,
        app: &A,
        future: Future,
        value: A::Value,
    ) -> Result<(), OutOfMemory>
        requires named { J.app ≡ Some app.now }
        requires right { A.right_value app.now future.label value }
    {
        let share = self.share;
        if app.future_home(&future.label, share.ranks()) != share.rank() {
            return Ok(());
        }
        self.give(rt, app, future, value)
    }
}

// The load of a message, which is right for the application.
fn open_mail<A: App, J: Naming<A>>(app: &A, mail: Mail<A, J>) -> Load<A::Unit, A::Value>
    requires named { J.app ≡ Some app.now }
    ensures { IsRightLoad (A.is_unit app.now) (A.due_of app.now) (A.needs_of app.now) (A.right_value app.now) result }
{
    let _ = app;
    mail.into_load()
}
