//! Effects that are carried out.
ghost use Rattle.std.specs.Prelude.{◌≡◌, ◌≤◌, [], Some, OnOk, length};
ghost use Rattle.std.specs.List.{AllByRecursion};
ghost use Rattle.app_core.specs.Effects.{IsRightEffect, IsSpawnedWithNeeds};
ghost use Rattle.app_core.specs.Needs.{max_needs};
ghost use Rattle.app_core.specs.StoredEffects.{effect_of, HasNeeds};

use crate::OutOfMemory;
use crate::desk::Desk;
use crate::spawner::{Spawner, bringer_of_due};
use app_core::{App, EffectQueue, Label, LentEffect, Naming};
use event_lists::Future;
use mailbox::{Load, Mail};
use std::sync::Wait;

impl<'a, A: App, J: Naming<A>> Desk<'a, A, J> {
    // Carries the effects of a step, or of the starts of a command, out, in order.
    pub(crate) fn carry_all<R: Wait>(
        &mut self,
        rt: &R,
        app: &A,
        spawner: Spawner,
        effects: &mut EffectQueue<'_, A::Unit, A::Value, A::Cell>,
    ) -> Result<(), OutOfMemory>
        requires named { J.app ≡ Some app.now }
        requires right { AllByRecursion (IsRightEffect (A.right_value app.now) (A.right_cell app.now) (A.is_unit app.now)) effects.old }
        requires needs { AllByRecursion (IsSpawnedWithNeeds (A.needs_of app.now)) effects.old }
        ensures { OnOk result (effects.new ≡ []) }
    {
        while let Some(effect) = effects.take_first() {
            self.carry(rt, app, spawner, effect)?;
        }
        Ok(())
    }

    fn carry<R: Wait>(
        &mut self,
        rt: &R,
        app: &A,
        spawner: Spawner,
        effect: LentEffect<'_, A::Unit, A::Value, A::Cell>,
    ) -> Result<(), OutOfMemory>
        requires named { J.app ≡ Some app.now }
        requires right { IsRightEffect (A.right_value app.now) (A.right_cell app.now) (A.is_unit app.now) (effect_of (λ l. l.now) effect) }
        requires needs { IsSpawnedWithNeeds (A.needs_of app.now) (effect_of (λ l. l.now) effect) }
        requires labels { HasNeeds effect }
    {
        match effect {
            LentEffect::Spawn(unit) => self.spawn(rt, app, spawner, unit),
            LentEffect::SpawnNeeding(unit, needs) => {
                self.spawn_needing(rt, app, spawner, unit, needs)
            }
            LentEffect::Give(label, value) => self.give_due(rt, app, spawner, label, value),
            LentEffect::Put(entry, cell) => self.put(rt, app, entry, cell),
            // An erased entry stays, as nothing reads it again.
            LentEffect::Erase(_) => Ok(()),
        }
    }

    // Submits a unit at its home: here, or by a message to another rank.
    fn spawn<R: Wait>(
        &mut self,
        rt: &R,
        app: &A,
        spawner: Spawner,
        unit: A::Unit,
    ) -> Result<(), OutOfMemory>
        requires named { J.app ≡ Some app.now }
        requires unit { A.is_unit app.now unit }
        requires needs { A.needs_of app.now unit ≡ [] }
    {
        let share = self.share;
        let due = bringer_of_due(app, spawner, &unit);
        let home = app.home(&unit, share.ranks());
        if home == share.rank() {
            return self.submit(rt, app, unit, due);
        }
        self.send(rt, home, Mail::new(Load::Unit { unit, due }))
    }

    // Submits a unit with needs. It runs where its spawner does, as no message carries needs.
    fn spawn_needing<R: Wait>(
        &mut self,
        rt: &R,
        app: &A,
        spawner: Spawner,
        unit: A::Unit,
        needs: &[Label],
    ) -> Result<(), OutOfMemory>
        requires named { J.app ≡ Some app.now }
        requires unit { A.is_unit app.now unit }
        requires needs { A.needs_of app.now unit ≡ needs.now }
        requires few { length needs.now ≤ max_needs }
    {
        let share = self.share;
        if app.home(&unit, share.ranks()) != share.rank() {
            return Ok(());
        }
        let due = bringer_of_due(app, spawner, &unit);
        self.submit_needing(rt, app, spawner.by, unit, due, needs)
    }

    // Gives the spawner's due its value, at the rank that keeps it. A spawner without a due gives nothing.
    fn give_due<R: Wait>(
        &mut self,
        rt: &R,
        app: &A,
        spawner: Spawner,
        label: Label,
        value: A::Value,
    ) -> Result<(), OutOfMemory>
        requires named { J.app ≡ Some app.now }
        requires right { A.right_value app.now label value }
    {
        let Some(due) = spawner.due else {
            return Ok(());
        };
        let share = self.share;
        let home = app.future_home(&label, share.ranks());
        if home == share.rank() {
            return self.give(rt, app, Future { by: due.by, label }, value);
        }
        let load = Load::Give {
            label,
            bringer: due.by,
            value,
        };
        self.send(rt, home, Mail::new(load))
    }
}
