//! The values of the results.
ghost use Rattle.std.specs.Prelude.{◌≡◌, ◌<◌, ◌+◌, Some, IfOk, OnOk, length, take};
ghost use Rattle.app_core.specs.Commands.{IsCommand, IsWork};
ghost use Rattle.crew.specs.Results.{AreRightValues, IsRightFor};
ghost use Rattle.crew.specs.Shares.{AreShares};

use crate::OutOfMemory;
use app_core::{App, CommandKind, Naming};
use rank::RankShare;
use std::alloc::Global;
use std::sync::Wait;

// The value of each work command's result, in order. It waits until all are there.
pub(crate) fn values_of<A: App, J: Naming<A>, R: Wait>(
    rt: &R,
    alloc: Global,
    app: &A,
    shares: &[RankShare<'_, A, J>],
) -> Result<Vec<A::Value>, OutOfMemory>
    requires named { J.app ≡ Some app.now }
    requires number { length shares.now ≡ A.ranks_of app.now }
    requires shares { AreShares (A.ranks_of app.now) shares.now }
    ensures { IfOk result (λ values. AreRightValues (A.right_value app.now) (A.result_of app.now) (A.kinds_of app.now) values.items) }
{
    let mut values = Vec::new(alloc);
    for before in 0..app.commands() {
        add_value(rt, app, shares, before, &mut values)?;
    }
    Ok(values)
}

// Adds the value of the result of the next command, if that is work.
fn add_value<A: App, J: Naming<A>, R: Wait>(
    rt: &R,
    app: &A,
    shares: &[RankShare<'_, A, J>],
    before: u32,
    values: &mut Vec<A::Value>,
) -> Result<(), OutOfMemory>
    requires named { J.app ≡ Some app.now }
    requires number { length shares.now ≡ A.ranks_of app.now }
    requires shares { AreShares (A.ranks_of app.now) shares.now }
    requires before { before < length (A.kinds_of app.now) }
    requires values { AreRightValues (A.right_value app.now) (A.result_of app.now) (take before (A.kinds_of app.now)) values.old.items }
    ensures { OnOk result (AreRightValues (A.right_value app.now) (A.result_of app.now) (take (before + 1) (A.kinds_of app.now)) values.new.items) }
{
    let command = before + 1;
    if app.kind(command) == CommandKind::Fence {
        return Ok(());
    }
    let value = value_of(rt, app, shares, command)?;
    values.push(value)?;
    Ok(())
}

// The value of a work command's result, from the rank that keeps it.
fn value_of<A: App, J: Naming<A>, R: Wait>(
    rt: &R,
    app: &A,
    shares: &[RankShare<'_, A, J>],
    command: u32,
) -> Result<A::Value, OutOfMemory>
    requires named { J.app ≡ Some app.now }
    requires number { length shares.now ≡ A.ranks_of app.now }
    requires shares { AreShares (A.ranks_of app.now) shares.now }
    requires command { IsCommand (A.kinds_of app.now) command }
    requires work { IsWork (A.kinds_of app.now) command }
    ensures { IfOk result (λ value. IsRightFor (A.right_value app.now) (A.result_of app.now command) value) }
{
    match app.result(command) {
        Some(future) => {
            let home = app.future_home(&future, shares.len() as u32);
            shares[home as usize].result(rt, command)
        }
        None => unreachable!(),
    }
}
