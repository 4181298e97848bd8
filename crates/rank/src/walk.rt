//! The way of a main through the commands.
ghost use Rattle.std.specs.Prelude.{◌≡◌, ◌≤◌, IfOk, IsFalse, Some, length};
ghost use Rattle.app_core.specs.Commands.{IsCommand, IsWork};
ghost use Rattle.rank.specs.Walks.{IsWalk};

use crate::OutOfMemory;
use crate::desk::Desk;
use crate::share::{RankShare, result_future};
use app_core::{App, CommandKind, Naming};
use std::sync::Wait;

/// How far a main has gone through the commands.
#[derive(Clone, Copy)]
pub(crate) struct Walk {
    // How many commands it has gone through.
    pub(crate) commands: u32,
    // Of how many of these it has seen that their results are there, or are kept elsewhere.
    pub(crate) results: u32,
    // Whether it has seen so of all commands.
    pub(crate) complete: bool,
}

impl Walk {
    pub(crate) const START: Walk = Walk {
        commands: 0,
        results: 0,
        complete: false,
    };
}

// Goes on to the next command, if there is one, or else looks for results. Whether there was a command.
pub(crate) fn go_on<A: App, J: Naming<A>, R: Wait>(
    rt: &R,
    app: &A,
    desk: &mut Desk<'_, A, J>,
    walk: &mut Walk,
) -> Result<bool, OutOfMemory>
    requires named { J.app ≡ Some app.now }
    requires walk { IsWalk (length (A.kinds_of app.now)) walk.old }
    ensures walk { IsWalk (length (A.kinds_of app.now)) walk.new }
    ensures forward { walk.old.commands ≤ walk.new.commands }
    ensures last { IfOk result (λ b. IsFalse b → walk.new.commands ≡ length (A.kinds_of app.now)) }
{
    if walk.commands < app.commands() {
        walk.commands += 1;
        issue(rt, app, desk, walk.commands)?;
        return Ok(true);
    }
    if !walk.complete {
        look_for_results(rt, app, desk.share, walk);
    }
    Ok(false)
}

// Makes the starts of a command, as the main of rank 0. A fence is passed over.
fn issue<A: App, J: Naming<A>, R: Wait>(
    rt: &R,
    app: &A,
    desk: &mut Desk<'_, A, J>,
    command: u32,
) -> Result<(), OutOfMemory>
    requires named { J.app ≡ Some app.now }
    requires command { IsCommand (A.kinds_of app.now) command }
{
    if app.kind(command) == CommandKind::Work && desk.share.rank() == 0 {
        return desk.start(rt, app, command);
    }
    Ok(())
}

// Looks for the results that a rank keeps, from the first of which it isn't known that it is there. Once all are there,
// the rank is finished.
fn look_for_results<A: App, J: Naming<A>, R: Wait>(
    rt: &R,
    app: &A,
    share: &RankShare<'_, A, J>,
    walk: &mut Walk,
)
    requires named { J.app ≡ Some app.now }
    requires walk { IsWalk (length (A.kinds_of app.now)) walk.old }
    requires last { walk.old.commands ≡ length (A.kinds_of app.now) }
    ensures walk { IsWalk (length (A.kinds_of app.now)) walk.new }
    ensures same { walk.new.commands ≡ walk.old.commands }
{
    for before in walk.results..walk.commands {
        if !has_result(rt, app, share, before + 1) {
            return;
        }
        walk.results = before + 1;
    }
    walk.complete = true;
    share.signals().finish_rank(rt);
}

// Whether the result of a command is there, or isn't kept at this rank. A fence has none.
fn has_result<A: App, J: Naming<A>, R: Wait>(
    rt: &R,
    app: &A,
    share: &RankShare<'_, A, J>,
    command: u32,
) -> bool
    requires named { J.app ≡ Some app.now }
    requires command { IsCommand (A.kinds_of app.now) command }
{
    if app.kind(command) == CommandKind::Fence {
        return true;
    }
    let future = result_future(app, command);
    if app.future_home(&future.label, share.ranks()) != share.rank() {
        return true;
    }
    share.tables().lock(rt).futures.is_given(future)
}
