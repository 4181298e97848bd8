//! A hand of a rank, and its turns.
ghost use Rattle.std.specs.Prelude.{◌≡◌, ◌≤◌, false, length, IfOk, IfSome, IsFalse, IsTrue, vec_len};
ghost use Rattle.rank.specs.Walks.{IsWalk};

use crate::OutOfMemory;
use crate::desk::Desk;
use crate::share::RankShare;
use crate::signals::Signal;
use crate::turn::Turn;
use crate::walk::{Walk, go_on};
use app_core::{App, Gate, Naming};
use mailbox::{Mail, Pass};
use std::alloc::Global;
use std::marker::Model;
use std::sync::Wait;
use task_pool::PoolSeat;
use task_tables::Ready;

// While there are tasks, a hand looks at the inbox once in so many turns.
const MAIL_TURNS: u32 = 8;

/// A hand of a rank: its main, which has the number 0, or a worker. Contracts see its number, how many commands it has
/// gone through, and whether it has read that the run is finished or was stopped.
#[derive(Drop)]
pub struct Hand<'a, A: App, J: Naming<A>> {
    desk: Desk<'a, A, J>,
    walk: Walk,
    number: u32,
    turns: u32,
    finished: bool,
    stopped: bool,
}

impl<'a, A: App, J: Naming<A>> Model for Hand<'a, A, J> {
    ghost use Rattle.std.specs.Prelude.{IfSome, length};
    ghost use Rattle.rank.specs.Shares.{HandData};
    ghost use Rattle.rank.specs.Walks.{IsWalk};

    ghost Value = { HandData };

    ghost view = { λ h. record { number = h.number; commands = h.walk.commands; finished = h.finished; stopped = h.stopped } };

    ghost invariant = { λ h. IfSome J.app (λ app. IsWalk (length (A.kinds_of app)) h.walk) };
}

impl<'a, A: App, J: Naming<A>> Hand<'a, A, J> {
    /// The hand of a rank with this number, which has its seat at the rank's pool: the main for 0, and else a worker. It may
    /// wait for other threads.
    pub fn new<R: Wait>(
        rt: &R,
        alloc: Global,
        share: &'a RankShare<'a, A, J>,
        seat: PoolSeat<Ready<A, J>>,
        number: u32,
    ) -> Result<Hand<'a, A, J>, OutOfMemory>
        requires seat { seat ≡ number }
        requires number { number ≤ share.now.workers }
        ensures { IfOk result (λ h. h ≡ record { number = number; commands = 0; finished = false; stopped = false }) }
    {
        let desk = Desk {
            share,
            seat,
            passes: passes_of(rt, alloc, share)?,
            alloc,
        };
        Ok(Hand {
            desk,
            walk: Walk::START,
            number,
            turns: 0,
            finished: false,
            stopped: false,
        })
    }

    /// One turn: the hand handles a message, runs a task, or, as a main, goes on to the next command. It may wait for
    /// other threads. Where memory is refused, the run is over.
    pub fn turn<G: Gate, R: Wait>(&mut self, rt: &R, gate: &G) -> Turn
        ensures number { self.new.number ≡ self.old.number }
        ensures forward { self.old.commands ≤ self.new.commands }
        ensures finished { result ≡ Turn.Finished → IsTrue self.new.finished }
        ensures past { result ≡ Turn.Finished → self.new.number ≡ 0 → IfSome J.app (λ app. self.new.commands ≡ length (A.kinds_of app)) }
        ensures idle { result ≡ Turn.Idle → self.new.number ≡ 0 → IfSome J.app (λ app. self.new.commands ≡ length (A.kinds_of app)) }
        ensures stopped { result ≡ Turn.Stopped → IsTrue self.new.stopped }
        ensures memory { result ≡ Turn.OutOfMemory → IsTrue self.new.stopped }
        ensures later { IsTrue self.old.stopped → result ≡ Turn.Stopped }
    {
        if self.stopped {
            return Turn::Stopped;
        }
        let signals = self.desk.share.signals();
        match signals.look(rt) {
            Signal::Stopped => {
                self.stopped = true;
                return Turn::Stopped;
            }
            Signal::Finished if self.number != 0 || self.walk.complete => {
                self.finished = true;
                return Turn::Finished;
            }
            _ => {}
        }
        self.turns = self.turns.wrapping_add(1);
        let mail_first = self.turns % MAIL_TURNS == 0;
        let is_main = self.number == 0;
        match work(
            rt,
            gate,
            &mut self.desk,
            &mut self.walk,
            is_main,
            mail_first,
        ) {
            Ok(true) => Turn::Worked,
            Ok(false) => Turn::Idle,
            Err(_) => {
                signals.stop(rt);
                self.stopped = true;
                Turn::OutOfMemory
            }
        }
    }
}

// Handles a message, runs a task, or, as a main, goes on to the next command. Whether there was any.
fn work<A: App, J: Naming<A>, G: Gate, R: Wait>(
    rt: &R,
    gate: &G,
    desk: &mut Desk<'_, A, J>,
    walk: &mut Walk,
    is_main: bool,
    mail_first: bool,
) -> Result<bool, OutOfMemory>
    requires { IfSome J.app (λ app. IsWalk (length (A.kinds_of app)) walk.old) }
    ensures walk { IfSome J.app (λ app. IsWalk (length (A.kinds_of app)) walk.new) }
    ensures forward { walk.old.commands ≤ walk.new.commands }
    ensures last { IsTrue is_main → IfOk result (λ b. IsFalse b → IfSome J.app (λ app. walk.new.commands ≡ length (A.kinds_of app))) }
{
    let app = desk.share.app();
    if mail_first && desk.handle_message(rt, app)? {
        return Ok(true);
    }
    if desk.run_next(rt, app, gate)? {
        return Ok(true);
    }
    if !mail_first && desk.handle_message(rt, app)? {
        return Ok(true);
    }
    if is_main {
        return go_on(rt, app, desk, walk);
    }
    Ok(false)
}

// A pass to the inbox of each rank.
fn passes_of<A: App, J: Naming<A>, R: Wait>(
    rt: &R,
    alloc: Global,
    share: &RankShare<'_, A, J>,
) -> Result<Vec<Pass<Mail<A, J>>>, OutOfMemory>
    ensures { IfOk result (λ p. vec_len p ≡ share.now.ranks) }
{
    let ranks = share.ranks();
    let mut passes = Vec::with_capacity(alloc, ranks as usize)?;
    for rank in 0..ranks {
        passes.push(share.inbox(rank).pass(rt))?;
    }
    Ok(passes)
}
