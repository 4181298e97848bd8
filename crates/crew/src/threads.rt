//! Threads that turn the hands of a run.
use crate::OutOfMemory;
use crossbeam_utils::{Backoff, CachePadded};
use rank::Turn;
use std::sync::atomic::{AtomicBool, Ordering};
use std::sync::{Mutex, Wait};
use std::thread;
use std::thread::Threads;

/// A hand in its place. The thread that turns it has the lock meanwhile.
pub(crate) type Place<H> = CachePadded<Mutex<H>>;

// Turns each hand on a thread of its own until it has ended, and the last on the caller's. Where a thread can't be
// started, the caller's turns that hand and all after it, one after another. `turn` makes one turn of a hand.
pub(crate) fn turn_all<H: Drop + Send, F: Fn(&mut H) -> Turn + Sync, R: Threads + Wait + Sync>(
    rt: &R,
    hands: &[Place<H>],
    turn: &F,
) -> Result<(), OutOfMemory>
    requires { F.IsAlwaysCallable turn.now }
{
    let refused = AtomicBool::new(false);
    let memory = &refused;
    thread::scope(
        thread::scope_env(),
        rt,
        |scope|
            requires { F.IsAlwaysCallable turn.now }
        {
            let mut started = 0;
            for next in 1..hands.len() {
                let at = started;
                let thread = scope.spawn(
                    move ||
                        requires { F.IsAlwaysCallable turn.now }
                    { turn_one(rt, hands, turn, memory, at) },
                );
                if thread.is_err() {
                    break;
                }
                started = next;
            }
            turn_rest(rt, hands, turn, memory, started);
        },
    );
    if refused.load(Ordering::SeqCst) {
        return Err(OutOfMemory);
    }
    Ok(())
}

// Turns the hands from this place on until all have ended.
fn turn_rest<H: Drop, F: Fn(&mut H) -> Turn, R: Wait>(
    rt: &R,
    hands: &[Place<H>],
    turn: &F,
    refused: &AtomicBool,
    first: usize,
)
    requires { F.IsAlwaysCallable turn.now }
{
    let Some((_, rest)) = hands.split_at_checked(first) else {
        return;
    };
    if rest.len() == 1 {
        turn_one(rt, rest, turn, refused, 0);
    } else {
        turn_in_rotation(rt, rest, turn, refused);
    }
}

// Turns one hand until it has ended. Its lock is taken for all that time.
fn turn_one<H: Drop, F: Fn(&mut H) -> Turn, R: Wait>(
    rt: &R,
    hands: &[Place<H>],
    turn: &F,
    refused: &AtomicBool,
    at: usize,
)
    requires { F.IsAlwaysCallable turn.now }
{
    let Some(place) = hands.get(at) else {
        return;
    };
    let mut hand = place.lock(rt);
    let backoff = Backoff::new();
    for _ in rt.forever() {
        match turn(&mut hand) {
            Turn::Worked => backoff.reset(),
            Turn::Idle => backoff.snooze(),
            Turn::OutOfMemory => refused.store(true, Ordering::SeqCst),
            Turn::Finished | Turn::Stopped => break,
        }
    }
}

// What a round of turns of some hands came to: all had ended; or some found nothing to do; or some did something.
#[derive(Clone, Copy, Debug, PartialEq, Eq, PartialOrd, Ord)]
enum Round {
    Ended,
    Idle,
    Worked,
}

// Turns hands one after another, until all have ended.
fn turn_in_rotation<H: Drop, F: Fn(&mut H) -> Turn, R: Wait>(
    rt: &R,
    hands: &[Place<H>],
    turn: &F,
    refused: &AtomicBool,
)
    requires { F.IsAlwaysCallable turn.now }
{
    let backoff = Backoff::new();
    for _ in rt.forever() {
        match turn_round(rt, hands, turn, refused) {
            Round::Worked => backoff.reset(),
            Round::Idle => backoff.snooze(),
            Round::Ended => break,
        }
    }
}

// One turn of each hand.
fn turn_round<H: Drop, F: Fn(&mut H) -> Turn, R: Wait>(
    rt: &R,
    hands: &[Place<H>],
    turn: &F,
    refused: &AtomicBool,
) -> Round
    requires { F.IsAlwaysCallable turn.now }
{
    let mut round = Round::Ended;
    for place in hands {
        let came_to = match turn(&mut place.lock(rt)) {
            Turn::Worked => Round::Worked,
            Turn::Idle => Round::Idle,
            Turn::OutOfMemory => {
                refused.store(true, Ordering::SeqCst);
                Round::Ended
            }
            Turn::Finished | Turn::Stopped => Round::Ended,
        };
        round = round.max(came_to);
    }
    round
}
