//! A run of an application.
ghost use Rattle.std.specs.Prelude.{◌≡◌, ◌≤◌, All, false, Some, IfOk, length, vec_len};
ghost use Rattle.crew.specs.Results.{AreRightValues};
ghost use Rattle.crew.specs.Shares.{AreShares};

use crate::OutOfMemory;
use crate::config::Config;
use crate::hands::hands_of;
use crate::ranks::{Ranks, inboxes_of, ranks_of};
use crate::results::values_of;
use crate::threads::turn_all;
use app_core::{App, Gate, Naming};
use rank::{Hand, RankShare, Signals};
use std::alloc::Global;
use std::marker::Brand;
use std::sync::Wait;
use std::thread::Threads;
use task_pool::PoolSeat;
use task_tables::Ready;

/// What a run of an application comes to.
#[derive(Drop)]
pub struct RunEnd<A: App> {
    /// One value for each work command, in order: that of its result.
    pub values: Vec<A::Value>,
}

/// Runs an application to its end, and returns a right value for the result of each work command. The number of ranks is
/// that for which the application is made.
///
/// Each hand has a thread of its own, and the caller's is that of rank 0's main; where a thread can't be started, the
/// caller's turns that hand too, and those after it. The call may wait for other threads, and ends once all have ended.
/// The gate is entered and left round each task. `OutOfMemory` comes where memory was refused to any hand, or to the call.
pub fn run_world<A: App, G: Gate, R: Threads + Wait + Sync>(
    rt: &R,
    alloc: Global,
    app: &A,
    config: &Config,
    gate: &G,
) -> Result<RunEnd<A>, OutOfMemory>
    requires ranks { config.now.ranks ≡ A.ranks_of app.now }
    requires workers { config.now.workers ≤ 4 }
    requires untraced { config.now.trace ≡ false }
    ensures { IfOk result (λ run. AreRightValues (A.right_value app.now) (A.result_of app.now) (A.kinds_of app.now) run.values.items) }
{
    let values = run_named::<A, Brand, G, R>(rt, alloc, app, config.ranks, config.workers, gate)?;
    Ok(RunEnd { values })
}

// The values of the results, where `J` names the application.
fn run_named<A: App, J: Naming<A> + Send + Sync, G: Gate, R: Threads + Wait + Sync>(
    rt: &R,
    alloc: Global,
    app: &A,
    ranks: u32,
    workers: u32,
    gate: &G,
) -> Result<Vec<A::Value>, OutOfMemory>
    requires named { J.app ≡ Some app.now }
    requires ranks { ranks ≡ A.ranks_of app.now }
    requires workers { workers ≤ 4 }
    ensures { IfOk result (λ values. AreRightValues (A.right_value app.now) (A.result_of app.now) (A.kinds_of app.now) values.items) }
{
    let signals = Signals::new(ranks);
    let inboxes = inboxes_of::<A, J>(alloc, ranks)?;
    let Ranks { shares, seats } = ranks_of::<A, J>(alloc, app, &signals, &inboxes, workers)?;
    run_ranks(rt, alloc, app, &shares, seats, workers, gate)
}

// Turns the hands of all ranks until all have ended, and reads the values.
fn run_ranks<'a, 's: 'a, A: App, J: Naming<A> + Send + Sync, G: Gate, R: Threads + Wait + Sync>(
    rt: &R,
    alloc: Global,
    app: &A,
    shares: &'a [RankShare<'s, A, J>],
    seats: Vec<Vec<PoolSeat<Ready<A, J>>>>,
    workers: u32,
    gate: &G,
) -> Result<Vec<A::Value>, OutOfMemory>
    requires named { J.app ≡ Some app.now }
    requires many { length shares.now ≡ A.ranks_of app.now }
    requires shares { AreShares (A.ranks_of app.now) shares.now }
    requires staff { All (λ share. share.workers ≡ workers) shares.now }
    requires each { vec_len seats ≡ length shares.now }
    requires seats { All (λ at_pool. All (λ seat. seat ≤ workers) at_pool.items) seats.items }
    ensures { IfOk result (λ values. AreRightValues (A.right_value app.now) (A.result_of app.now) (A.kinds_of app.now) values.items) }
{
    let hands = hands_of(rt, alloc, shares, seats, workers)?;
    turn_all(rt, &hands, &|hand: &mut Hand<'_, A, J>| hand.turn(rt, gate))?;
    values_of(rt, alloc, app, shares)
}
