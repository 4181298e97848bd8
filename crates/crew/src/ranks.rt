//! The inboxes and the ranks of a run.
ghost use Rattle.std.specs.Prelude.{◌≡◌, ◌≤◌, All, Some, IfOk, length, vec_len};
ghost use Rattle.crew.specs.Shares.{AreShares};

use crate::OutOfMemory;
use app_core::{App, Naming};
use container::Container;
use mailbox::{Inbox, Mail};
use rank::{RankShare, Signals};
use std::alloc::Global;
use task_pool::{Pool, PoolSeat};
use task_tables::Ready;

/// The ranks of a run, by number, and of each the seats at its pool that no hand has yet.
#[derive(Drop)]
pub(crate) struct Ranks<'a, A: App, J: Naming<A>> {
    pub(crate) shares: Vec<RankShare<'a, A, J>>,
    pub(crate) seats: Vec<Vec<PoolSeat<Ready<A, J>>>>,
}

// An inbox for each rank.
pub(crate) fn inboxes_of<A: App, J: Naming<A>>(
    alloc: Global,
    ranks: u32,
) -> Result<Vec<Inbox<Mail<A, J>>>, OutOfMemory>
    ensures { IfOk result (λ inboxes. vec_len inboxes ≡ ranks) }
{
    let mut inboxes = Vec::with_capacity(alloc, ranks as usize)?;
    for _ in 0..ranks {
        inboxes.push(Inbox::new(alloc)?)?;
    }
    Ok(inboxes)
}

// The ranks, one for each inbox.
pub(crate) fn ranks_of<'a, A: App, J: Naming<A>>(
    alloc: Global,
    app: &'a A,
    signals: &'a Signals,
    inboxes: &'a [Inbox<Mail<A, J>>],
    workers: u32,
) -> Result<Ranks<'a, A, J>, OutOfMemory>
    requires named { J.app ≡ Some app.now }
    requires ranks { length inboxes.now ≡ A.ranks_of app.now }
    requires workers { workers ≤ 4 }
    ensures many { IfOk result (λ ranks. vec_len ranks.shares ≡ length inboxes.entry.now) }
    ensures shares { IfOk result (λ ranks. AreShares (length inboxes.entry.now) ranks.shares.items) }
    ensures staff { IfOk result (λ ranks. All (λ share. share.workers ≡ workers) ranks.shares.items) }
    ensures each { IfOk result (λ ranks. vec_len ranks.seats ≡ vec_len ranks.shares) }
    ensures seats { IfOk result (λ ranks. All (λ at_pool. All (λ seat. seat ≤ workers) at_pool.items) ranks.seats.items) }
{
    let mut shares = Vec::with_capacity(alloc, inboxes.len())?;
    let mut seats = Vec::with_capacity(alloc, inboxes.len())?;
    for rank in 0..inboxes.len() as u32 {
        let made = Pool::new(alloc, workers)?;
        let (pool, at_pool) = made;
        let container = Container::new(alloc, rank)?;
        let share = RankShare::new(alloc, app, signals, inboxes, pool, container, rank, workers)?;
        shares.push(share)?;
        seats.push(at_pool.seats)?;
    }
    Ok(Ranks { shares, seats })
}
