//! What the hands of one rank share.
ghost use Rattle.std.specs.Prelude.{◌≡◌, ◌<◌, ◌≤◌, Some, IfOk, IfSome, length};
ghost use Rattle.app_core.specs.Commands.{IsCommand, IsRankCount, IsWork};
ghost use Rattle.rank.specs.Runs.{IsKeptAt, IsRightResult};

use crate::OutOfMemory;
use crate::signals::Signals;
use app_core::{App, Naming};
use container::Container;
use crossbeam_utils::CachePadded;
use event_lists::{Bringer, Future};
use mailbox::{Inbox, Mail};
use std::alloc::Global;
use std::marker::Model;
use std::sync::atomic::{AtomicU64, Ordering};
use std::sync::{Mutex, Wait};
use task_pool::Pool;
use task_tables::{RankTables, Ready};

/// What the hands of one rank share, and the inboxes of all ranks. Contracts see the number of the rank, how many ranks
/// there are, and how many workers the rank has.
///
/// What its pool, its tables, its container and the inboxes have is right for the application that `J` names, by their
/// types.
#[derive(Drop)]
pub struct RankShare<'a, A: App, J: Naming<A>> {
    app: &'a A,
    signals: &'a Signals,
    inboxes: &'a [Inbox<Mail<A, J>>],
    pool: Pool<Ready<A, J>>,
    container: Container<A, J>,
    tables: CachePadded<Mutex<RankTables<A, J>>>,
    next: CachePadded<AtomicU64>,
    rank: u32,
    workers: u32,
}

impl<'a, A: App, J: Naming<A>> Model for RankShare<'a, A, J> {
    ghost use Rattle.std.specs.Prelude.{◌≡◌, ◌<◌, Some, length};
    ghost use Rattle.rank.specs.Shares.{ShareData};

    ghost Value = { ShareData };

    ghost view = { λ s. record { rank = s.rank; ranks = length s.inboxes.now; workers = s.workers } };

    ghost invariant = { λ s. (J.app ≡ Some s.app.now) × (length s.inboxes.now ≡ A.ranks_of s.app.now) × (s.rank < length s.inboxes.now) × (s.container ≡ s.rank) };
}

impl<'a, A: App, J: Naming<A>> RankShare<'a, A, J> {
    /// What the hands of a rank share: its pool, its container, and empty tables of futures and of waiting tasks. There is
    /// one inbox for each rank that the application is made for. `workers` is how many workers the rank has beside its
    /// main, at most 4.
    pub fn new(
        alloc: Global,
        app: &'a A,
        signals: &'a Signals,
        inboxes: &'a [Inbox<Mail<A, J>>],
        pool: Pool<Ready<A, J>>,
        container: Container<A, J>,
        rank: u32,
        workers: u32,
    ) -> Result<RankShare<'a, A, J>, OutOfMemory>
        requires named { J.app ≡ Some app.now }
        requires ranks { length inboxes.now ≡ A.ranks_of app.now }
        requires rank { rank < length inboxes.now }
        requires container { container ≡ rank }
        requires workers { workers ≤ 4 }
        ensures { IfOk result (λ s. s ≡ record { rank = rank; ranks = length inboxes.entry.now; workers = workers }) }
    {
        Ok(RankShare {
            app,
            signals,
            inboxes,
            pool,
            container,
            tables: CachePadded::new(Mutex::new(RankTables::new(alloc))),
            next: CachePadded::new(AtomicU64::new(0)),
            rank,
            workers,
        })
    }

    /// The number of the rank.
    pub fn rank(&self) -> u32
        ensures rank { result ≡ self.now.rank }
        ensures below { self.now.rank < self.now.ranks }
    {
        self.rank
    }

    /// How many ranks there are, from 1 to 16.
    pub fn ranks(&self) -> u32
        ensures ranks { result ≡ self.now.ranks }
        ensures count { IsRankCount result }
        ensures made { IfSome J.app (λ app. A.ranks_of app ≡ result) }
    {
        self.inboxes.len() as u32
    }

    /// How many workers the rank has.
    pub fn workers(&self) -> u32
        ensures { result ≡ self.now.workers }
    {
        self.workers
    }

    /// A copy of the value of a command's result, which is right for it. The command is a work command whose result is
    /// kept at this rank. The call looks for the value until it is there, and doesn't return before.
    pub fn result<R: Wait>(&self, rt: &R, command: u32) -> Result<A::Value, OutOfMemory>
        requires work { IfSome J.app (λ app. IsWork (A.kinds_of app) command) }
        requires kept { IfSome J.app (λ app. IsKeptAt (λ future. A.kept_at app future self.now.ranks) self.now.rank (A.result_of app command)) }
        ensures { IfSome J.app (λ app. IfOk result (λ value. IsRightResult (A.right_value app) (A.result_of app command) value)) }
    {
        let future = result_future(self.app, command);
        for _ in rt.forever() {
            let mut tables = self.tables.lock(rt);
            if let Some(value) = tables.futures.find(self.app, future)? {
                return Ok(value);
            }
        }
        unreachable!()
    }

    // The application, which `J` names.
    pub(crate) fn app(&self) -> &'a A
        ensures named { J.app ≡ Some result.now }
        ensures ranks { A.ranks_of result.now ≡ self.now.ranks }
    {
        self.app
    }

    // How many ranks there are: so many as the application is made for.
    pub(crate) fn ranks_of(&self, app: &A) -> u32
        requires named { J.app ≡ Some app.now }
        ensures ranks { result ≡ self.now.ranks }
        ensures made { result ≡ A.ranks_of app.now }
    {
        let _ = app;
        self.ranks()
    }

    // The number of the next task of the rank: no two are equal, up to 2^64 of them.
    pub(crate) fn next_number(&self) -> u64 {
        self.next.fetch_add(1, Ordering::SeqCst)
    }

    pub(crate) fn signals(&self) -> &'a Signals {
        self.signals
    }

    // The inbox of a rank.
    pub(crate) fn inbox(&self, rank: u32) -> &'a Inbox<Mail<A, J>>
        requires { rank < self.now.ranks }
    {
        &self.inboxes[rank as usize]
    }

    pub(crate) fn pool(&self) -> &Pool<Ready<A, J>> {
        &self.pool
    }

    pub(crate) fn container(&self) -> &Container<A, J> {
        &self.container
    }

    pub(crate) fn tables(&self) -> &Mutex<RankTables<A, J>> {
        &self.tables
    }
}

// The future of the result of a work command: the main of rank 0 creates it.
pub(crate) fn result_future<A: App>(app: &A, command: u32) -> Future
    requires command { IsCommand (A.kinds_of app.now) command }
    requires work { IsWork (A.kinds_of app.now) command }
    ensures { A.result_of app.now command ≡ Some result.label }
{
    match app.result(command) {
        Some(label) => Future {
            by: Bringer::Main { rank: 0 },
            label,
        },
        None => unreachable!(),
    }
}
