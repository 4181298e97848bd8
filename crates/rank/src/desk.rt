//! What one hand works with.
ghost use Rattle.std.specs.Prelude.{◌≡◌, ◌≢◌, ◌<◌, vec_len};

use crate::OutOfMemory;
use crate::share::RankShare;
use app_core::{App, Naming};
use mailbox::{Mail, Pass};
use std::alloc::Global;
use std::sync::Wait;
use task_pool::PoolSeat;
use task_tables::Ready;

/// What one hand works with: what its rank shares, its seat at the pool, and its passes to the inboxes of all ranks.
#[derive(Drop)]
pub(crate) struct Desk<'a, A: App, J: Naming<A>> {
    pub(crate) share: &'a RankShare<'a, A, J>,
    pub(crate) seat: PoolSeat<Ready<A, J>>,
    pub(crate) passes: Vec<Pass<Mail<A, J>>>,
    pub(crate) alloc: Global,
    pub(crate) ghost has_passes: { vec_len passes ≡ share.now.ranks },
}

impl<'a, A: App, J: Naming<A>> Desk<'a, A, J> {
    // Sends a message to another rank.
    pub(crate) fn send<R: Wait>(
        &mut self,
        rt: &R,
        target: u32,
        mail: Mail<A, J>,
    ) -> Result<(), OutOfMemory>
        requires below { target < self.old.share.now.ranks }
        requires other { target ≢ self.old.share.now.rank }
    {
        let share = self.share;
        match share
            .inbox(target)
            .put(rt, &mut self.passes[target as usize], mail)
        {
            Ok(()) => Ok(()),
            Err(_) => Err(OutOfMemory),
        }
    }

    // Takes the first message that waits for the rank, if one does.
    pub(crate) fn take_mail<R: Wait>(&mut self, rt: &R) -> Option<Mail<A, J>> {
        let share = self.share;
        let rank = share.rank();
        share.inbox(rank).take(rt, &mut self.passes[rank as usize])
    }

    // Puts a task that is ready into the pool.
    pub(crate) fn push<R: Wait>(&mut self, rt: &R, task: Ready<A, J>) -> Result<(), OutOfMemory> {
        let share = self.share;
        match share.pool().push(rt, &mut self.seat, task) {
            Ok(()) => Ok(()),
            Err(_) => Err(OutOfMemory),
        }
    }

    // The same, if there is one.
    pub(crate) fn push_some<R: Wait>(
        &mut self,
        rt: &R,
        task: Option<Ready<A, J>>,
    ) -> Result<(), OutOfMemory> {
        match task {
            Some(task) => self.push(rt, task),
            None => Ok(()),
        }
    }

    // Takes a task out of the pool, if there is one.
    pub(crate) fn take_task<R: Wait>(&mut self, rt: &R) -> Option<Ready<A, J>> {
        let share = self.share;
        share.pool().take(rt, &mut self.seat)
    }
}
