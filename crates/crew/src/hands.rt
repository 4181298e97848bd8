//! The hands of a run.
ghost use Rattle.std.specs.Prelude.{◌≡◌, ◌≤◌, All, length, vec_len};

use crate::OutOfMemory;
use crate::threads::Place;
use app_core::{App, Naming};
use crossbeam_utils::CachePadded;
use rank::{Hand, RankShare};
use std::alloc::Global;
use std::sync::{Mutex, Wait};
use task_pool::PoolSeat;
use task_tables::Ready;

// The hands of all ranks, from the last rank to the first, and of a rank from its last worker to its main. So the last
// is the main of rank 0.
pub(crate) fn hands_of<'a, 's: 'a, A: App, J: Naming<A>, R: Wait>(
    rt: &R,
    alloc: Global,
    shares: &'a [RankShare<'s, A, J>],
    mut seats: Vec<Vec<PoolSeat<Ready<A, J>>>>,
    workers: u32,
) -> Result<Vec<Place<Hand<'a, A, J>>>, OutOfMemory>
    requires staff { All (λ share. share.workers ≡ workers) shares.now }
    requires each { vec_len seats ≡ length shares.now }
    requires seats { All (λ at_pool. All (λ seat. seat ≤ workers) at_pool.items) seats.items }
{
    let mut hands = Vec::new(alloc);
    while let Some(at_pool) = seats.pop() {
        add_hands(rt, alloc, &shares[seats.len()], at_pool, &mut hands)?;
    }
    Ok(hands)
}

// Adds the hands of a rank, one for each seat.
fn add_hands<'a, 's: 'a, A: App, J: Naming<A>, R: Wait>(
    rt: &R,
    alloc: Global,
    share: &'a RankShare<'s, A, J>,
    mut seats: Vec<PoolSeat<Ready<A, J>>>,
    hands: &mut Vec<Place<Hand<'a, A, J>>>,
) -> Result<(), OutOfMemory>
    requires { All (λ seat. seat ≤ share.now.workers) seats.items }
{
    while let Some(seat) = seats.pop() {
        let number = seat.hand();
        let hand = Hand::new(rt, alloc, &*share, seat, number)?;
        hands.push(CachePadded::new(Mutex::new(hand)))?;
    }
    Ok(())
}
