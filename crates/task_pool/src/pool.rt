//! The pool of a rank.
ghost use Rattle.std.specs.Prelude.{◌≡◌, ◌≤◌, ◌+◌, IfErr, IfOk};
ghost use Rattle.std.specs.List.{range_with_len};

use crate::pool_state::PoolState;
use crate::{OutOfMemory, Refused};
use crossbeam_utils::CachePadded;
use std::alloc::Global;
use std::marker::{Model, PhantomData};
use std::sync::atomic::{AtomicBool, Ordering};
use std::sync::{Mutex, Wait};

/// What waits for the hands of a rank to run it. The hands share it by reference.
///
/// A lock's value is known by its type alone, so the clauses on what is added and taken are those of [`PoolState`], and
/// a unit that comes out has what its type states.
#[derive(Drop)]
pub struct Pool<U> {
    shared: CachePadded<Shared<U>>,
}

// The units, and whether there are any: written with the lock alone, and read without it, so that a hand that finds
// none takes no lock.
#[derive(Drop)]
struct Shared<U> {
    state: Mutex<PoolState<U>>,
    has_units: AtomicBool,
}

/// The right of one hand to a pool. Contracts see the number of the hand.
#[derive(Drop)]
pub struct PoolSeat<U> {
    hand: u32,
    of: PhantomData<U>,
}

impl<U> Model for PoolSeat<U> {
    ghost use Rattle.std.specs.Prelude.{ℕ};

    ghost Value = { ℕ };

    ghost view = { λ s. s.hand };
}

/// The seats of the hands of a rank, by number.
#[derive(Drop)]
pub struct Seats<U> {
    pub seats: Vec<PoolSeat<U>>,
}

impl<U> PoolSeat<U> {
    /// The number of its hand.
    pub fn hand(&self) -> u32
        ensures { result ≡ self.now }
    {
        self.hand
    }
}

impl<U: Drop> Pool<U> {
    /// A pool without units, and a seat for each hand: the main, which has number 0, and so many workers, at most 4.
    pub fn new(alloc: Global, workers: u32) -> Result<(Pool<U>, Seats<U>), OutOfMemory>
        requires { workers ≤ 4 }
        ensures { IfOk result (λ r. r.1.seats.items ≡ range_with_len 0 (workers + 1)) }
    {
        let mut seats = Vec::with_capacity(alloc, workers as usize + 1)?;
        for hand in 0..workers + 1 {
            seats.push(PoolSeat {
                hand,
                of: PhantomData,
            })?;
        }
        let shared = Shared {
            state: Mutex::new(PoolState::new(alloc)),
            has_units: AtomicBool::new(false),
        };
        let pool = Pool {
            shared: CachePadded::new(shared),
        };
        Ok((pool, Seats { seats }))
    }

    /// Adds the unit last. Where there is no memory for it, it comes back. It may wait for other threads.
    pub fn push<R: Wait>(&self, rt: &R, seat: &mut PoolSeat<U>, unit: U) -> Result<(), Refused<U>>
        ensures back { IfErr result (λ e. e.value ≡ unit) }
        ensures seat { seat.new ≡ seat.old }
    {
        let mut state = self.shared.state.lock(rt);
        state.push(unit)?;
        if state.len() == 1 {
            self.shared.has_units.store(true, Ordering::SeqCst);
        }
        Ok(())
    }

    /// Takes the first unit out, if there is one. It may wait for other threads, and takes no memory.
    pub fn take<R: Wait>(&self, rt: &R, seat: &mut PoolSeat<U>) -> Option<U>
        ensures { seat.new ≡ seat.old }
    {
        if !self.shared.has_units.load(Ordering::SeqCst) {
            return None;
        }
        let mut state = self.shared.state.lock(rt);
        let unit = state.take();
        if state.is_empty() {
            self.shared.has_units.store(false, Ordering::SeqCst);
        }
        unit
    }
}
