//! What no clause says: that memory suffices, that a lock's value is the same for all hands, and that no unit is lost.
ghost use Rattle.std.specs.Prelude.{◌≡◌, ◌*◌, IfSome};

use crate::{Pool, PoolSeat, PoolState, oldest_comes_first};
use std::sync::Wait;
use std::test::Fail;
use std::thread;
use std::thread::Threads;

// A unit whose type states a fact.
#[derive(Drop)]
struct Doubled {
    half: u64,
    whole: u64,
    ghost doubled: { whole ≡ 2 * half },
}

fn unit_of(half: u32) -> Doubled {
    Doubled {
        half: u64::from(half),
        whole: 2 * u64::from(half),
    }
}

// What comes out has the fact of its type, whoever pushed it.
fn take_doubled<R: Wait>(
    rt: &R,
    pool: &Pool<Doubled>,
    seat: &mut PoolSeat<Doubled>,
) -> Option<(u64, u64)>
    ensures { IfSome result (λ r. r.1 ≡ 2 * r.0) }
{
    let unit = pool.take(rt, seat)?;
    Some((unit.half, unit.whole))
}

#[test]
fn one_hand_pushes_and_another_takes(rt: HostRuntime) -> Result<(), Fail> {
    let (pool, mut seats) = Pool::new(rt.alloc(), 1)?;
    let mut worker = seats.seats.pop().ok_or("two seats")?;
    let mut main = seats.seats.pop().ok_or("two seats")?;
    assert_eq!(rt; (main.hand(), worker.hand()), (0, 1));
    assert!(rt; pool.push(&rt, &mut main, unit_of(5)).is_ok());
    assert_eq!(rt; take_doubled(&rt, &pool, &mut worker), Some((5, 10)));
    assert_eq!(rt; take_doubled(&rt, &pool, &mut worker), None);
    Ok(())
}

#[test]
fn states_are_first_in_first_out(rt: HostRuntime) -> Result<(), Fail> {
    assert_eq!(rt; oldest_comes_first(rt.alloc())?, (Some(5), Some(7), None));
    let mut state = PoolState::new(rt.alloc());
    assert!(rt; state.is_empty());
    for unit in 0..40u8 {
        assert!(rt; state.push(unit).is_ok());
    }
    assert_eq!(rt; state.len(), 40);
    for unit in 0..40u8 {
        assert_eq!(rt; state.take(), Some(unit));
    }
    assert_eq!(rt; state.take(), None);
    Ok(())
}

const COUNT: u32 = 20_000;

// The sum of the first halves that were taken.
fn take_all<R: Wait>(rt: &R, pool: &Pool<Doubled>, mut seat: PoolSeat<Doubled>) -> u64 {
    let mut sum = 0u64;
    let mut taken = 0u32;
    for _ in rt.forever() {
        if taken == COUNT {
            return sum;
        }
        if let Some((half, _)) = take_doubled(rt, pool, &mut seat) {
            sum = sum.wrapping_add(half);
            taken = taken.saturating_add(1);
        }
    }
    unreachable!()
}

fn push_all<R: Wait>(rt: &R, pool: &Pool<Doubled>, mut seat: PoolSeat<Doubled>) -> bool {
    for half in 0..COUNT {
        if pool.push(rt, &mut seat, unit_of(half)).is_err() {
            return false;
        }
    }
    true
}

fn share<R: Threads + Wait + Sync>(
    rt: &R,
    pool: &Pool<Doubled>,
    main: PoolSeat<Doubled>,
    worker: PoolSeat<Doubled>,
) -> (bool, u64) {
    thread::join(
        rt,
        move || push_all(rt, pool, main),
        move || take_all(rt, pool, worker),
    )
}

// Each unit that one thread pushes comes out to the other, once: their sum is that of all.
#[test]
fn two_threads_lose_no_unit(rt: HostRuntime) -> Result<(), Fail> {
    let (pool, mut seats) = Pool::new(rt.alloc(), 1)?;
    let worker = seats.seats.pop().ok_or("two seats")?;
    let main = seats.seats.pop().ok_or("two seats")?;
    let (pushed, sum) = share(&rt, &pool, main, worker);
    assert!(rt; pushed);
    assert_eq!(rt; sum, 199_990_000);
    Ok(())
}
