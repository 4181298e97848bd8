//! Whether the indexed list judges as the searched one does.
use crate::offers::{Both, Step};
use crate::rounds::{EVENTS, RANKS, WORKERS, bin, ends, entry, events, fence, hand, receipt, rows};
use event_lists::{Event, LaneName};
use std::alloc::Global;
use std::process::Abort;
use std::test::Fail;

// How many events follow one another that near picks are made among.
const NEAR: usize = 6;

// How many picks are made at each place among near events, and as many among ends.
const PICKS: usize = 32;

// How many picks are made at each place among all events.
const FAR: usize = 4;

// The next of a fixed sequence of numbers: the linear congruence of Knuth's MMIX.
const fn following(number: u64) -> u64 {
    number
        .wrapping_mul(6_364_136_223_846_793_005)
        .wrapping_add(1_442_695_040_888_963_407)
}

// One of these events, by the high bits of a number.
fn picked(steps: &[Step], number: u64) -> Option<&Step> {
    let count = steps.len();
    if count == 0 {
        return None;
    }
    steps.get((number >> 33) as usize % count)
}

// The events of two rounds in order.
fn two_rounds(alloc: Global) -> Result<Vec<Step>, Fail> {
    let mut steps = events(alloc, 0)?;
    for step in events(alloc, 1)?.iter() {
        steps.push(*step)?;
    }
    Ok(steps)
}

// How rank 0's worker may end what it takes in two rounds.
fn all_ends(alloc: Global) -> Result<Vec<Step>, Fail> {
    let mut steps = ends(alloc, 0)?;
    for step in ends(alloc, 1)?.iter() {
        steps.push(*step)?;
    }
    Ok(steps)
}

// Gives both lists some of these events, by a sequence of numbers that begins after this one. The last of them.
fn offer(
    rt: &impl Abort,
    both: &mut Both,
    steps: &[Step],
    picks: usize,
    last: u64,
) -> Result<u64, Fail> {
    let mut number = last;
    for _ in 0..picks {
        number = following(number);
        if let Some((lane, event)) = picked(steps, number) {
            assert!(rt; both.offer(*lane, event)?.is_some());
        }
    }
    Ok(number)
}

// Picks events of two rounds: most near a place that moves through them, some of the ends, and some from anywhere. How
// many events of hands both lists have then, and how many in all.
fn judged(rt: &impl Abort, alloc: Global, seed: u64) -> Result<(usize, usize), Fail> {
    let steps = two_rounds(alloc)?;
    let ends = all_ends(alloc)?;
    let mut both = Both::new(alloc, RANKS, WORKERS)?;
    let mut number = seed;
    for near in steps.windows(NEAR) {
        number = offer(rt, &mut both, near, PICKS, number)?;
        number = offer(rt, &mut both, &ends, PICKS, number)?;
        number = offer(rt, &mut both, &steps, FAR, number)?;
    }
    let marks = both.marks();
    assert!(rt; marks.is_some());
    Ok(marks.map_or(
        (0, 0),
        |all| (all.iter().filter(|m| !m.lane.bin).count(), all.len()),
    ))
}

#[test]
fn both_lists_judge_alike(rt: HostRuntime) -> Result<(), Fail> {
    for seed in [1, 2026] {
        let (of_hands, added) = judged(&rt, rt.alloc(), seed)?;
        // Both rounds went through but for the bin's events, which can come again and again. More than 11,000 events
        // were picked, so most were refused.
        assert_eq!(rt; of_hands, 2 * (EVENTS - 2), "with {seed}");
        assert!(rt; added <= 1_000, "{added} events added with {seed}");
    }
    Ok(())
}

#[test]
fn both_lists_take_two_rounds(rt: HostRuntime) -> Result<(), Fail> {
    let mut both = Both::new(rt.alloc(), RANKS, WORKERS)?;
    for (i, (lane, event)) in two_rounds(rt.alloc())?.iter().enumerate() {
        assert_eq!(rt; both.offer(*lane, event), Ok(Some(true)), "event {i}");
    }
    let marks = both.marks();
    assert!(rt; marks.is_some_and(|m| m.len() == 2 * EVENTS));
    Ok(())
}

// Events that no list of the first round takes, once it has as many events as the first number says and until it has
// as many as the second says.
fn strange() -> [(usize, usize, LaneName, Event); 7] {
    let mut rows = rows(0);
    rows[3].handled = 2;
    let off_by_one = receipt(0, &rows);
    let again = Event::ReadHandled {
        value: 3,
        fence: 1,
        pass: 3,
    };
    [
        // A rank, a worker and a bin that there aren't.
        (0, 84, hand(4, 0), Event::Enter(1)),
        (0, 84, hand(0, 2), Event::Enter(1)),
        (0, 84, bin(16), Event::Put(entry(0))),
        // A row off by one.
        (0, 84, hand(0, 0), off_by_one),
        // A second put, until the entry is erased.
        (17, 18, bin(3), Event::Put(entry(0))),
        // A third pass, until the second is complete.
        (0, 79, hand(0, 0), again),
        // A main leaves before the receipt.
        (0, 80, hand(2, 0), Event::Leave(fence(0))),
    ]
}

#[test]
fn both_lists_refuse_strange_events(rt: HostRuntime) -> Result<(), Fail> {
    let mut both = Both::new(rt.alloc(), RANKS, WORKERS)?;
    let strange = strange();
    for (i, (lane, event)) in events(rt.alloc(), 0)?.iter().enumerate() {
        for (from, until, place, wrong) in strange.iter() {
            if *from <= i && i < *until {
                assert_eq!(rt;
                    both.offer(*place, wrong),
                    Ok(Some(false)),
                    "before event {i}"
                );
            }
        }
        assert_eq!(rt; both.offer(*lane, event), Ok(Some(true)), "event {i}");
    }
    Ok(())
}
