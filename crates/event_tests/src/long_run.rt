//! A long run.
use crate::offers::{Step, taken};
use crate::rounds::{EVENTS, RANKS, events, hand};
use event_core::EventList;
use event_lists::Event;
use std::test::Fail;

// Each rank has as many workers as there may be.
const WORKERS: u32 = 4;

// So many rounds have more than 2^17 events.
const ROUNDS: u16 = 1600;

// Gives each message and each task that a worker takes to the next of the four workers.
fn spread(steps: &mut [Step]) {
    let mut worker = 0;
    for step in steps.iter_mut() {
        if !step.0.bin && step.0.number == 1 {
            if matches!(step.1, Event::TookMessage { .. } | Event::TookTask { .. }) {
                worker = worker % WORKERS + 1;
            }
            step.0.number = worker;
        }
    }
}

#[test]
fn four_workers_add_more_than_2_to_the_17_events(rt: HostRuntime) -> Result<(), Fail> {
    let alloc = rt.alloc();
    let mut list = EventList::new(alloc, RANKS, WORKERS)?;
    for round in 0..ROUNDS {
        let mut steps = events(alloc, round)?;
        spread(&mut steps);
        assert_eq!(rt; taken(&mut list, &steps), Ok(EVENTS), "round {round}");
    }
    let count = list.marks().len();
    assert!(rt; count > 1 << 17);
    // Every worker was at work, and there is no fifth.
    for worker in 1..5 {
        assert!(rt; list.marks().iter().any(|mark| mark.lane == hand(0, worker)));
    }
    // What the list refused at its beginning it refuses still.
    for (lane, event) in [
        (hand(0, 0), Event::Enter(1)),
        (hand(0, 5), Event::TookTask { rank: 0, number: 0 }),
        (hand(0, 1), Event::TookTask { rank: 0, number: 0 }),
    ] {
        assert_eq!(rt; list.add(lane, &event), Ok(false));
    }
    assert_eq!(rt; list.marks().len(), count);
    Ok(())
}
