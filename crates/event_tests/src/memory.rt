//! What a list is when memory ran out.
//!
//! No memory runs out where this is run as it is. `rt try --test --fail-alloc N` makes the Nth allocation fail.
use crate::offers::Step;
use crate::rounds::{EVENTS, RANKS, WORKERS, events, hand};
use event_core::EventList;
use event_lists::Event;
use std::process::Abort;
use std::test::Fail;

// Whether a list has the first of these events, as many as `count`, and no others.
fn has_first(list: &EventList, steps: &[Step], count: usize) -> bool {
    if list.marks().len() != count || count > steps.len() {
        return false;
    }
    for (mark, step) in list.marks().iter().zip(steps.iter()) {
        if mark.lane != step.0 || mark.event != step.1 {
            return false;
        }
    }
    true
}

// Adds these events. Where memory runs out the list is as it was, refuses what it refused, and takes the event when it
// is offered again.
fn add_all(rt: &impl Abort, list: &mut EventList, steps: &[Step]) {
    for (i, (lane, event)) in steps.iter().enumerate() {
        let mut added = list.add(*lane, event);
        if added.is_err() {
            assert!(rt; has_first(list, steps, i), "after event {i} failed");
            assert_eq!(rt;
                list.add(hand(0, 9), event),
                Ok(false),
                "instead of event {i}"
            );
            added = list.add(*lane, event);
        }
        assert_eq!(rt; added, Ok(true), "event {i}");
    }
}

#[test]
fn a_list_without_memory_stays_as_it_was(rt: HostRuntime) -> Result<(), Fail> {
    let steps = events(rt.alloc(), 0)?;
    let mut list = EventList::new(rt.alloc(), RANKS, WORKERS)?;
    add_all(&rt, &mut list, &steps);
    assert!(rt; steps.len() == EVENTS && has_first(&list, &steps, EVENTS));
    assert_eq!(rt; list.add(hand(0, 0), &Event::Enter(1)), Ok(false));
    Ok(())
}
