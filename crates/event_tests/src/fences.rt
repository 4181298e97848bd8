//! Fences of one rank, which counted nothing.
use crate::offers::{Offered, Step, taken};
use crate::rounds::hand;
use app_core::OutOfMemory;
use event_core::EventList;
use event_lists::{Event, Kind, Receipt, Row, Rows};
use event_rules::allows;
use event_search::SearchedList;
use std::alloc::Global;
use std::test::Fail;

// A reading in the first fence.
const fn reads(kind: Kind, pass: u64) -> Step {
    let (value, fence) = (0, 1);
    let event = match kind {
        Kind::Handlings => Event::ReadHandled { value, fence, pass },
        Kind::Runs => Event::ReadRan { value, fence, pass },
        Kind::Submissions => Event::ReadSubmitted { value, fence, pass },
        Kind::Sends => Event::ReadSent { value, fence, pass },
    };
    (hand(0, 0), event)
}

// The receipt of the first fence after this pass.
fn receipt(pass: u64) -> Step {
    let none = Row {
        sent: 0,
        handled: 0,
        tasks: 0,
    };
    let rows = Rows::of(&[none]).unwrap();
    let receipt = Receipt {
        fence: 1,
        pass,
        rows,
    };
    (hand(0, 0), Event::Receipt(receipt))
}

// How many of these events an indexed list and a searched one take until they refuse one.
fn taken_by_both(alloc: Global, steps: &[Step]) -> Result<[usize; 2], OutOfMemory> {
    let mut indexed = EventList::new(alloc, 1, 0)?;
    let mut searched = SearchedList::new(alloc, 1, 0);
    Ok([taken(&mut indexed, steps)?, taken(&mut searched, steps)?])
}

#[test]
fn a_fence_takes_two_passes_in_order(rt: HostRuntime) {
    let mut steps = [
        (hand(0, 0), Event::Enter(1)),
        reads(Kind::Handlings, 1),
        reads(Kind::Runs, 1),
        reads(Kind::Submissions, 1),
        reads(Kind::Sends, 1),
        reads(Kind::Handlings, 2),
        reads(Kind::Runs, 2),
        reads(Kind::Submissions, 2),
        reads(Kind::Sends, 2),
        receipt(2),
        (hand(0, 0), Event::Leave(1)),
    ];
    assert_eq!(rt; taken_by_both(rt.alloc(), &steps), Ok([11, 11]));
    // A receipt after one pass; and submitted, read before ran.
    steps[5] = receipt(1);
    assert_eq!(rt; taken_by_both(rt.alloc(), &steps), Ok([5, 5]));
    steps[2] = reads(Kind::Submissions, 1);
    assert_eq!(rt; taken_by_both(rt.alloc(), &steps), Ok([2, 2]));
}

#[test]
fn a_repeated_enter_is_refused(rt: HostRuntime) -> Result<(), Fail> {
    let mut list = EventList::new(rt.alloc(), 1, 0)?;
    assert_eq!(rt; list.add(hand(0, 0), &Event::Enter(1)), Ok(true));
    assert_eq!(rt; list.add(hand(0, 0), &Event::Enter(1)), Ok(false));
    assert_eq!(rt; list.marks().len(), 1);
    Ok(())
}

#[test]
fn the_decision_serves_both_lists(rt: HostRuntime) -> Result<(), Fail> {
    let mut indexed = EventList::new(rt.alloc(), 1, 0)?;
    let searched = SearchedList::new(rt.alloc(), 1, 0);
    let (main, enter) = (hand(0, 0), Event::Enter(1));
    assert!(rt; searched.marks().is_empty() && allows(&searched, main, &enter));
    assert_eq!(rt; indexed.add(main, &enter), Ok(true));
    assert!(rt; !allows(&indexed, main, &enter));
    Ok(())
}
