//! Books.
use event_core::{Book, LanePart};
use event_lists::{Event, LaneName};
use lane_trace::{LaneTrace, Room};
use std::test::Fail;

const MAIN: LaneName = LaneName {
    rank: 0,
    bin: false,
    number: 0,
};

#[test]
fn a_book_gives_back_its_parts(rt: HostRuntime) -> Result<(), Fail> {
    let alloc = rt.alloc();
    let mut trace = LaneTrace::new(alloc);
    trace.reserve(&Room::of_any(1))?;
    trace.enter(1);
    let mut parts = Vec::new(alloc);
    parts.push(LanePart::new(MAIN, trace))?;
    let book = Book::new(1, 0, parts);
    assert_eq!(rt;
        (book.ranks(), book.workers(), book.parts().len()),
        (1, 0, 1)
    );
    for part in book.into_parts() {
        assert!(rt; part.lane() == MAIN && part.len() == 1 && !part.is_empty());
        if part.len() == 1 {
            assert_eq!(rt; part.event_at(0), Event::Enter(1));
        }
        let events = part.into_trace().to_events(alloc)?;
        assert!(rt; events.as_slice() == [Event::Enter(1)].as_slice());
    }
    Ok(())
}
