//! Small runs, given to a searched list event by event.
ghost use Rattle.event_rules.specs.Listed.{AreInRange};

use app_core::{Label, Needs, OutOfMemory};
use event_lists::{Event, Item, LaneName, Parcel, Row, TaskName};
use event_rules::{Made, Past};
use event_search::SearchedList;
use std::alloc::Global;

// The lane of a rank's main.
const fn main_of(rank: u32) -> LaneName {
    LaneName {
        rank,
        bin: false,
        number: 0,
    }
}

// How many events of mains a new list takes until it refuses one, and how many it has then.
fn taken(alloc: Global, ranks: u32, events: &[(u32, Event)]) -> Result<(usize, usize), OutOfMemory>
    requires { AreInRange ranks 0 }
{
    let mut list = SearchedList::new(alloc, ranks, 0);
    for (i, (rank, event)) in events.iter().enumerate() {
        if !list.add(main_of(*rank), event)? {
            return Ok((i, list.marks().len()));
        }
    }
    Ok((events.len(), list.marks().len()))
}

const fn label(place: u64) -> Label {
    Label {
        command: 1,
        part: 0,
        place,
    }
}

const fn sent(number: u64, to: u32, parcel: Parcel) -> Event {
    Event::Sent { number, to, parcel }
}

const fn submitted(number: u64, task: TaskName) -> Event {
    Event::Submitted { number, task }
}

const fn handled(number: u64, rank: u32, message: u64) -> Event {
    Event::Handled {
        number,
        rank,
        message,
    }
}

const fn ran(number: u64, rank: u32, task: u64) -> Event {
    Event::Ran { number, rank, task }
}

// A run of two ranks: rank 0 sends a unit to rank 1, which gives future 3, and submits one that needs it.
fn run() -> [(u32, Event); 13] {
    let giver = TaskName {
        unit: label(2),
        needs: Needs::none(),
        due: Some(label(3)),
    };
    let needer = TaskName {
        unit: label(1),
        needs: Needs::of(&[label(3)]).unwrap(),
        due: None,
    };
    let parcel = Parcel::Unit {
        unit: label(2),
        due: Some(label(3)),
    };
    [
        (0, sent(0, 1, parcel)),
        (0, submitted(0, needer)),
        (1, Event::TookMessage { rank: 0, number: 0 }),
        (1, submitted(0, giver)),
        (1, handled(0, 0, 0)),
        (1, Event::TookTask { rank: 1, number: 0 }),
        (1, sent(0, 0, Parcel::Give(label(3)))),
        (1, ran(0, 1, 0)),
        (0, Event::TookMessage { rank: 1, number: 0 }),
        (0, Event::Gave(label(3))),
        (0, handled(0, 1, 0)),
        (0, Event::TookTask { rank: 0, number: 0 }),
        (0, ran(0, 0, 0)),
    ]
}

#[test]
fn a_task_is_taken_after_its_need_was_given(rt: HostRuntime) {
    let mut events = run();
    assert_eq!(rt; taken(rt.alloc(), 2, &events), Ok((13, 13)));
    // The needer is taken before its need was given, the giver ends without giving, and the message is handled before
    // its unit was submitted.
    for (before, early) in [(8usize, 11usize), (6, 7), (3, 4)] {
        events[before] = events[early];
        assert_eq!(rt; taken(rt.alloc(), 2, &events), Ok((before, before)));
    }
}

// What the rules ask of a list, through their bound.
fn asked<P: Past>(past: &P) -> (u32, u32, Option<Made>, bool, Option<Row>) {
    let message = Item::Message { rank: 0, number: 0 };
    (
        past.ranks(),
        past.workers(),
        past.item(message),
        past.has_receipt(1),
        past.row(1, 1, 0),
    )
}

#[test]
fn nothing_is_found_in_a_list_without_events(rt: HostRuntime) {
    let list = SearchedList::new(rt.alloc(), 2, 4);
    assert_eq!(rt; asked(&list), (2, 4, None, false, None));
}
