//! Each kind of event goes into a trace and comes back.
ghost use Rattle.std.specs.Prelude.{◌≤◌, length};
ghost use Rattle.app_core.specs.Needs.{AreDistinct};

use crate::{LaneRecord, LaneTrace, Room};
use app_core::{CellName, Label, Needs};
use event_lists::{Event, Item, Kind, Parcel, Receipt, Row, Rows, TaskName};
use std::alloc::Global;
use std::test::Fail;
use std::thread;
use std::thread::Threads;

fn label(place: u64) -> Label {
    Label {
        command: 3,
        part: 200,
        place,
    }
}

const NAME: CellName = CellName {
    version: 5,
    place: 6,
};

// So many labels, which are different.
fn needs(count: usize) -> Needs
    ensures few { length result ≤ 16 }
    ensures distinct { AreDistinct result }
{
    let mut labels = [label(0); 16];
    for (i, label) in labels.iter_mut().enumerate() {
        label.place = 100 + i as u64;
    }
    let needs = Needs::of(&labels[..count.min(16)]).unwrap_or(Needs::none());
    let _ = needs.len();
    needs
}

// So many rows, which are different.
fn rows(count: usize) -> Rows
    ensures { length result ≤ 16 }
{
    let mut rows = [Row {
        sent: 0,
        handled: 0,
        tasks: 0,
    }; 16];
    for (i, row) in rows.iter_mut().enumerate() {
        row.sent = i as u64;
        row.tasks = 40;
    }
    let Some(rows) = Rows::of(&rows[..count.min(16)]) else {
        unreachable!();
    };
    let _ = rows.len();
    rows
}

fn receipt(ranks: usize) -> Receipt
    ensures { length result.rows ≤ 16 }
{
    Receipt {
        fence: 1,
        pass: 4,
        rows: rows(ranks),
    }
}

fn task(needed: usize, due: Option<Label>) -> TaskName {
    TaskName {
        unit: label(8),
        needs: needs(needed),
        due,
    }
}

fn unit(due: Option<Label>) -> Parcel {
    Parcel::Unit {
        unit: label(7),
        due,
    }
}

// One event of each kind, messages and tasks with and without a due, and with all needs.
fn of_each_kind() -> [Event; 21] {
    let (value, fence, pass) = (1, 2, 3);
    [
        Event::Sent {
            number: 1,
            to: 2,
            parcel: unit(Some(label(9))),
        },
        Event::Sent {
            number: 2,
            to: 3,
            parcel: unit(None),
        },
        Event::Sent {
            number: u64::MAX,
            to: u32::MAX,
            parcel: Parcel::Give(label(u64::MAX)),
        },
        Event::TookMessage { rank: 5, number: 6 },
        Event::TookTask { rank: 7, number: 8 },
        Event::Handled {
            number: 9,
            rank: 10,
            message: 11,
        },
        Event::Submitted {
            number: 12,
            task: task(0, None),
        },
        Event::Submitted {
            number: 13,
            task: task(2, Some(label(9))),
        },
        Event::Submitted {
            number: 14,
            task: task(16, Some(label(9))),
        },
        Event::Ran {
            number: 15,
            rank: 16,
            task: 17,
        },
        Event::Gave(label(18)),
        Event::Put(NAME),
        Event::Erased(NAME),
        Event::ReadHandled { value, fence, pass },
        Event::ReadRan { value, fence, pass },
        Event::ReadSubmitted { value, fence, pass },
        Event::ReadSent { value, fence, pass },
        Event::Enter(4),
        Event::Leave(5),
        Event::Receipt(receipt(1)),
        Event::Receipt(receipt(16)),
    ]
}

#[test]
fn each_kind_of_event_comes_back(rt: HostRuntime) -> Result<(), Fail> {
    for event in &of_each_kind() {
        let mut trace = LaneTrace::new(rt.alloc());
        assert!(rt; trace.is_empty());
        trace.reserve(&Room::of(event))?;
        trace.push(event);
        assert_eq!(rt; trace.len(), 1);
        assert_eq!(rt; trace.event_at(0), *event);
        let events = trace.to_events(rt.alloc())?;
        assert!(rt; events.as_slice() == [*event].as_slice());
    }
    Ok(())
}

#[test]
fn messages_and_tasks_keep_their_own_units(rt: HostRuntime) -> Result<(), Fail> {
    let mut trace = LaneTrace::new(rt.alloc());
    trace.reserve(&Room::of_any(4))?;
    trace.sent(1, 2, &unit(Some(label(9))));
    trace.submitted(3, label(8), needs(3).labels(), Some(label(9)));
    trace.sent(4, 5, &Parcel::Give(label(10)));
    trace.submitted(6, label(8), &[], None);
    let expected = [
        Event::Sent {
            number: 1,
            to: 2,
            parcel: unit(Some(label(9))),
        },
        Event::Submitted {
            number: 3,
            task: task(3, Some(label(9))),
        },
        Event::Sent {
            number: 4,
            to: 5,
            parcel: Parcel::Give(label(10)),
        },
        Event::Submitted {
            number: 6,
            task: task(0, None),
        },
    ];
    let events = trace.to_events(rt.alloc())?;
    assert!(rt; events.as_slice() == expected.as_slice());
    Ok(())
}

#[test]
fn a_task_is_taken_and_runs(rt: HostRuntime) -> Result<(), Fail> {
    let mut trace = LaneTrace::new(rt.alloc());
    trace.reserve(&Room::of_any(3))?;
    trace.took_task(1, 2);
    trace.gave(label(3));
    trace.ran(4, 1, 2);
    let expected = [
        Event::TookTask { rank: 1, number: 2 },
        Event::Gave(label(3)),
        Event::Ran {
            number: 4,
            rank: 1,
            task: 2,
        },
    ];
    let events = trace.to_events(rt.alloc())?;
    assert!(rt; events.as_slice() == expected.as_slice());
    Ok(())
}

#[test]
fn a_message_is_taken_and_handled(rt: HostRuntime) -> Result<(), Fail> {
    let mut trace = LaneTrace::new(rt.alloc());
    trace.reserve(&Room::of_any(2))?;
    trace.took_message(1, 2);
    trace.handled(3, 1, 2);
    let expected = [
        Event::TookMessage { rank: 1, number: 2 },
        Event::Handled {
            number: 3,
            rank: 1,
            message: 2,
        },
    ];
    let events = trace.to_events(rt.alloc())?;
    assert!(rt; events.as_slice() == expected.as_slice());
    Ok(())
}

#[test]
fn a_fence_with_two_receipts_keeps_their_rows(rt: HostRuntime) -> Result<(), Fail> {
    let mut trace = LaneTrace::new(rt.alloc());
    trace.reserve(&Room::of_any(5))?;
    trace.enter(1);
    trace.receipt(&receipt(3));
    trace.read(Kind::Runs, 1, 2, 3);
    trace.receipt(&receipt(2));
    trace.leave(1);
    let expected = [
        Event::Enter(1),
        Event::Receipt(receipt(3)),
        Event::ReadRan {
            value: 1,
            fence: 2,
            pass: 3,
        },
        Event::Receipt(receipt(2)),
        Event::Leave(1),
    ];
    let events = trace.to_events(rt.alloc())?;
    assert!(rt; events.as_slice() == expected.as_slice());
    Ok(())
}

#[test]
fn entries_are_put_and_erased(rt: HostRuntime) -> Result<(), Fail> {
    let mut trace = LaneTrace::new(rt.alloc());
    trace.reserve(&Room::of_any(2))?;
    trace.put(NAME);
    trace.erased(NAME);
    let events = trace.to_events(rt.alloc())?;
    assert!(rt; events.as_slice() == [Event::Put(NAME), Event::Erased(NAME)].as_slice());
    Ok(())
}

#[test]
fn room_is_asked_for(rt: HostRuntime) -> Result<(), Fail> {
    let mut trace = LaneTrace::new(rt.alloc());
    let none = Room {
        events: 0,
        needs: 0,
        rows: 0,
    };
    assert_eq!(rt; trace.room(), none);
    trace.reserve(&Room::of_any(2))?;
    let room = trace.room();
    assert!(rt; room.events >= 2 && room.needs >= 32 && room.rows >= 32);
    trace.enter(1);
    assert_eq!(rt; trace.room().events + 1, room.events);
    Ok(())
}

fn counted_on_threads<R: Threads + Sync>(rt: &R, one: LaneTrace, two: LaneTrace) -> (usize, usize) {
    thread::join(rt, move || one.len(), move || two.len())
}

#[test]
fn a_trace_is_moved_to_another_thread(rt: HostRuntime) -> Result<(), Fail> {
    let mut trace = LaneTrace::new(rt.alloc());
    trace.reserve(&Room::of_any(2))?;
    trace.enter(1);
    trace.leave(1);
    let counts = counted_on_threads(&rt, trace, LaneTrace::new(rt.alloc()));
    assert_eq!(rt; counts, (2, 0));
    Ok(())
}

// The record of a message that is taken and handled, after room was made for two events.
fn of_a_message(alloc: Global, trace: bool) -> Result<LaneRecord, Fail> {
    let mut record = LaneRecord::new(alloc, trace);
    record.reserve(2)?;
    let message = Some(Item::Message { rank: 1, number: 7 });
    record.took(message);
    if record.spare() == 0 {
        return Err(Fail::from("no room for a second event"));
    }
    record.ended(3, message);
    Ok(record)
}

#[test]
fn a_record_counts_events_and_keeps_them_where_a_trace_is_wanted(
    rt: HostRuntime,
) -> Result<(), Fail> {
    let kept = of_a_message(rt.alloc(), true)?;
    assert_eq!(rt; (kept.made(), kept.spare()), (2, 0));
    let Some(trace) = kept.into_trace() else {
        return Err(Fail::from("no trace"));
    };
    let events = trace.to_events(rt.alloc())?;
    let expected = [
        Event::TookMessage { rank: 1, number: 7 },
        Event::Handled {
            number: 3,
            rank: 1,
            message: 7,
        },
    ];
    assert!(rt; events.as_slice() == expected.as_slice());
    let counted = of_a_message(rt.alloc(), false)?;
    assert_eq!(rt; counted.made(), 2);
    assert!(rt; counted.into_trace().is_none());
    Ok(())
}
