//! The events of a job of four ranks with one worker each, in rounds of one shape.
//!
//! In a round rank 0 submits three tasks, and sends a unit to each other rank. The second task needs a value that the
//! first gives, and the third needs the values that the other ranks send back. A fence ends the round.
use crate::offers::Step;
use app_core::{CellName, Label, Needs};
use event_lists::{Event, LaneName, Parcel, Receipt, Row, Rows, TaskName};
use std::alloc::Global;
use std::test::Fail;

pub const RANKS: u32 = 4;

pub const WORKERS: u32 = 1;

/// How many events a round has.
pub const EVENTS: usize = 84;

/// The lane of a hand: 0 is the main, and 1 the worker.
pub const fn hand(rank: u32, number: u32) -> LaneName {
    LaneName {
        rank,
        bin: false,
        number,
    }
}

/// The lane of a bin of rank 0.
pub const fn bin(number: u32) -> LaneName {
    LaneName {
        rank: 0,
        bin: true,
        number,
    }
}

/// The fence that ends a round, whose number is that of the command in its labels too.
pub fn fence(round: u16) -> u32 {
    u32::from(round) + 1
}

/// The entry that a round puts and erases.
pub fn entry(round: u16) -> CellName {
    CellName {
        version: fence(round),
        place: 3,
    }
}

// What rank 0 numbers in threes: messages, handlings, tasks and runs. The parts are 0, 1 and 2.
fn third(round: u16, part: u8) -> u64 {
    3 * u64::from(round) + u64::from(part)
}

fn label(round: u16, place: u8) -> Label {
    Label {
        command: fence(round),
        part: 0,
        place: u64::from(place),
    }
}

fn submitted(number: u64, unit: Label, needs: Needs, due: Option<Label>) -> Event {
    Event::Submitted {
        number,
        task: TaskName { unit, needs, due },
    }
}

// The message with the unit of another rank: 1, 2 or 3.
fn sent(round: u16, rank: u8) -> Event {
    Event::Sent {
        number: third(round, rank.saturating_sub(1)),
        to: u32::from(rank),
        parcel: Parcel::Unit {
            unit: label(round, rank.saturating_add(110)),
            due: Some(label(round, rank.saturating_add(10))),
        },
    }
}

// What rank 0's main submits and sends.
fn spawns(round: u16) -> [Event; 6] {
    let given = [label(round, 11), label(round, 12), label(round, 13)];
    let one = Needs::of(&[label(round, 1)]).unwrap_or(Needs::none());
    let three = Needs::of(&given).unwrap_or(Needs::none());
    let first = Some(label(round, 1));
    let second = Some(label(round, 2));
    [
        submitted(third(round, 0), label(round, 101), Needs::none(), first),
        submitted(third(round, 1), label(round, 102), one, second),
        sent(round, 1),
        sent(round, 2),
        sent(round, 3),
        submitted(third(round, 2), label(round, 103), three, None),
    ]
}

// Rank 0's worker takes one of its tasks, gives the value that is its due, if it has one, and ends it.
fn runs(round: u16, part: u8, due: Option<u8>, steps: &mut Vec<Step>) -> Result<(), Fail> {
    let worker = hand(0, 1);
    let (number, rank) = (third(round, part), 0);
    steps.push((worker, Event::TookTask { rank, number }))?;
    if let Some(place) = due {
        steps.push((worker, Event::Gave(label(round, place))))?;
    }
    steps.push((
        worker,
        Event::Ran {
            number,
            rank,
            task: number,
        },
    ))?;
    Ok(())
}

// What the worker of another rank does: it takes the message, submits its unit, runs it, and sends the value back.
fn unit(round: u16, rank: u8) -> [Event; 6] {
    let number = u64::from(round);
    let message = third(round, rank.saturating_sub(1));
    let due = label(round, rank.saturating_add(10));
    let name = label(round, rank.saturating_add(110));
    let from = u32::from(rank);
    [
        Event::TookMessage {
            rank: 0,
            number: message,
        },
        submitted(number, name, Needs::none(), Some(due)),
        Event::Handled {
            number,
            rank: 0,
            message,
        },
        Event::TookTask { rank: from, number },
        Event::Sent {
            number,
            to: 0,
            parcel: Parcel::Give(due),
        },
        Event::Ran {
            number,
            rank: from,
            task: number,
        },
    ]
}

// What rank 0's worker does with the value from another rank.
fn value(round: u16, rank: u8) -> [Event; 3] {
    let number = u64::from(round);
    let from = u32::from(rank);
    [
        Event::TookMessage { rank: from, number },
        Event::Gave(label(round, rank.saturating_add(10))),
        Event::Handled {
            number: third(round, rank.saturating_sub(1)),
            rank: from,
            message: number,
        },
    ]
}

// Each of the four counts of a rank at the end of a round.
fn count(round: u16, rank: u32) -> u64 {
    let rounds = u64::from(round) + 1;
    if rank == 0 { 3 * rounds } else { rounds }
}

// A pass at a rank.
fn readings(round: u16, rank: u32, pass: u64) -> [Event; 4] {
    let (value, fence) = (count(round, rank), fence(round));
    [
        Event::ReadHandled { value, fence, pass },
        Event::ReadRan { value, fence, pass },
        Event::ReadSubmitted { value, fence, pass },
        Event::ReadSent { value, fence, pass },
    ]
}

fn row(round: u16, rank: u32) -> Row {
    let count = count(round, rank);
    Row {
        sent: count,
        handled: count,
        tasks: count,
    }
}

/// The rows of a round's receipt.
pub fn rows(round: u16) -> [Row; 4] {
    [row(round, 0), row(round, 1), row(round, 2), row(round, 3)]
}

/// A receipt of a round, with these rows.
pub fn receipt(round: u16, rows: &[Row; 4]) -> Event {
    Event::Receipt(Receipt {
        fence: fence(round),
        pass: 2,
        rows: Rows::of(rows).unwrap(),
    })
}

// Adds events of one lane.
fn extend(steps: &mut Vec<Step>, lane: LaneName, events: &[Event]) -> Result<(), Fail> {
    for event in events {
        steps.push((lane, *event))?;
    }
    Ok(())
}

// What is done in a round before its passes, and all mains enter its fence meanwhile.
fn work(round: u16, steps: &mut Vec<Step>) -> Result<(), Fail> {
    extend(steps, hand(0, 0), &spawns(round))?;
    for rank in 0..RANKS {
        steps.push((hand(rank, 0), Event::Enter(fence(round))))?;
    }
    runs(round, 0, Some(1), steps)?;
    runs(round, 1, Some(2), steps)?;
    extend(
        steps,
        bin(3),
        &[Event::Put(entry(round)), Event::Erased(entry(round))],
    )?;
    for rank in 1..4u8 {
        extend(steps, hand(u32::from(rank), 1), &unit(round, rank))?;
        extend(steps, hand(0, 1), &value(round, rank))?;
    }
    runs(round, 2, None, steps)
}

// Two passes, the receipt, and all mains leave the fence.
fn end(round: u16, steps: &mut Vec<Step>) -> Result<(), Fail> {
    for pass in [1, 2] {
        for rank in 0..RANKS {
            extend(steps, hand(rank, 0), &readings(round, rank, pass))?;
        }
    }
    steps.push((hand(0, 0), receipt(round, &rows(round))))?;
    for rank in 0..RANKS {
        steps.push((hand(rank, 0), Event::Leave(fence(round))))?;
    }
    Ok(())
}

/// The events of a round, in an order in which they are legal after the rounds before.
pub fn events(alloc: Global, round: u16) -> Result<Vec<Step>, Fail> {
    let mut steps = Vec::new(alloc);
    work(round, &mut steps)?;
    end(round, &mut steps)?;
    Ok(steps)
}

/// How rank 0's worker may end a message or a task of a round, in every order.
pub fn ends(alloc: Global, round: u16) -> Result<Vec<Step>, Fail> {
    let mut steps = Vec::new(alloc);
    for place in 0..9u8 {
        let number = third(round, place / 3);
        let other = place % 3;
        let handled = Event::Handled {
            number,
            rank: u32::from(other) + 1,
            message: u64::from(round),
        };
        let ran = Event::Ran {
            number,
            rank: 0,
            task: third(round, other),
        };
        extend(&mut steps, hand(0, 1), &[handled, ran])?;
    }
    Ok(steps)
}
