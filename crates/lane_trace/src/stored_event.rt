//! Events as they are stored: units, needs and rows are in lists beside them.
ghost use Rattle.std.specs.Prelude.{◌≡◌, ◌≤◌, ◌<◌, ◌+◌, ◌++◌, length, vec_len, vec_capacity};
ghost use Rattle.app_core.specs.Needs.{AreDistinct, max_needs};
ghost use Rattle.event_lists.specs.Rows.{max_ranks};
ghost use Rattle.lane_trace.specs.StoredEvents.{stored_event, IsStored, needs_at, rows_at, task_of};

use app_core::{CellName, Label, Needs};
use event_lists::{Event, Parcel, Receipt, Row, Rows, TaskName};

/// The unit of a message or of a task, with its due.
#[derive(Clone, Copy)]
pub(crate) struct UnitName {
    pub(crate) unit: Label,
    pub(crate) due: Option<Label>,
}

/// An event without the unit of its message or task, the needs of its task, and the rows of its receipt.
///
/// `unit`, `needs` and `rows` are indexes in the lists beside it: of the unit, of the first need, of the first row.
/// `count` is how many needs or rows there are. Fields are laid out in their order: these are small in it.
#[derive(Clone, Copy)]
pub(crate) enum StoredEvent {
    SentUnit {
        number: u64,
        unit: usize,
        to: u32,
    },
    SentGive {
        number: u64,
        future: Label,
        to: u32,
    },
    TookMessage {
        rank: u32,
        number: u64,
    },
    TookTask {
        rank: u32,
        number: u64,
    },
    Handled {
        number: u64,
        rank: u32,
        message: u64,
    },
    Submitted {
        number: u64,
        unit: usize,
        needs: usize,
        count: u8,
    },
    Ran {
        number: u64,
        rank: u32,
        task: u64,
    },
    Gave(Label),
    Put(CellName),
    Erased(CellName),
    ReadHandled {
        value: u64,
        fence: u32,
        pass: u64,
    },
    ReadRan {
        value: u64,
        fence: u32,
        pass: u64,
    },
    ReadSubmitted {
        value: u64,
        fence: u32,
        pass: u64,
    },
    ReadSent {
        value: u64,
        fence: u32,
        pass: u64,
    },
    Enter(u32),
    Leave(u32),
    Receipt {
        pass: u64,
        rows: usize,
        fence: u32,
        count: u8,
    },
}

/// Adds the needs, in order.
#[inline(always)]
pub(crate) fn add_needs(all: &mut Vec<Label>, needs: &[Label])
    requires { vec_len all.old + length needs.now ≤ vec_capacity all.old }
    ensures items { all.new.items ≡ all.old.items ++ needs.now }
    ensures len { vec_len all.new ≡ vec_len all.old + length needs.now }
    ensures capacity { vec_capacity all.new ≡ vec_capacity all.old }
{
    for need in needs {
        all.push_reserved(*need);
    }
}

/// Adds the rows, in order.
#[inline(always)]
pub(crate) fn add_rows(all: &mut Vec<Row>, rows: &[Row])
    requires { vec_len all.old + length rows.now ≤ vec_capacity all.old }
    ensures items { all.new.items ≡ all.old.items ++ rows.now }
    ensures len { vec_len all.new ≡ vec_len all.old + length rows.now }
    ensures capacity { vec_capacity all.new ≡ vec_capacity all.old }
{
    for row in rows {
        all.push_reserved(*row);
    }
}

/// The event that is stored beside these units, needs and rows.
pub(crate) fn event_of(
    stored: &StoredEvent,
    units: &[UnitName],
    needs: &[Label],
    rows: &[Row],
) -> Event
    requires { IsStored (record { units = units.now; needs = needs.now; rows = rows.now }) stored.now }
    ensures { result ≡ stored_event (record { units = units.now; needs = needs.now; rows = rows.now }) stored.now }
{
    match *stored {
        StoredEvent::SentUnit { number, unit, to } => Event::Sent {
            number,
            to,
            parcel: Parcel::Unit {
                unit: units[unit].unit,
                due: units[unit].due,
            },
        },
        StoredEvent::SentGive { number, future, to } => Event::Sent {
            number,
            to,
            parcel: Parcel::Give(future),
        },
        StoredEvent::TookMessage { rank, number } => Event::TookMessage { rank, number },
        StoredEvent::TookTask { rank, number } => Event::TookTask { rank, number },
        StoredEvent::Handled {
            number,
            rank,
            message,
        } => Event::Handled {
            number,
            rank,
            message,
        },
        StoredEvent::Submitted {
            number,
            unit,
            needs: first,
            count,
        } => Event::Submitted {
            number,
            task: task_from(&units[unit], needs, first, count),
        },
        StoredEvent::Ran { number, rank, task } => Event::Ran { number, rank, task },
        StoredEvent::Gave(future) => Event::Gave(future),
        StoredEvent::Put(name) => Event::Put(name),
        StoredEvent::Erased(name) => Event::Erased(name),
        StoredEvent::ReadHandled { value, fence, pass } => Event::ReadHandled {
            value,
            fence,
            pass,
        },
        StoredEvent::ReadRan { value, fence, pass } => Event::ReadRan { value, fence, pass },
        StoredEvent::ReadSubmitted { value, fence, pass } => Event::ReadSubmitted {
            value,
            fence,
            pass,
        },
        StoredEvent::ReadSent { value, fence, pass } => Event::ReadSent { value, fence, pass },
        StoredEvent::Enter(fence) => Event::Enter(fence),
        StoredEvent::Leave(fence) => Event::Leave(fence),
        StoredEvent::Receipt {
            pass,
            rows: first,
            fence,
            count,
        } => Event::Receipt(Receipt {
            fence,
            pass,
            rows: rows_from(rows, first, count),
        }),
    }
}

// The task of a unit, with so many needs from an index on.
fn task_from(unit: &UnitName, needs: &[Label], first: usize, count: u8) -> TaskName
    requires within { first + count ≤ length needs.now }
    requires few { count ≤ max_needs }
    requires distinct { AreDistinct (needs_at needs.now first count) }
    ensures { result ≡ task_of unit.now (needs_at needs.now first count) }
{
    let rest = &needs[first..];
    let Some(needs) = Needs::of(&rest[..usize::from(count)]) else {
        unreachable!();
    };
    TaskName {
        unit: unit.unit,
        needs,
        due: unit.due,
    }
}

// So many rows, from an index on.
fn rows_from(rows: &[Row], first: usize, count: u8) -> Rows
    requires within { first + count ≤ length rows.now }
    requires few { count ≤ max_ranks }
    ensures { result ≡ rows_at rows.now first count }
{
    let rest = &rows[first..];
    let Some(rows) = Rows::of(&rest[..usize::from(count)]) else {
        unreachable!();
    };
    rows
}
