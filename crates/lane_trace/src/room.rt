//! Room for events that aren't there yet.
ghost use Rattle.std.specs.Prelude.{◌≡◌};
ghost use Rattle.lane_trace.specs.Traces.{room_of, room_of_any, AnyEventFits};

use event_lists::Event;

/// Room in a trace: for so many events, for needs of their tasks, and for rows of their receipts.
#[derive(Clone, Copy, Debug, PartialEq, Eq)]
pub struct Room {
    pub events: usize,
    pub needs: usize,
    pub rows: usize,
}

impl Room {
    /// The room that an event takes.
    pub fn of(event: &Event) -> Room
        ensures { result ≡ room_of event.now }
    {
        let (needs, rows) = match event {
            Event::Submitted { number: _, task } => (task.needs.len(), 0),
            Event::Receipt(receipt) => (0, receipt.rows.len()),
            _ => (0, 0),
        };
        Room {
            events: 1,
            needs,
            rows,
        }
    }

    /// Room for so many events, of whatever kind: 16 needs and 16 rows for each.
    pub fn of_any(events: u32) -> Room
        ensures { result ≡ room_of_any events }
    {
        let events = events as usize;
        Room {
            events,
            needs: 16 * events,
            rows: 16 * events,
        }
    }
}

/// Where there is room for one more event than a number of them, of whatever kind, there is room for each event with at
/// most 16 needs or rows, and after it for that number.
pub fn any_event_fits()
    ensures { AnyEventFits }
{}
