//! The events of a lane, as they are stored, and the room for more.
ghost use Rattle.std.specs.Prelude.{◌≡◌, ◌≤◌, ◌<◌, [], ◌∷◌, length, reverse, slice_get, Some, IfOk, IsOk, IsTrue, ◌↔◌, OnOk, OnErr};
ghost use Rattle.app_core.specs.Needs.{AreDistinct, max_needs};
ghost use Rattle.event_lists.specs.declared.event.Event.TheVariants as event;
ghost use Rattle.event_lists.specs.declared.event.Parcel.TheVariants as parcel;
ghost use Rattle.event_lists.specs.OwnEvents.{reading_event};
ghost use Rattle.lane_trace.specs.Traces.{HasRoomFor, room_after, IsWithin, joined_room, no_room};

use crate::OutOfMemory;
use crate::room::Room;
use crate::stored_event::{StoredEvent, UnitName, add_needs, add_rows, event_of};
use app_core::{CellName, Label};
use event_lists::{Event, Kind, Parcel, Receipt, Row, TaskName};
use std::alloc::Global;
use std::marker::Model;

/// The events of a lane. Contracts see the list of them, the newest first, and the room that is left for more.
#[derive(Drop)]
pub struct LaneTrace {
    entries: Vec<StoredEvent>,
    units: Vec<UnitName>,
    needs: Vec<Label>,
    rows: Vec<Row>,
    room: Room,
}

impl Model for LaneTrace {
    ghost use Rattle.std.specs.Prelude.{◌+◌, ◌≤◌, vec_len, vec_capacity};
    ghost use Rattle.lane_trace.specs.Traces.{TraceData};
    ghost use Rattle.lane_trace.specs.StoredEvents.{stored_events, AreStored};

    ghost Value = { TraceData };

    ghost view = { λ t. record {
      events = stored_events (record { units = t.units.items; needs = t.needs.items; rows = t.rows.items }) t.entries.items;
      room = t.room;
    } };

    ghost invariant = { λ t. record {
      stored : AreStored (record { units = t.units.items; needs = t.needs.items; rows = t.rows.items }) t.entries.items;
      entries : vec_len t.entries + t.room.events ≤ vec_capacity t.entries;
      units : vec_len t.units + t.room.events ≤ vec_capacity t.units;
      needs : vec_len t.needs + t.room.needs ≤ vec_capacity t.needs;
      rows : vec_len t.rows + t.room.rows ≤ vec_capacity t.rows;
    } };
}

impl LaneTrace {
    /// No events, and room for none. It takes no memory yet; `alloc` is where it will come from.
    pub fn new(alloc: Global) -> LaneTrace
        ensures events { result.events ≡ [] }
        ensures room { result.room ≡ no_room }
    {
        LaneTrace {
            entries: Vec::new(alloc),
            units: Vec::new(alloc),
            needs: Vec::new(alloc),
            rows: Vec::new(alloc),
            room: Room {
                events: 0,
                needs: 0,
                rows: 0,
            },
        }
    }

    /// Makes room for so much more than what is there. The events stay, and no room gets lost. `OutOfMemory` is returned
    /// only where the room isn't there yet; then nothing changes.
    pub fn reserve(&mut self, room: &Room) -> Result<(), OutOfMemory>
        ensures events { self.new.events ≡ self.old.events }
        ensures made { OnOk result (self.new.room ≡ joined_room self.old.room room.now) }
        ensures room { OnOk result (IsWithin room.now self.new.room) }
        ensures refused { OnErr result (self.new ≡ self.old) }
        ensures there { IsWithin room.now self.old.room → IsOk result }
    {
        self.entries.reserve(room.events)?;
        self.units.reserve(room.events)?;
        self.needs.reserve(room.needs)?;
        self.rows.reserve(room.rows)?;
        self.room = Room {
            events: self.room.events.max(room.events),
            needs: self.room.needs.max(room.needs),
            rows: self.room.rows.max(room.rows),
        };
        Ok(())
    }

    /// How many events there are.
    pub fn len(&self) -> usize
        ensures { result ≡ length self.now.events }
    {
        self.entries.len()
    }

    /// Whether there are none.
    pub fn is_empty(&self) -> bool
        ensures { IsTrue result ↔ (self.now.events ≡ []) }
    {
        self.entries.is_empty()
    }

    /// The room that is left.
    pub fn room(&self) -> Room
        ensures { result ≡ self.now.room }
    {
        self.room
    }

    /// Message `number` of this rank, to rank `to`.
    #[inline(always)]
    pub fn sent(&mut self, number: u64, to: u32, parcel: &Parcel)
        requires { HasRoomFor (event.Sent number to parcel.now) self.old.room }
        ensures events { self.new.events ≡ event.Sent number to parcel.now ∷ self.old.events }
        ensures room { self.new.room ≡ room_after (event.Sent number to parcel.now) self.old.room }
    {
        match parcel {
            Parcel::Unit { unit, due } => self.sent_unit(number, to, *unit, *due),
            Parcel::Give(future) => self.sent_give(number, to, *future),
        }
    }

    // Message `number` of this rank, to rank `to`, with a unit and its due.
    #[inline(always)]
    fn sent_unit(&mut self, number: u64, to: u32, unit: Label, due: Option<Label>)
        requires { HasRoomFor (event.Sent number to (parcel.Unit unit due)) self.old.room }
        ensures events { self.new.events ≡ event.Sent number to (parcel.Unit unit due) ∷ self.old.events }
        ensures room { self.new.room ≡ room_after (event.Sent number to (parcel.Unit unit due)) self.old.room }
    {
        self.entries.push_reserved(StoredEvent::SentUnit {
            number,
            unit: self.units.len(),
            to,
        });
        self.units.push_reserved(UnitName { unit, due });
        self.room.events -= 1;
    }

    // Message `number` of this rank, to rank `to`, with a value for a future.
    #[inline(always)]
    fn sent_give(&mut self, number: u64, to: u32, future: Label)
        requires { HasRoomFor (event.Sent number to (parcel.Give future)) self.old.room }
        ensures events { self.new.events ≡ event.Sent number to (parcel.Give future) ∷ self.old.events }
        ensures room { self.new.room ≡ room_after (event.Sent number to (parcel.Give future)) self.old.room }
    {
        self.entries
            .push_reserved(StoredEvent::SentGive { number, future, to });
        self.room.events -= 1;
    }

    /// Message `number` of rank `rank` is in this lane's hand.
    #[inline(always)]
    pub fn took_message(&mut self, rank: u32, number: u64)
        requires { HasRoomFor (event.TookMessage rank number) self.old.room }
        ensures events { self.new.events ≡ event.TookMessage rank number ∷ self.old.events }
        ensures room { self.new.room ≡ room_after (event.TookMessage rank number) self.old.room }
    {
        self.entries
            .push_reserved(StoredEvent::TookMessage { rank, number });
        self.room.events -= 1;
    }

    /// Task `number` of rank `rank` is in this lane's hand.
    #[inline(always)]
    pub fn took_task(&mut self, rank: u32, number: u64)
        requires { HasRoomFor (event.TookTask rank number) self.old.room }
        ensures events { self.new.events ≡ event.TookTask rank number ∷ self.old.events }
        ensures room { self.new.room ≡ room_after (event.TookTask rank number) self.old.room }
    {
        self.entries
            .push_reserved(StoredEvent::TookTask { rank, number });
        self.room.events -= 1;
    }

    /// Handling `number` of this rank: message `message` of rank `rank`.
    #[inline(always)]
    pub fn handled(&mut self, number: u64, rank: u32, message: u64)
        requires { HasRoomFor (event.Handled number rank message) self.old.room }
        ensures events { self.new.events ≡ event.Handled number rank message ∷ self.old.events }
        ensures room { self.new.room ≡ room_after (event.Handled number rank message) self.old.room }
    {
        self.entries.push_reserved(StoredEvent::Handled {
            number,
            rank,
            message,
        });
        self.room.events -= 1;
    }

    /// Submission `number` of this rank: a task of this unit, with these needs and this due.
    #[inline(always)]
    pub fn submitted(&mut self, number: u64, unit: Label, needs: &[Label], due: Option<Label>)
        requires room { HasRoomFor (event.Submitted number (record { unit = unit; needs = needs.now; due = due })) self.old.room }
        requires few { length needs.now ≤ max_needs }
        requires distinct { AreDistinct needs.now }
        ensures events { self.new.events ≡ event.Submitted number (record { unit = unit; needs = needs.now; due = due }) ∷ self.old.events }
        ensures room { self.new.room ≡ room_after (event.Submitted number (record { unit = unit; needs = needs.now; due = due })) self.old.room }
    {
        self.entries.push_reserved(StoredEvent::Submitted {
            number,
            unit: self.units.len(),
            needs: self.needs.len(),
            count: needs.len() as u8,
        });
        self.units.push_reserved(UnitName { unit, due });
        add_needs(&mut self.needs, needs);
        self.room.events -= 1;
        self.room.needs -= needs.len();
    }

    /// Run `number` of this rank: task `task` of rank `rank`.
    #[inline(always)]
    pub fn ran(&mut self, number: u64, rank: u32, task: u64)
        requires { HasRoomFor (event.Ran number rank task) self.old.room }
        ensures events { self.new.events ≡ event.Ran number rank task ∷ self.old.events }
        ensures room { self.new.room ≡ room_after (event.Ran number rank task) self.old.room }
    {
        self.entries
            .push_reserved(StoredEvent::Ran { number, rank, task });
        self.room.events -= 1;
    }

    /// The future of this label has its value.
    #[inline(always)]
    pub fn gave(&mut self, future: Label)
        requires { HasRoomFor (event.Gave future) self.old.room }
        ensures events { self.new.events ≡ event.Gave future ∷ self.old.events }
        ensures room { self.new.room ≡ room_after (event.Gave future) self.old.room }
    {
        self.entries.push_reserved(StoredEvent::Gave(future));
        self.room.events -= 1;
    }

    /// The entry of this name was put, on a bin's lane.
    #[inline(always)]
    pub fn put(&mut self, name: CellName)
        requires { HasRoomFor (event.Put name) self.old.room }
        ensures events { self.new.events ≡ event.Put name ∷ self.old.events }
        ensures room { self.new.room ≡ room_after (event.Put name) self.old.room }
    {
        self.entries.push_reserved(StoredEvent::Put(name));
        self.room.events -= 1;
    }

    /// The entry of this name was taken out, on a bin's lane.
    #[inline(always)]
    pub fn erased(&mut self, name: CellName)
        requires { HasRoomFor (event.Erased name) self.old.room }
        ensures events { self.new.events ≡ event.Erased name ∷ self.old.events }
        ensures room { self.new.room ≡ room_after (event.Erased name) self.old.room }
    {
        self.entries.push_reserved(StoredEvent::Erased(name));
        self.room.events -= 1;
    }

    /// The count of this kind of this rank was read, for pass `pass` of fence `fence`: it was `value`.
    #[inline(always)]
    pub fn read(&mut self, kind: Kind, value: u64, fence: u32, pass: u64)
        requires { HasRoomFor (reading_event kind value fence pass) self.old.room }
        ensures events { self.new.events ≡ reading_event kind value fence pass ∷ self.old.events }
        ensures room { self.new.room ≡ room_after (reading_event kind value fence pass) self.old.room }
    {
        let stored = match kind {
            Kind::Sends => StoredEvent::ReadSent { value, fence, pass },
            Kind::Handlings => StoredEvent::ReadHandled { value, fence, pass },
            Kind::Submissions => StoredEvent::ReadSubmitted { value, fence, pass },
            Kind::Runs => StoredEvent::ReadRan { value, fence, pass },
        };
        self.entries.push_reserved(stored);
        self.room.events -= 1;
    }

    /// This rank's main entered the fence of this number.
    #[inline(always)]
    pub fn enter(&mut self, fence: u32)
        requires { HasRoomFor (event.Enter fence) self.old.room }
        ensures events { self.new.events ≡ event.Enter fence ∷ self.old.events }
        ensures room { self.new.room ≡ room_after (event.Enter fence) self.old.room }
    {
        self.entries.push_reserved(StoredEvent::Enter(fence));
        self.room.events -= 1;
    }

    /// This rank's main left the fence of this number.
    #[inline(always)]
    pub fn leave(&mut self, fence: u32)
        requires { HasRoomFor (event.Leave fence) self.old.room }
        ensures events { self.new.events ≡ event.Leave fence ∷ self.old.events }
        ensures room { self.new.room ≡ room_after (event.Leave fence) self.old.room }
    {
        self.entries.push_reserved(StoredEvent::Leave(fence));
        self.room.events -= 1;
    }

    /// The receipt of a fence.
    #[inline(always)]
    pub fn receipt(&mut self, receipt: &Receipt)
        requires { HasRoomFor (event.Receipt receipt.now) self.old.room }
        ensures events { self.new.events ≡ event.Receipt receipt.now ∷ self.old.events }
        ensures room { self.new.room ≡ room_after (event.Receipt receipt.now) self.old.room }
    {
        let count = receipt.rows.len();
        self.entries.push_reserved(StoredEvent::Receipt {
            pass: receipt.pass,
            rows: self.rows.len(),
            fence: receipt.fence,
            count: count as u8,
        });
        add_rows(&mut self.rows, receipt.rows.rows());
        self.room.events -= 1;
        self.room.rows -= count;
    }

    /// An event of any kind.
    pub fn push(&mut self, event: &Event)
        requires { HasRoomFor event.now self.old.room }
        ensures events { self.new.events ≡ event.now ∷ self.old.events }
        ensures room { self.new.room ≡ room_after event.now self.old.room }
    {
        match event {
            Event::Sent { number, to, parcel } => self.sent(*number, *to, parcel),
            Event::TookMessage { rank, number } => self.took_message(*rank, *number),
            Event::TookTask { rank, number } => self.took_task(*rank, *number),
            Event::Handled {
                number,
                rank,
                message,
            } => self.handled(*number, *rank, *message),
            Event::Submitted { number, task } => self.submitted_task(*number, task),
            Event::Ran { number, rank, task } => self.ran(*number, *rank, *task),
            Event::Gave(future) => self.gave(*future),
            Event::Put(name) => self.put(*name),
            Event::Erased(name) => self.erased(*name),
            Event::ReadHandled { value, fence, pass } => self.read(
                Kind::Handlings,
                *value,
                *fence,
                *pass,
            ),
            Event::ReadRan { value, fence, pass } => self.read(Kind::Runs, *value, *fence, *pass),
            Event::ReadSubmitted { value, fence, pass } => self.read(
                Kind::Submissions,
                *value,
                *fence,
                *pass,
            ),
            Event::ReadSent { value, fence, pass } => self.read(Kind::Sends, *value, *fence, *pass),
            Event::Enter(fence) => self.enter(*fence),
            Event::Leave(fence) => self.leave(*fence),
            Event::Receipt(receipt) => self.receipt(receipt),
        }
    }

    // Submission `number` of this rank: this task.
    fn submitted_task(&mut self, number: u64, task: &TaskName)
        requires { HasRoomFor (event.Submitted number task.now) self.old.room }
        ensures events { self.new.events ≡ event.Submitted number task.now ∷ self.old.events }
        ensures room { self.new.room ≡ room_after (event.Submitted number task.now) self.old.room }
    {
        let _ = task.needs.len();
        self.submitted(number, task.unit, task.needs.labels(), task.due);
    }

    /// The event at an index, from 0 for the oldest.
    pub fn event_at(&self, index: usize) -> Event
        requires { index < length self.now.events }
        ensures { slice_get (reverse self.now.events) index ≡ Some result }
    {
        event_of(&self.entries[index], &self.units, &self.needs, &self.rows)
    }

    /// All events, the oldest first.
    pub fn to_events(&self, alloc: Global) -> Result<Vec<Event>, OutOfMemory>
        ensures { IfOk result (λ es. es.items ≡ reverse self.now.events) }
    {
        let mut events = Vec::with_capacity(alloc, self.entries.len())?;
        for stored in &self.entries {
            events.push_reserved(event_of(stored, &self.units, &self.needs, &self.rows));
        }
        Ok(events)
    }
}
