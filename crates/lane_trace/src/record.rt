//! What a lane counts of its events, and keeps of them where a trace is wanted.
ghost use Rattle.std.specs.Prelude.{◌≡◌, ◌≤◌, ◌<◌, ◌+◌, ◌↔◌, ◌^◌, length, max, true, false, Err, Some, None, IsOk, IsSome, OnOk, OnErr};
ghost use Rattle.app_core.specs.Needs.{AreDistinct, max_needs};
ghost use Rattle.event_lists.specs.declared.event.Event.TheVariants as event;
ghost use Rattle.event_lists.specs.declared.mark.Item.{Item as ItemData};
ghost use Rattle.event_lists.specs.OwnEvents.{reading_event};
ghost use Rattle.lane_trace.specs.declared.record.ReserveError.TheVariants as refusal;
ghost use Rattle.lane_trace.specs.Records.{event_limit, new_record, recorded, taking, ending, kept_events};

use crate::room::Room;
use crate::trace::LaneTrace;
use app_core::{CellName, Label};
use event_lists::{Item, Kind, Parcel, Receipt};
use std::alloc::Global;
use std::marker::Model;
use thiserror::Error;

/// The most events of a lane.
const MAX_EVENTS: u64 = 1 << 48;

/// Why there is no room for more events of a lane.
#[derive(Clone, Copy, Debug, PartialEq, Eq, Error)]
pub enum ReserveError {
    /// No memory is left for its trace.
    #[error("out of memory")]
    OutOfMemory,

    /// The lane would have more than 2^48 events.
    #[error("a lane has too many events")]
    Worn,
}

/// How many events a lane made and how many more there is room for, and the events themselves where a trace is kept.
#[derive(Drop)]
pub struct LaneRecord {
    made: u64,
    spare: u64,
    trace: Option<LaneTrace>,
}

impl Model for LaneRecord {
    ghost use Rattle.std.specs.Prelude.{◌+◌, ◌≤◌};
    ghost use Rattle.lane_trace.specs.Records.{RecordData, event_limit, is_kept, kept_events, FitsAny};

    ghost Value = { RecordData };

    ghost view = { λ r. record { kept = is_kept r.trace; events = kept_events r.trace; made = r.made; spare = r.spare } };

    ghost invariant = { λ r. (r.made + r.spare ≤ event_limit) × FitsAny r.spare r.trace };
}

impl LaneRecord {
    /// No events, and room for none. With `trace` it is to keep the events, in memory that is to come from `alloc`; it
    /// takes none yet.
    pub fn new(alloc: Global, trace: bool) -> LaneRecord
        ensures { result ≡ new_record trace }
    {
        let trace = if trace {
            Some(LaneTrace::new(alloc))
        } else {
            None
        };
        LaneRecord {
            made: 0,
            spare: 0,
            trace,
        }
    }

    /// Makes room for this many events.
    ///
    /// # Errors
    ///
    /// `Worn` exactly where they were more than 2^48 with those that the lane made; `OutOfMemory` only where a trace is
    /// kept. Then nothing changes.
    pub fn reserve(&mut self, count: u32) -> Result<(), ReserveError>
        ensures room { OnOk result (self.new ≡ record self.old { spare = max self.old.spare count }) }
        ensures limit { self.new.made + self.new.spare ≤ event_limit }
        ensures worn { (result ≡ Err refusal.Worn) ↔ (event_limit < self.old.made + count) }
        ensures memory { result ≡ Err refusal.OutOfMemory → self.old.kept ≡ true }
        ensures there { count ≤ self.old.spare → IsOk result }
        ensures refused { OnErr result (self.new ≡ self.old) }
    {
        if self.made + count as u64 > MAX_EVENTS {
            return Err(ReserveError::Worn);
        }
        if let Some(trace) = &mut self.trace {
            match trace.reserve(&Room::of_any(count)) {
                Ok(()) => {}
                Err(_) => return Err(ReserveError::OutOfMemory),
            }
        }
        self.spare = self.spare.max(count as u64);
        Ok(())
    }

    /// How many events the lane made.
    pub fn made(&self) -> u64
        ensures { result ≡ self.now.made }
    {
        self.made
    }

    /// How many more there is room for.
    pub fn spare(&self) -> u64
        ensures spare { result ≡ self.now.spare }
        ensures limit { self.now.made + self.now.spare ≤ event_limit }
    {
        self.spare
    }

    /// The trace, where one was kept.
    pub fn into_trace(self) -> Option<LaneTrace>
        ensures none { result ≡ None → self.kept ≡ false }
        ensures some { (t : _) → result ≡ Some t → (self.kept ≡ true) × (t.events ≡ self.events) }
    {
        self.trace
    }

    /// Message `number` of this rank, to rank `to`.
    #[inline(always)]
    pub fn sent(&mut self, number: u64, to: u32, parcel: &Parcel)
        requires { 0 < self.old.spare }
        ensures { self.new ≡ recorded (event.Sent number to parcel.now) self.old }
    {
        self.made += 1;
        self.spare -= 1;
        if let Some(trace) = &mut self.trace {
            trace.sent(number, to, parcel);
        }
    }

    /// This message or task is in the lane's hand.
    #[inline(always)]
    pub fn took(&mut self, item: Option<Item>)
        requires room { 0 < self.old.spare }
        requires item { IsSome item }
        ensures { (c : ItemData) → item ≡ Some c → self.new ≡ recorded (taking c) self.old }
    {
        self.made += 1;
        self.spare -= 1;
        if let Some(trace) = &mut self.trace {
            match item {
                Some(Item::Message { rank, number }) => trace.took_message(rank, number),
                Some(Item::Task { rank, number }) => trace.took_task(rank, number),
                None => {}
            }
        }
    }

    /// Handling or run `number` of this rank: of the message or task that was in hand.
    #[inline(always)]
    pub fn ended(&mut self, number: u64, item: Option<Item>)
        requires room { 0 < self.old.spare }
        requires item { IsSome item }
        ensures { (c : ItemData) → item ≡ Some c → self.new ≡ recorded (ending number c) self.old }
    {
        self.made += 1;
        self.spare -= 1;
        if let Some(trace) = &mut self.trace {
            match item {
                Some(
                    Item::Message {
                        rank,
                        number: message,
                    },
                ) => trace.handled(number, rank, message),
                Some(Item::Task { rank, number: task }) => trace.ran(number, rank, task),
                None => {}
            }
        }
    }

    /// Submission `number` of this rank: a task of this unit, with these needs and this due.
    #[inline(always)]
    pub fn submitted(&mut self, number: u64, unit: Label, needs: &[Label], due: Option<Label>)
        requires room { 0 < self.old.spare }
        requires few { length needs.now ≤ max_needs }
        requires distinct { AreDistinct needs.now }
        ensures { self.new ≡ recorded (event.Submitted number (record { unit = unit; needs = needs.now; due = due })) self.old }
    {
        self.made += 1;
        self.spare -= 1;
        if let Some(trace) = &mut self.trace {
            trace.submitted(number, unit, needs, due);
        }
    }

    /// The future of this label has its value.
    #[inline(always)]
    pub fn gave(&mut self, future: Label)
        requires { 0 < self.old.spare }
        ensures { self.new ≡ recorded (event.Gave future) self.old }
    {
        self.made += 1;
        self.spare -= 1;
        if let Some(trace) = &mut self.trace {
            trace.gave(future);
        }
    }

    /// The entry of this name was put, on a bin's lane.
    #[inline(always)]
    pub fn put(&mut self, name: CellName)
        requires { 0 < self.old.spare }
        ensures { self.new ≡ recorded (event.Put name) self.old }
    {
        self.made += 1;
        self.spare -= 1;
        if let Some(trace) = &mut self.trace {
            trace.put(name);
        }
    }

    /// The entry of this name was taken out, on a bin's lane.
    #[inline(always)]
    pub fn erased(&mut self, name: CellName)
        requires { 0 < self.old.spare }
        ensures { self.new ≡ recorded (event.Erased name) self.old }
    {
        self.made += 1;
        self.spare -= 1;
        if let Some(trace) = &mut self.trace {
            trace.erased(name);
        }
    }

    /// The count of this kind of this rank was read, for pass `pass` of fence `fence`: it was `value`.
    #[inline(always)]
    pub fn read(&mut self, kind: Kind, value: u64, fence: u32, pass: u64)
        requires { 0 < self.old.spare }
        ensures { self.new ≡ recorded (reading_event kind value fence pass) self.old }
    {
        self.made += 1;
        self.spare -= 1;
        if let Some(trace) = &mut self.trace {
            trace.read(kind, value, fence, pass);
        }
    }

    /// This rank's main entered the fence of this number.
    #[inline(always)]
    pub fn enter(&mut self, fence: u32)
        requires { 0 < self.old.spare }
        ensures { self.new ≡ recorded (event.Enter fence) self.old }
    {
        self.made += 1;
        self.spare -= 1;
        if let Some(trace) = &mut self.trace {
            trace.enter(fence);
        }
    }

    /// This rank's main left the fence of this number.
    #[inline(always)]
    pub fn leave(&mut self, fence: u32)
        requires { 0 < self.old.spare }
        ensures { self.new ≡ recorded (event.Leave fence) self.old }
    {
        self.made += 1;
        self.spare -= 1;
        if let Some(trace) = &mut self.trace {
            trace.leave(fence);
        }
    }

    /// The receipt of a fence.
    #[inline(always)]
    pub fn receipt(&mut self, receipt: &Receipt)
        requires { 0 < self.old.spare }
        ensures { self.new ≡ recorded (event.Receipt receipt.now) self.old }
    {
        self.made += 1;
        self.spare -= 1;
        if let Some(trace) = &mut self.trace {
            let _ = receipt.rows.len();
            trace.receipt(receipt);
        }
    }
}
