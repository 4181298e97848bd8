//! The decision.
ghost use Rattle.std.specs.Prelude.{◌↔◌, ◌<◌, IsTrue, None};
ghost use Rattle.event_lists.specs.Events.{part};
ghost use Rattle.event_lists.specs.Legal.{Legal, May, IsLane};
ghost use Rattle.event_lists.specs.Bins.{Bins};
ghost use Rattle.event_rules.specs.Asks.{Asks};

use crate::fences::{may_enter, may_leave, may_read};
use crate::hands::{may_give, may_have_handled, may_have_run, may_take_message, may_take_task};
use crate::lookup::Past;
use crate::receipts::may_receive;
use crate::spawns::{may_send, may_submit};
use event_lists::{Event, Kind, LaneName};

/// Whether an event may come after a legal list: exactly where the longer list is legal.
pub fn allows<P: Past>(past: &P, lane: LaneName, event: &Event) -> bool
    requires legal { Legal (P.ranks_of past.now) (P.workers_of past.now) (P.log_of past.now) }
    ensures { IsTrue result ↔ May (P.ranks_of past.now) (P.workers_of past.now) (P.log_of past.now)
        (record { lane = lane; event = event.now; effect = None }) }
{
    // Nothing more is asked of events on a bin's lane.
    is_lane(past, lane)
        && fits_its_bin(past, lane, event)
        && (lane.bin || is_right(past, lane, event))
}

// Whether the lane is a hand's, up to the number of workers, or one of sixteen bins', of a rank that there is.
fn is_lane<P: Past>(past: &P, lane: LaneName) -> bool
    ensures { IsTrue result ↔ IsLane (P.ranks_of past.now) (P.workers_of past.now) lane }
{
    if lane.rank >= past.ranks() {
        return false;
    }
    if lane.bin {
        lane.number < 16
    } else {
        lane.number <= past.workers()
    }
}

// Whether a put or an erase is on a bin's lane, in turn, and any other event on a hand's.
fn fits_its_bin<P: Past>(past: &P, lane: LaneName, event: &Event) -> bool
    ensures { IsTrue result ↔ Bins lane (part lane (P.log_of past.now)) event.now }
{
    match event {
        Event::Put(name) => lane.bin && !past.is_put(lane, *name),
        Event::Erased(name) => lane.bin && past.is_put(lane, *name),
        _ => !lane.bin,
    }
}

// Whether numbers, hands, dues, needs and fences are right for the event.
fn is_right<P: Past>(past: &P, lane: LaneName, event: &Event) -> bool
    requires legal { Legal (P.ranks_of past.now) (P.workers_of past.now) (P.log_of past.now) }
    requires rank { lane.rank < P.ranks_of past.now }
    ensures { IsTrue result ↔ Asks (P.ranks_of past.now) (P.log_of past.now) lane event.now }
{
    let state = past.lane(lane);
    match event {
        Event::Sent { number, to, parcel } => may_send(past, lane, &state, *number, *to, parcel),
        Event::TookMessage { rank, number } => may_take_message(past, lane, &state, *rank, *number),
        Event::TookTask { rank, number } => may_take_task(past, lane, &state, *rank, *number),
        Event::Handled {
            number,
            rank,
            message,
        } => { may_have_handled(past, lane, &state, *number, *rank, *message) }
        Event::Submitted { number, task } => may_submit(past, lane, &state, *number, task),
        Event::Ran { number, rank, task } => may_have_run(
            past, lane, &state, *number, *rank, *task,
        ),
        Event::Gave(label) => may_give(past, lane, &state, *label),
        Event::Put(_) | Event::Erased(_) => true,
        Event::ReadHandled { value, fence, pass } => {
            may_read(past, lane, &state, Kind::Handlings, *value, *fence, *pass)
        }
        Event::ReadRan { value, fence, pass } => {
            may_read(past, lane, &state, Kind::Runs, *value, *fence, *pass)
        }
        Event::ReadSubmitted { value, fence, pass } => {
            may_read(past, lane, &state, Kind::Submissions, *value, *fence, *pass)
        }
        Event::ReadSent { value, fence, pass } => {
            may_read(past, lane, &state, Kind::Sends, *value, *fence, *pass)
        }
        Event::Enter(fence) => may_enter(past, lane, &state, *fence),
        Event::Leave(fence) => may_leave(past, lane, &state, *fence),
        Event::Receipt(receipt) => may_receive(past, lane, &state, receipt),
    }
}
