//! What a hand may send and submit.
ghost use Rattle.std.specs.Prelude.{◌↔◌, ◌≡◌, ◌<◌, IsTrue, None, false};
ghost use Rattle.event_lists.specs.declared.event.Event.TheVariants.{Sent, Submitted};
ghost use Rattle.event_lists.specs.Counting.{MaySpawn};
ghost use Rattle.event_lists.specs.Events.{part};
ghost use Rattle.event_lists.specs.Futures.{bringer as bringer_of, is_own as is_own_label};
ghost use Rattle.event_lists.specs.Dues.{DueIsFree, NeedsAreFree, WasNotNeeded};
ghost use Rattle.event_lists.specs.Legal.{Legal};
ghost use Rattle.event_rules.specs.Asks.{Asks};
ghost use Rattle.event_rules.specs.Shown.{ShowsLane};
ghost use Rattle.event_rules.specs.States.{MayCarry, SpawnsFreely};

use crate::events::bringer;
use crate::hands::{carries, is_main, is_own, keeps_due};
use crate::lookup::Past;
use crate::values::LaneState;
use app_core::{Label, Needs};
use event_lists::{Bringer, Future, Item, Kind, LaneName, Parcel, TaskName};

/// Whether a lane may send a message: with a task in hand, or as a main outside of its fences, to another rank.
pub fn may_send<P: Past>(
    past: &P,
    lane: LaneName,
    state: &LaneState,
    number: u64,
    to: u32,
    parcel: &Parcel,
) -> bool
    requires rank { lane.rank < P.ranks_of past.now }
    requires shown { ShowsLane (P.log_of past.now) lane state.now }
    ensures { IsTrue result ↔ Asks (P.ranks_of past.now) (P.log_of past.now) lane (Sent number to parcel.now) }
{
    let is_named = number == past.count(Kind::Sends, lane.rank)
        && to < past.ranks()
        && to != lane.rank;
    is_named
        && may_spawn(lane, state.hand)
        && is_open(state)
        && may_carry(past, lane, state, parcel)
}

// Whether the parcel's due is free, or its value is that of the due of the task in hand.
fn may_carry<P: Past>(past: &P, lane: LaneName, state: &LaneState, parcel: &Parcel) -> bool
    requires shown { ShowsLane (P.log_of past.now) lane state.now }
    requires spawns { MaySpawn lane state.now.hand }
    ensures { IsTrue result ↔ MayCarry (P.log_of past.now) lane parcel.now }
{
    match parcel {
        Parcel::Unit { due, .. } => due_is_free(past, lane, state, *due),
        Parcel::Give(label) => keeps_due(state, *label),
    }
}

/// Whether a lane may submit a task.
pub fn may_submit<P: Past>(
    past: &P,
    lane: LaneName,
    state: &LaneState,
    number: u64,
    task: &TaskName,
) -> bool
    requires legal { Legal (P.ranks_of past.now) (P.workers_of past.now) (P.log_of past.now) }
    requires rank { lane.rank < P.ranks_of past.now }
    requires shown { ShowsLane (P.log_of past.now) lane state.now }
    ensures { IsTrue result ↔ Asks (P.ranks_of past.now) (P.log_of past.now) lane (Submitted number task.now) }
{
    if number != past.count(Kind::Submissions, lane.rank) {
        return false;
    }
    match state.hand {
        Some(Item::Message { rank, number }) => {
            let parcel = Parcel::Unit {
                unit: task.unit,
                due: task.due,
            };
            state.fresh && task.needs.is_empty() && carries(past, rank, number, &parcel)
        }
        Some(Item::Task { .. }) | None => may_spawn_task(past, lane, state, task),
    }
}

// Whether a task may be spawned, with a task in hand or as a main outside of its fences.
fn may_spawn_task<P: Past>(past: &P, lane: LaneName, state: &LaneState, task: &TaskName) -> bool
    requires shown { ShowsLane (P.log_of past.now) lane state.now }
    ensures { IsTrue result ↔ SpawnsFreely (P.log_of past.now) lane state.now task.now }
{
    // Asking how many needs there are tells that no two are equal.
    let has_needs = task.needs.len() > 0;
    may_spawn(lane, state.hand)
        && is_open(state)
        && due_is_free(past, lane, state, task.due)
        && (!has_needs || needs_are_free(past, lane, state, &task.needs))
}

// Whether a task is in hand, or the lane is a main's with nothing in hand.
fn may_spawn(lane: LaneName, hand: Option<Item>) -> bool
    ensures { IsTrue result ↔ MaySpawn lane hand }
{
    match hand {
        None => is_main(lane),
        Some(Item::Task { .. }) => true,
        Some(_) => false,
    }
}

// Whether something is in hand, or the lane is in no fence.
fn is_open(state: &LaneState) -> bool
    ensures { IsTrue result ↔ (state.now.hand ≡ None → state.now.fence ≡ None) }
{
    state.hand.is_some() || state.fence.is_none()
}

// Whether a spawn may have this due: none, the task's own that it keeps, or one that its bringer didn't spawn with.
fn due_is_free<P: Past>(past: &P, lane: LaneName, state: &LaneState, due: Option<Label>) -> bool
    requires shown { ShowsLane (P.log_of past.now) lane state.now }
    requires spawns { MaySpawn lane state.now.hand }
    ensures { let by = bringer_of lane.rank state.now.hand in
        IsTrue result ↔ DueIsFree state.now.own by (P.log_of past.now) (part lane (P.log_of past.now)) due }
{
    let Some(label) = due else {
        return true;
    };
    if is_own(label, state.own) {
        return state.keeps;
    }
    match bringer(lane.rank, state.hand) {
        Some(by) => !past.future(Future { by, label }).due,
        None => false,
    }
}

// Whether none of these is the own due of the task in hand, or was needed by an earlier spawn of its bringer.
fn needs_are_free<P: Past>(past: &P, lane: LaneName, state: &LaneState, needs: &Needs) -> bool
    ensures { let by = bringer_of lane.rank state.now.hand in
        IsTrue result ↔ NeedsAreFree state.now.own by (P.log_of past.now) needs.now }
{
    let by = bringer(lane.rank, state.hand);
    for label in needs.labels() {
        if !need_is_free(past, state.own, by, *label) {
            return false;
        }
    }
    true
}

// Whether a spawn of this bringer may need a label: it isn't that of the own due, and none of its spawns needed it.
fn need_is_free<P: Past>(past: &P, own: Option<Future>, by: Option<Bringer>, label: Label) -> bool
    ensures { IsTrue result ↔ ((is_own_label label own ≡ false) × WasNotNeeded by label (P.log_of past.now)) }
{
    match by {
        Some(by) => !is_own(label, own) && !past.future(Future { by, label }).needed,
        None => false,
    }
}
