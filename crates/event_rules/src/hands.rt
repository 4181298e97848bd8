//! What a hand may take, end and give.
ghost use Rattle.std.specs.Prelude.{◌↔◌, ◌≡◌, ◌<◌, IsTrue, Some};
ghost use Rattle.event_lists.specs.declared.event.Event.TheVariants.{TookMessage, TookTask, Handled, Ran, Gave};
ghost use Rattle.event_lists.specs.declared.mark.Item.TheVariants.{Message};
ghost use Rattle.event_lists.specs.Events.{main_of};
ghost use Rattle.event_lists.specs.Futures.{is_own as is_own_label};
ghost use Rattle.event_lists.specs.Dues.{Carries};
ghost use Rattle.event_lists.specs.Legal.{Legal};
ghost use Rattle.event_rules.specs.Asks.{Asks};
ghost use Rattle.event_rules.specs.Shown.{ShowsLane};
ghost use Rattle.event_rules.specs.States.{AreGiven, KeepsOwn, HasTask};

use crate::lookup::Past;
use crate::values::{LaneState, Load};
use app_core::{Label, Needs};
use event_lists::{Bringer, Future, Item, Kind, LaneName, Parcel};

/// Whether the lane is that of its rank's main.
pub fn is_main(lane: LaneName) -> bool
    ensures { IsTrue result ↔ (lane ≡ main_of lane.rank) }
{
    !lane.bin && lane.number == 0
}

/// Whether this is the label of the due of what is in hand.
pub fn is_own(label: Label, own: Option<Future>) -> bool
    ensures { result ≡ is_own_label label own }
{
    match own {
        Some(future) => label == future.label,
        None => false,
    }
}

/// Whether a task in hand keeps its due, which has this label.
pub fn keeps_due(state: &LaneState, label: Label) -> bool
    ensures { IsTrue result ↔ KeepsOwn state.now label }
{
    has_task(state.hand) && is_own(label, state.own) && state.keeps
}

// Whether a task is in hand.
fn has_task(hand: Option<Item>) -> bool
    ensures { IsTrue result ↔ HasTask hand }
{
    match hand {
        Some(Item::Task { .. }) => true,
        Some(_) | None => false,
    }
}

/// Whether a message was sent with this parcel.
pub fn carries<P: Past>(past: &P, rank: u32, number: u64, parcel: &Parcel) -> bool
    requires legal { Legal (P.ranks_of past.now) (P.workers_of past.now) (P.log_of past.now) }
    ensures { IsTrue result ↔ Carries (Some (Message rank number)) parcel.now (P.log_of past.now) }
{
    match past.item(Item::Message { rank, number }) {
        Some(made) => made.load.has_parcel(parcel),
        None => false,
    }
}

/// Whether the hand of a lane may take a message.
pub fn may_take_message<P: Past>(
    past: &P,
    lane: LaneName,
    state: &LaneState,
    rank: u32,
    number: u64,
) -> bool
    requires legal { Legal (P.ranks_of past.now) (P.workers_of past.now) (P.log_of past.now) }
    requires shown { ShowsLane (P.log_of past.now) lane state.now }
    ensures { IsTrue result ↔ Asks (P.ranks_of past.now) (P.log_of past.now) lane (TookMessage rank number) }
{
    match past.item(Item::Message { rank, number }) {
        Some(made) => state.hand.is_none() && made.load.goes_to(lane.rank) && !made.taken,
        None => false,
    }
}

/// Whether the hand of a lane may take a task.
pub fn may_take_task<P: Past>(
    past: &P,
    lane: LaneName,
    state: &LaneState,
    rank: u32,
    number: u64,
) -> bool
    requires legal { Legal (P.ranks_of past.now) (P.workers_of past.now) (P.log_of past.now) }
    requires shown { ShowsLane (P.log_of past.now) lane state.now }
    ensures { IsTrue result ↔ Asks (P.ranks_of past.now) (P.log_of past.now) lane (TookTask rank number) }
{
    let Some(made) = past.item(Item::Task { rank, number }) else {
        return false;
    };
    match &made.load {
        Load::Task { task } => {
            state.hand.is_none()
                && rank == lane.rank
                && !made.taken
                && are_given(past, made.by, &task.needs)
        }
        Load::Message { .. } => false,
    }
}

// Whether each future of this bringer with one of these labels was given.
fn are_given<P: Past>(past: &P, by: Option<Bringer>, needs: &Needs) -> bool
    ensures { IsTrue result ↔ AreGiven by (P.log_of past.now) needs.now }
{
    let Some(by) = by else {
        return true;
    };
    for label in needs.labels() {
        if !past.future(Future { by, label: *label }).given {
            return false;
        }
    }
    true
}

/// Whether the message in hand may end as handled.
pub fn may_have_handled<P: Past>(
    past: &P,
    lane: LaneName,
    state: &LaneState,
    number: u64,
    rank: u32,
    message: u64,
) -> bool
    requires rank { lane.rank < P.ranks_of past.now }
    requires shown { ShowsLane (P.log_of past.now) lane state.now }
    ensures { IsTrue result ↔ Asks (P.ranks_of past.now) (P.log_of past.now) lane (Handled number rank message) }
{
    let item = Item::Message {
        rank,
        number: message,
    };
    number == past.count(Kind::Handlings, lane.rank) && state.hand == Some(item) && !state.fresh
}

/// Whether the task in hand may end as run: it passed its due on, and each need of its spawns is a due of one.
pub fn may_have_run<P: Past>(
    past: &P,
    lane: LaneName,
    state: &LaneState,
    number: u64,
    rank: u32,
    task: u64,
) -> bool
    requires rank { lane.rank < P.ranks_of past.now }
    requires shown { ShowsLane (P.log_of past.now) lane state.now }
    ensures { IsTrue result ↔ Asks (P.ranks_of past.now) (P.log_of past.now) lane (Ran number rank task) }
{
    let item = Item::Task { rank, number: task };
    number == past.count(Kind::Runs, lane.rank)
        && state.hand == Some(item)
        && !(state.own.is_some() && state.keeps)
        && !past.lacks_dues(Bringer::Task { rank, number: task })
}

/// Whether a lane may give the future of this label: a message in hand carries it, or a task in hand keeps it.
pub fn may_give<P: Past>(past: &P, lane: LaneName, state: &LaneState, label: Label) -> bool
    requires legal { Legal (P.ranks_of past.now) (P.workers_of past.now) (P.log_of past.now) }
    requires shown { ShowsLane (P.log_of past.now) lane state.now }
    ensures { IsTrue result ↔ Asks (P.ranks_of past.now) (P.log_of past.now) lane (Gave label) }
{
    keeps_due(state, label) || (state.fresh && is_carried(past, state.hand, &Parcel::Give(label)))
}

// Whether a message is in hand, and carries this parcel.
fn is_carried<P: Past>(past: &P, hand: Option<Item>, parcel: &Parcel) -> bool
    requires legal { Legal (P.ranks_of past.now) (P.workers_of past.now) (P.log_of past.now) }
    ensures { IsTrue result ↔ Carries hand parcel.now (P.log_of past.now) }
{
    match hand {
        Some(Item::Message { rank, number }) => carries(past, rank, number, parcel),
        Some(_) | None => false,
    }
}
