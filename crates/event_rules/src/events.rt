//! What one event says by itself.
ghost use Rattle.std.specs.Prelude.{◌≡◌};
ghost use Rattle.app_core.specs.Outlines.{same_label, is_due};
ghost use Rattle.event_lists.specs.Events.{is_kind, makes, takes};
ghost use Rattle.event_lists.specs.Futures.{bringer, future_by, spawned_due, spawned_needs, due_of_spawn, due_made, passes_on, gives};
ghost use Rattle.event_lists.specs.Fences.{is_receipt};
ghost use Rattle.event_rules.specs.Shown.{load_made};

use crate::values::Load;
use app_core::{Label, Needs};
use event_lists::{Bringer, Event, Future, Item, Kind, Parcel};

/// Whether it is of this kind.
pub fn is_kind(kind: Kind, event: &Event) -> bool
    ensures { result ≡ is_kind kind event.now }
{
    match kind {
        Kind::Sends => matches!(event, Event::Sent { .. }),
        Kind::Handlings => matches!(event, Event::Handled { .. }),
        Kind::Submissions => matches!(event, Event::Submitted { .. }),
        Kind::Runs => matches!(event, Event::Ran { .. }),
    }
}

/// The message or task that an event on a lane of this rank makes.
pub fn makes(rank: u32, event: &Event) -> Option<Item>
    ensures { result ≡ makes rank event.now }
{
    match event {
        Event::Sent { number, .. } => Some(Item::Message {
            rank,
            number: *number,
        }),
        Event::Submitted { number, .. } => Some(Item::Task {
            rank,
            number: *number,
        }),
        _ => None,
    }
}

/// What it sends or submits.
pub fn load_made(event: &Event) -> Option<Load>
    ensures { result ≡ load_made event.now }
{
    match event {
        Event::Sent { to, parcel, .. } => Some(Load::Message {
            to: *to,
            parcel: *parcel,
        }),
        Event::Submitted { task, .. } => Some(Load::Task { task: *task }),
        _ => None,
    }
}

/// The message or task that it takes into the hand of its lane.
pub fn takes(event: &Event) -> Option<Item>
    ensures { result ≡ takes event.now }
{
    match event {
        Event::TookMessage { rank, number } => Some(Item::Message {
            rank: *rank,
            number: *number,
        }),
        Event::TookTask { rank, number } => Some(Item::Task {
            rank: *rank,
            number: *number,
        }),
        _ => None,
    }
}

/// Who spawns on a lane of this rank with this in hand.
pub fn bringer(rank: u32, hand: Option<Item>) -> Option<Bringer>
    ensures { result ≡ bringer rank hand }
{
    match hand {
        None => Some(Bringer::Main { rank }),
        Some(Item::Task { rank, number }) => Some(Bringer::Task { rank, number }),
        Some(_) => None,
    }
}

/// Whether two labels are equal, as the definitions put it.
pub fn same_label(a: Label, b: Label) -> bool
    ensures { result ≡ same_label a b }
{
    a == b
}

/// Whether this label is that of the due.
pub fn is_due(label: Label, due: Option<Label>) -> bool
    ensures { result ≡ is_due label due }
{
    match due {
        None => false,
        Some(due) => same_label(label, due),
    }
}

/// The due with which it spawns.
pub fn spawned_due(event: &Event) -> Option<Label>
    ensures { result ≡ spawned_due event.now }
{
    match event {
        Event::Sent {
            parcel: Parcel::Unit { due, .. },
            ..
        } => *due,
        Event::Submitted { task, .. } => task.due,
        _ => None,
    }
}

/// The needs with which it spawns.
pub fn spawned_needs(event: &Event) -> Needs
    ensures { result ≡ spawned_needs event.now }
{
    match event {
        Event::Submitted { task, .. } => task.needs,
        _ => Needs::none(),
    }
}

/// The future of a bringer with this label.
pub fn future_by(by: Option<Bringer>, label: Label) -> Option<Future>
    ensures { result ≡ future_by by label }
{
    let by = by?;
    Some(Future { by, label })
}

/// The future of a spawn's due, on a lane of this rank with this in hand, whose own due is `own`.
pub fn due_of_spawn(
    rank: u32,
    hand: Option<Item>,
    own: Option<Future>,
    due: Option<Label>,
) -> Option<Future>
    ensures { result ≡ due_of_spawn rank hand own due }
{
    if let Some(Item::Message { .. }) = hand {
        return own;
    }
    let due = due?;
    match own {
        Some(future) if due == future.label => own,
        _ => future_by(bringer(rank, hand), due),
    }
}

/// The due of the message or task that it makes, on a lane of this rank with this in hand, whose own due is `own`.
pub fn due_made(rank: u32, hand: Option<Item>, own: Option<Future>, event: &Event) -> Option<Future>
    ensures { result ≡ due_made rank hand own event.now }
{
    match event {
        Event::Sent {
            parcel: Parcel::Unit { due, .. },
            ..
        } => due_of_spawn(rank, hand, own, *due),
        Event::Sent {
            parcel: Parcel::Give(_),
            ..
        } => own,
        Event::Submitted { task, .. } => due_of_spawn(rank, hand, own, task.due),
        _ => None,
    }
}

/// Whether it gives, sends or spawns on the due of this label.
pub fn passes_on(label: Label, event: &Event) -> bool
    ensures { result ≡ passes_on label event.now }
{
    match event {
        Event::Sent {
            parcel: Parcel::Unit { due, .. },
            ..
        } => is_due(label, *due),
        Event::Sent {
            parcel: Parcel::Give(given),
            ..
        }
        | Event::Gave(given) => same_label(label, *given),
        Event::Submitted { task, .. } => is_due(label, task.due),
        _ => false,
    }
}

/// The future that it gives, where this is the due of what is in hand.
pub fn given(own: Option<Future>, event: &Event) -> Option<Future>
    ensures { result ≡ gives own event.now }
{
    match event {
        Event::Gave(_) => own,
        _ => None,
    }
}

/// Whether it is a receipt of this fence.
pub fn is_receipt(fence: u32, event: &Event) -> bool
    ensures { result ≡ is_receipt fence event.now }
{
    match event {
        Event::Receipt(receipt) => receipt.fence == fence,
        _ => false,
    }
}
