//! What a lane's own events tell.
ghost use Rattle.std.specs.Prelude.{◌≡◌, ◌<◌, ◌≤◌, [], ◌∷◌, length, reverse, MatchOption, IfSome};
ghost use Rattle.event_lists.specs.Events.{part, in_hand};
ghost use Rattle.event_lists.specs.Futures.{is_kept, is_fresh};
ghost use Rattle.event_lists.specs.Fences.{fence_in, enters};
ghost use Rattle.event_lists.specs.Bins.{is_put};

use app_core::{CellName, Label};
use event_lists::{Event, Item, LaneName, Mark};
use event_rules::events;

/// The newest event of a lane, and the marks before it.
pub fn newest_on(lane: LaneName, marks: &[Mark]) -> Option<(&Event, &[Mark])>
    ensures cases { MatchOption result (part lane (reverse marks.now) ≡ []) (λ p. part lane (reverse marks.now) ≡ p.0.now ∷ part lane (reverse p.1.now)) }
    ensures shorter { IfSome result (λ p. length p.1.now < length marks.now) }
{
    let (newest, before) = marks.split_last()?;
    if newest.lane == lane {
        Some((&newest.event, before))
    } else {
        newest_on(lane, before)
    }
}

/// What a lane has in hand.
pub fn in_hand(lane: LaneName, marks: &[Mark]) -> Option<Item>
    ensures { result ≡ in_hand (part lane (reverse marks.now)) }
{
    let (event, before) = newest_on(lane, marks)?;
    match event {
        Event::TookMessage { rank, number } => Some(Item::Message {
            rank: *rank,
            number: *number,
        }),
        Event::TookTask { rank, number } => Some(Item::Task {
            rank: *rank,
            number: *number,
        }),
        Event::Handled { .. } | Event::Ran { .. } => None,
        _ => in_hand(lane, before),
    }
}

/// Whether a lane took a task and didn't pass on the due of this label since.
pub fn is_kept(label: Label, lane: LaneName, marks: &[Mark]) -> bool
    ensures { result ≡ is_kept label (part lane (reverse marks.now)) }
{
    match newest_on(lane, marks) {
        None => false,
        Some((Event::TookTask { .. }, _)) => true,
        Some((event, before)) => !events::passes_on(label, event) && is_kept(label, lane, before),
    }
}

/// Whether a lane took a message, and neither submitted nor gave since.
pub fn is_fresh(lane: LaneName, marks: &[Mark]) -> bool
    ensures { result ≡ is_fresh (part lane (reverse marks.now)) }
{
    match newest_on(lane, marks) {
        None => false,
        Some((Event::TookMessage { .. }, _)) => true,
        Some((Event::Submitted { .. } | Event::Gave(_), _)) => false,
        Some((_, before)) => is_fresh(lane, before),
    }
}

/// The fence that a main is in.
pub fn fence_in(lane: LaneName, marks: &[Mark]) -> Option<u32>
    ensures { result ≡ fence_in (part lane (reverse marks.now)) }
{
    let (event, before) = newest_on(lane, marks)?;
    match event {
        Event::Enter(fence) => Some(*fence),
        Event::Leave(_) => None,
        _ => fence_in(lane, before),
    }
}

/// How many fences a main entered.
pub fn enters(lane: LaneName, marks: &[Mark]) -> u64
    ensures count { result ≡ enters (part lane (reverse marks.now)) }
    ensures within { result ≤ length marks.now }
{
    match newest_on(lane, marks) {
        None => 0,
        Some((Event::Enter(_), before)) => enters(lane, before) + 1,
        Some((_, before)) => enters(lane, before),
    }
}

/// Whether a lane's last event of this name is a put.
pub fn is_put(name: CellName, lane: LaneName, marks: &[Mark]) -> bool
    ensures { result ≡ is_put name (part lane (reverse marks.now)) }
{
    match newest_on(lane, marks) {
        None => false,
        Some((Event::Put(put), before)) => name == *put || is_put(name, lane, before),
        Some((Event::Erased(out), before)) => name != *out && is_put(name, lane, before),
        Some((_, before)) => is_put(name, lane, before),
    }
}
