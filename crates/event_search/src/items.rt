//! Messages and tasks: what they are, who spawned them, their dues, and whether they were taken.
ghost use Rattle.std.specs.Prelude.{◌≡◌, reverse};
ghost use Rattle.event_lists.specs.Events.{part, in_hand, is_taken};
ghost use Rattle.event_lists.specs.Futures.{bringer, due_of, own_due};
ghost use Rattle.event_rules.specs.Shown.{load_of, spawner_of};

use crate::lanes::in_hand;
use event_lists::{Bringer, Future, Item, LaneName, Mark};
use event_rules::{Load, events};

/// Who spawns on a lane.
pub fn spawner(lane: LaneName, marks: &[Mark]) -> Option<Bringer>
    ensures { result ≡ bringer lane.rank (in_hand (part lane (reverse marks.now))) }
{
    events::bringer(lane.rank, in_hand(lane, marks))
}

/// What was sent or submitted as this message or task.
pub fn load_of(item: Item, marks: &[Mark]) -> Option<Load>
    ensures { result ≡ load_of item (reverse marks.now) }
{
    let (newest, before) = marks.split_last()?;
    if events::makes(newest.lane.rank, &newest.event) == Some(item) {
        events::load_made(&newest.event)
    } else {
        load_of(item, before)
    }
}

/// Who spawned this message or task.
pub fn spawner_of(item: Item, marks: &[Mark]) -> Option<Bringer>
    ensures { result ≡ spawner_of item (reverse marks.now) }
{
    let (newest, before) = marks.split_last()?;
    if events::makes(newest.lane.rank, &newest.event) == Some(item) {
        spawner(newest.lane, before)
    } else {
        spawner_of(item, before)
    }
}

/// The future that this message or task has as its due.
pub fn due_of(item: Item, marks: &[Mark]) -> Option<Future>
    ensures { result ≡ due_of item (reverse marks.now) }
{
    let (newest, before) = marks.split_last()?;
    let rank = newest.lane.rank;
    if events::makes(rank, &newest.event) != Some(item) {
        return due_of(item, before);
    }
    let hand = in_hand(newest.lane, before);
    let own = match hand {
        None => None,
        Some(held) => due_of(held, before),
    };
    events::due_made(rank, hand, own, &newest.event)
}

/// The due of what a lane has in hand.
pub fn own_due(lane: LaneName, marks: &[Mark]) -> Option<Future>
    ensures { result ≡ own_due (in_hand (part lane (reverse marks.now))) (reverse marks.now) }
{
    let held = in_hand(lane, marks)?;
    due_of(held, marks)
}

/// Whether a hand took this message or task.
pub fn is_taken(item: Item, marks: &[Mark]) -> bool
    ensures { result ≡ is_taken item (reverse marks.now) }
{
    match marks.split_last() {
        None => false,
        Some((newest, before)) => events::takes(&newest.event) == Some(item)
            || is_taken(item, before),
    }
}
