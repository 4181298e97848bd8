//! Counts, readings, rows and receipts.
ghost use Rattle.std.specs.Prelude.{◌≡◌, ◌<◌, ◌≤◌, [], ◌∷◌, length, reverse, slice_get, MatchOption, IfSome};
ghost use Rattle.event_lists.specs.Events.{part, count};
ghost use Rattle.event_lists.specs.Fences.{readings, passes, row_of, has_receipt};

use crate::lanes::newest_on;
use event_lists::{Event, Kind, LaneName, Mark, Reading, Row};
use event_rules::{Recent, events};

/// How many events of a kind are on the lanes of a rank.
pub fn count(kind: Kind, rank: u32, marks: &[Mark]) -> u64
    ensures count { result ≡ count kind rank (reverse marks.now) }
    ensures within { result ≤ length marks.now }
{
    match marks.split_last() {
        None => 0,
        Some((newest, before)) => {
            let here = newest.lane.rank == rank && events::is_kind(kind, &newest.event);
            count(kind, rank, before) + u64::from(here)
        }
    }
}

/// The newest reading of a main since it entered a fence, and the marks before it.
pub fn newest_reading(lane: LaneName, marks: &[Mark]) -> Option<(Reading, &[Mark])>
    ensures cases { MatchOption result (readings (part lane (reverse marks.now)) ≡ []) (λ p. readings (part lane (reverse marks.now)) ≡ p.0 ∷ readings (part lane (reverse p.1.now))) }
    ensures shorter { IfSome result (λ p. length p.1.now < length marks.now) }
{
    let (event, before) = newest_on(lane, marks)?;
    let (kind, found, fence, pass) = match event {
        Event::ReadHandled { value, fence, pass } => (Kind::Handlings, *value, *fence, *pass),
        Event::ReadRan { value, fence, pass } => (Kind::Runs, *value, *fence, *pass),
        Event::ReadSubmitted { value, fence, pass } => (Kind::Submissions, *value, *fence, *pass),
        Event::ReadSent { value, fence, pass } => (Kind::Sends, *value, *fence, *pass),
        Event::Enter(_) => return None,
        _ => return newest_reading(lane, before),
    };
    let reading = Reading {
        kind,
        found,
        fence,
        pass,
    };
    Some((reading, before))
}

/// How many passes a main completed in its last fence.
pub fn passes(lane: LaneName, marks: &[Mark]) -> u64
    ensures count { result ≡ passes (readings (part lane (reverse marks.now))) }
    ensures within { result ≤ length marks.now }
{
    match newest_reading(lane, marks) {
        None => 0,
        Some((reading, before)) => {
            let ended = matches!(reading.kind, Kind::Sends);
            passes(lane, before) + u64::from(ended)
        }
    }
}

/// The last three readings of a main in its last fence.
pub fn recent(lane: LaneName, marks: &[Mark]) -> Recent
    ensures first { result.first ≡ slice_get (readings (part lane (reverse marks.now))) 0 }
    ensures second { result.second ≡ slice_get (readings (part lane (reverse marks.now))) 1 }
    ensures third { result.third ≡ slice_get (readings (part lane (reverse marks.now))) 2 }
{
    let first = newest_reading(lane, marks);
    let second = first.and_then(|(_, before)| newest_reading(lane, before));
    let third = second.and_then(|(_, before)| newest_reading(lane, before));
    Recent {
        first: first.map(|(reading, _)| reading),
        second: second.map(|(reading, _)| reading),
        third: third.map(|(reading, _)| reading),
    }
}

/// What a main read in a pass of a fence that it completed.
pub fn row_of(fence: u32, pass: u64, lane: LaneName, marks: &[Mark]) -> Option<Row>
    ensures { result ≡ row_of fence pass (part lane (reverse marks.now)) }
{
    match newest_on(lane, marks)? {
        (
            Event::ReadSent {
                value,
                fence: in_fence,
                pass: of,
            },
            before,
        ) if *in_fence == fence && *of == pass => Some(recent(lane, before).row_after(*value)),
        (_, before) => row_of(fence, pass, lane, before),
    }
}

/// Whether a fence has a receipt.
pub fn has_receipt(fence: u32, marks: &[Mark]) -> bool
    ensures { result ≡ has_receipt fence (reverse marks.now) }
{
    match marks.split_last() {
        None => false,
        Some((newest, before)) => events::is_receipt(fence, &newest.event)
            || has_receipt(fence, before),
    }
}
