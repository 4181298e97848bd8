//! What a main may do at fences.
ghost use Rattle.std.specs.Prelude.{◌↔◌, ◌≡◌, ◌<◌, ℕ, List, IsTrue, None, Some};
ghost use Rattle.event_lists.specs.declared.event.Event.TheVariants.{Enter, Leave};
ghost use Rattle.event_lists.specs.declared.kind.Reading.{Reading as ReadingData};
ghost use Rattle.event_lists.specs.Events.{main_of, part};
ghost use Rattle.event_lists.specs.Fences.{IsComplete, IsReady, Reads, InOrder, MayOpen, reading as reading_of};
ghost use Rattle.event_rules.specs.Asks.{Asks};
ghost use Rattle.event_rules.specs.Shown.{ShowsLane};
ghost use Rattle.event_rules.specs.States.{EndsWith};

use crate::hands::is_main;
use crate::lookup::Past;
use crate::values::{LaneState, Recent};
use event_lists::{Bringer, Kind, LaneName, Reading};

/// Whether a main may enter a fence: the next, outside of any, with nothing in hand and no need without a due.
pub fn may_enter<P: Past>(past: &P, lane: LaneName, state: &LaneState, fence: u32) -> bool
    requires shown { ShowsLane (P.log_of past.now) lane state.now }
    ensures { IsTrue result ↔ Asks (P.ranks_of past.now) (P.log_of past.now) lane (Enter fence) }
{
    is_main(lane)
        && state.hand.is_none()
        && state.fence.is_none()
        && fence > 0
        && u64::from(fence - 1) == state.entered
        && !past.lacks_dues(Bringer::Main { rank: lane.rank })
}

/// Whether a main may leave a fence: it is in it, with nothing in hand, and the fence has its receipt.
pub fn may_leave<P: Past>(past: &P, lane: LaneName, state: &LaneState, fence: u32) -> bool
    requires shown { ShowsLane (P.log_of past.now) lane state.now }
    ensures { IsTrue result ↔ Asks (P.ranks_of past.now) (P.log_of past.now) lane (Leave fence) }
{
    is_idle_in(lane, state, fence) && past.has_receipt(fence)
}

/// Whether the main has nothing in hand, and is in this fence.
pub fn is_idle_in(lane: LaneName, state: &LaneState, fence: u32) -> bool
    ensures { IsTrue result ↔ ((lane ≡ main_of lane.rank) × (state.now.hand ≡ None) × (state.now.fence ≡ Some fence)) }
{
    is_main(lane) && state.hand.is_none() && state.fence == Some(fence)
}

/// Whether a main may read a count for the next pass of its fence: it finds what was counted, in the order of the
/// four kinds.
pub fn may_read<P: Past>(
    past: &P,
    lane: LaneName,
    state: &LaneState,
    kind: Kind,
    found: u64,
    fence: u32,
    pass: u64,
) -> bool
    requires rank { lane.rank < P.ranks_of past.now }
    requires shown { ShowsLane (P.log_of past.now) lane state.now }
    ensures { let log = P.log_of past.now in
        IsTrue result ↔ Reads (P.ranks_of past.now) log lane (part lane log) kind found fence pass }
{
    found == past.count(kind, lane.rank)
        && is_idle_in(lane, state, fence)
        && pass > 0
        && pass - 1 == state.passes
        && is_in_order(past, &state.recent, kind, fence, pass)
}

// Whether a reading comes in its place: handled, ran, submitted, sent.
fn is_in_order<P: Past>(past: &P, recent: &Recent, kind: Kind, fence: u32, pass: u64) -> bool
    ensures { (rs : List ReadingData) → EndsWith rs recent.now
        → (IsTrue result ↔ InOrder (P.ranks_of past.now) (P.log_of past.now) rs kind fence pass) }
{
    match kind {
        Kind::Handlings => may_begin(recent) && is_ready(past, fence, pass),
        Kind::Runs => found_in(recent.first, Kind::Handlings, fence, pass).is_some(),
        Kind::Submissions => found_in(recent.first, Kind::Runs, fence, pass).is_some(),
        Kind::Sends => are_one(
            found_in(recent.first, Kind::Submissions, fence, pass),
            found_in(recent.second, Kind::Runs, fence, pass),
        ),
    }
}

// Whether two readings were found, of one value.
fn are_one(first: Option<u64>, second: Option<u64>) -> bool
    ensures { IsTrue result ↔ ((v : ℕ) × (first ≡ Some v) × (second ≡ Some v)) }
{
    match first {
        Some(found) => second == Some(found),
        None => false,
    }
}

// What a reading found, where it is one of this kind for this pass.
fn found_in(reading: Option<Reading>, kind: Kind, fence: u32, pass: u64) -> Option<u64>
    ensures { (v : ℕ) → (result ≡ Some v) ↔ (reading ≡ Some (reading_of kind v fence pass)) }
{
    match reading {
        Some(read) if read.kind == kind && read.fence == fence && read.pass == pass => Some(
            read.found,
        ),
        _ => None,
    }
}

// Whether handled may be read: no attempt is open, or the open one found ran and submitted different.
fn may_begin(recent: &Recent) -> bool
    ensures { (rs : List ReadingData) → EndsWith rs recent.now → (IsTrue result ↔ MayOpen rs) }
{
    let Some(last) = recent.first else {
        return true;
    };
    match last.kind {
        Kind::Sends => true,
        Kind::Submissions => match recent.second {
            Some(before) => before.found != last.found,
            None => false,
        },
        Kind::Handlings | Kind::Runs => false,
    }
}

// Whether a pass may begin: it is the first, or every rank completed the one before.
fn is_ready<P: Past>(past: &P, fence: u32, pass: u64) -> bool
    ensures { IsTrue result ↔ IsReady (P.ranks_of past.now) fence pass (P.log_of past.now) }
{
    pass < 2 || is_complete(past, fence, pass - 1)
}

/// Whether every rank completed a pass.
pub fn is_complete<P: Past>(past: &P, fence: u32, pass: u64) -> bool
    ensures { IsTrue result ↔ IsComplete (P.ranks_of past.now) fence pass (P.log_of past.now) }
{
    for rank in 0..past.ranks() {
        if past.row(fence, pass, rank).is_none() {
            return false;
        }
    }
    true
}
