//! When the receipt of a fence may come.
ghost use Rattle.std.specs.Prelude.{◌↔◌, ◌≡◌, ◌+◌, IsTrue};
ghost use Rattle.event_lists.specs.declared.event.Event.TheVariants.{Receipt as Receives};
ghost use Rattle.event_lists.specs.Fences.{total_sent, total_handled, sent_in, handled_in, Agree, RowsAre, Receivable};
ghost use Rattle.event_rules.specs.Asks.{Asks};
ghost use Rattle.event_rules.specs.Shown.{ShowsLane};

use crate::fences::{is_complete, is_idle_in};
use crate::lookup::Past;
use crate::values::LaneState;
use event_lists::{LaneName, Receipt, Row};

// The first pass after which a receipt may come: there are two that agree.
const SECOND: u64 = 2;

// What all ranks read in a pass.
#[derive(Clone, Copy)]
struct Sums {
    sent: u128,
    handled: u128,
}

/// Whether rank 0's main may write the receipt of the fence that it is in.
pub fn may_receive<P: Past>(past: &P, lane: LaneName, state: &LaneState, receipt: &Receipt) -> bool
    requires shown { ShowsLane (P.log_of past.now) lane state.now }
    ensures { IsTrue result ↔ Asks (P.ranks_of past.now) (P.log_of past.now) lane (Receives receipt.now) }
{
    lane.rank == 0
        && is_idle_in(lane, state, receipt.fence)
        && !past.has_receipt(receipt.fence)
        && is_receivable(past, receipt)
}

// Whether the receipt's pass is above the first, it and the one before are complete and agree, and the rows are its.
fn is_receivable<P: Past>(past: &P, receipt: &Receipt) -> bool
    ensures { IsTrue result ↔ Receivable (P.ranks_of past.now) (P.log_of past.now) receipt.now }
{
    let fence = receipt.fence;
    let last = receipt.pass;
    if last < SECOND {
        return false;
    }
    is_complete(past, fence, last - 1)
        && is_complete(past, fence, last)
        && agree(past, fence, last - 1, last)
        && rows_are(past, receipt)
}

// Whether the sums of two passes, of messages sent and handled, are four equal numbers.
fn agree<P: Past>(past: &P, fence: u32, before: u64, last: u64) -> bool
    requires { last ≡ before + 1 }
    ensures { IsTrue result ↔ Agree (P.ranks_of past.now) fence before (P.log_of past.now) }
{
    let first = totals(past, fence, before);
    let second = totals(past, fence, last);
    first.sent == first.handled && second.sent == first.sent && second.handled == first.handled
}

// The sums of a pass over all ranks.
fn totals<P: Past>(past: &P, fence: u32, pass: u64) -> Sums
    ensures sent { result.sent ≡ total_sent (P.ranks_of past.now) fence pass (P.log_of past.now) }
    ensures handled { result.handled ≡ total_handled (P.ranks_of past.now) fence pass (P.log_of past.now) }
{
    let mut sent: u128 = 0;
    let mut handled: u128 = 0;
    for rank in 0..past.ranks() {
        let row = past.row(fence, pass, rank);
        sent += u128::from(sent_of(row));
        handled += u128::from(handled_of(row));
    }
    Sums { sent, handled }
}

// The messages sent that a row names, where there is one.
fn sent_of(row: Option<Row>) -> u64
    ensures { result ≡ sent_in row }
{
    match row {
        Some(row) => row.sent,
        None => 0,
    }
}

// The handlings that a row names, where there is one.
fn handled_of(row: Option<Row>) -> u64
    ensures { result ≡ handled_in row }
{
    match row {
        Some(row) => row.handled,
        None => 0,
    }
}

// Whether the receipt has a row for each rank, those of its pass.
fn rows_are<P: Past>(past: &P, receipt: &Receipt) -> bool
    ensures { let r = receipt.now in
        IsTrue result ↔ RowsAre (P.ranks_of past.now) r.fence r.pass (P.log_of past.now) r.rows }
{
    if receipt.rows.len() != past.ranks() as usize {
        return false;
    }
    for rank in 0..past.ranks() {
        if past.row(receipt.fence, receipt.pass, rank) != receipt.rows.get(rank as usize) {
            return false;
        }
    }
    true
}
