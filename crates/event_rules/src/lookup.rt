//! What is known of a list of events.
ghost use Rattle.std.specs.Prelude.{◌≡◌, ◌↔◌, ◌<◌, ℕ, List, IsFalse};
ghost use Rattle.event_lists.specs.declared.mark.Mark.{Mark as MarkData};
ghost use Rattle.event_lists.specs.Events.{main_of, part, count};
ghost use Rattle.event_lists.specs.Dues.{NeedsAreDues};
ghost use Rattle.event_lists.specs.Fences.{row_of, has_receipt};
ghost use Rattle.event_lists.specs.Bins.{is_put};
ghost use Rattle.event_rules.specs.Shown.{ShowsLane, ShowsItem, ShowsFuture};

use crate::values::{Found, LaneState, Made};
use app_core::CellName;
use event_lists::{Bringer, Future, Item, Kind, LaneName, Row};

/// A list of events over a number of ranks and workers, of which these things are known.
///
/// Each call returns what its definition says of the list.
pub trait Past {
    ghost ranks_of: { Self → ℕ };

    ghost workers_of: { Self → ℕ };

    /// The events, the newest first.
    ghost log_of: { Self → List MarkData };

    fn ranks(&self) -> u32
        ensures { result ≡ ranks_of self.now };

    fn workers(&self) -> u32
        ensures { result ≡ workers_of self.now };

    /// The state of a lane.
    fn lane(&self, lane: LaneName) -> LaneState
        ensures { ShowsLane (log_of self.now) lane result };

    /// A message or task. None exactly where it wasn't sent or submitted.
    fn item(&self, item: Item) -> Option<Made>
        ensures { ShowsItem (log_of self.now) item result };

    /// What was done with a future.
    fn future(&self, future: Future) -> Found
        ensures { ShowsFuture (log_of self.now) future result };

    /// Whether a label that a spawn of this bringer needed isn't the due of a spawn of it.
    fn lacks_dues(&self, bringer: Bringer) -> bool
        ensures { IsFalse result ↔ NeedsAreDues bringer (log_of self.now) };

    /// How many events of a kind are on the lanes of a rank.
    fn count(&self, kind: Kind, rank: u32) -> u64
        requires { rank < ranks_of self.now }
        ensures { result ≡ count kind rank (log_of self.now) };

    /// What a rank's main read in a pass of a fence that it completed.
    fn row(&self, fence: u32, pass: u64, rank: u32) -> Option<Row>
        ensures { result ≡ row_of fence pass (part (main_of rank) (log_of self.now)) };

    /// Whether a fence has a receipt.
    fn has_receipt(&self, fence: u32) -> bool
        ensures { result ≡ has_receipt fence (log_of self.now) };

    /// Whether a lane's last event of this name is a put.
    fn is_put(&self, lane: LaneName, name: CellName) -> bool
        ensures { result ≡ is_put name (part lane (log_of self.now)) };
}
