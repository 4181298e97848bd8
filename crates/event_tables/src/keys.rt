//! The keys of the tables of a list.
ghost use Rattle.std.specs.Prelude.{◌==◌};

use crate::table::Key;
use app_core::CellName;
use event_lists::{Bringer, Future, Item, Kind, LaneName};

/// A pass of a fence at a rank.
#[derive(Clone, Copy, Debug, PartialEq, Eq, PartialOrd, Ord, Hash)]
pub struct PassName {
    pub rank: u32,
    pub fence: u32,
    pub pass: u64,
}

/// An entry on a bin's lane.
#[derive(Clone, Copy, Debug, PartialEq, Eq, PartialOrd, Ord, Hash)]
pub struct EntryName {
    pub lane: LaneName,
    pub name: CellName,
}

/// A kind of events at a rank.
#[derive(Clone, Copy, Debug, PartialEq, Eq, PartialOrd, Ord, Hash)]
pub struct CountName {
    pub rank: u32,
    pub kind: Kind,
}

impl Key for LaneName {
    ghost use Rattle.event_lists.specs.Events.{same_lane};

    ghost same = { same_lane };

    fn told_apart() {}
}

impl Key for Item {
    ghost use Rattle.event_lists.specs.Events.{same_item};

    ghost same = { same_item };

    fn told_apart() {}
}

impl Key for Bringer {
    ghost use Rattle.event_lists.specs.Futures.{same_bringer};

    ghost same = { same_bringer };

    fn told_apart() {}
}

impl Key for Future {
    ghost use Rattle.event_lists.specs.Futures.{same_future};

    ghost same = { same_future };

    fn told_apart() {}
}

impl Key for PassName {
    ghost use Rattle.event_tables.specs.Keys.{same_pass};

    ghost same = { same_pass };

    fn told_apart() {}
}

impl Key for EntryName {
    ghost use Rattle.event_tables.specs.Keys.{same_entry};

    ghost same = { same_entry };

    fn told_apart() {}
}

impl Key for CountName {
    ghost use Rattle.event_tables.specs.Keys.{same_count};

    ghost same = { same_count };

    fn told_apart() {}
}

impl Key for u32 {
    ghost use Rattle.std.specs.Prelude.{◌==◌};

    ghost same = { λ a b. a == b };

    fn told_apart() {}
}
