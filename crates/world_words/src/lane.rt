//! A lane, and what goes from one lane to another.
ghost use Rattle.std.specs.Prelude.{◌≡◌};
ghost use Rattle.world_rule.specs.Owing.{ComesFrom};

use atomic_table::Seat;
use event_books::LanePart;
use event_lists::{Item, LaneName};
use lane_trace::LaneRecord;
use std::marker::Model;
use world_rule::view::View;

/// The lane of one hand or bin: a seat of the table.
///
/// The seat itself takes no memory. Contracts see the lane's own events, what it has seen of all events, what it owes and
/// how far its task is.
#[derive(Drop)]
pub struct Lane {
    pub(crate) seat: Seat<(), View>,
    pub(crate) name: LaneName,
    pub(crate) hand: Option<Item>,
    pub(crate) owes: Option<Item>,
    pub(crate) own: LaneRecord,
}

impl Model for Lane {
    ghost use Rattle.world_rule.specs.Views.{own_events};
    ghost use Rattle.world_words.specs.Lanes.{LaneView};
    ghost use Rattle.world_words.specs.Seats.{IsLaneSeat};

    ghost Value = { LaneView };

    ghost view = { λ l. record {
      table = l.seat.table_id;
      name = l.name;
      mine = own_events l.seat.me.0.parts;
      seen = l.seat.me.0.seen;
      owes = l.seat.me.0.owes;
      progress = l.seat.me.0.progress;
      set_stop = l.seat.me.0.set_stop;
      stop_looks = l.seat.me.0.stop_looks;
      saw_stop = l.seat.me.0.saw_stop;
      ran_looks = l.seat.me.0.ran_looks;
      submitted_looks = l.seat.me.0.submitted_looks;
      spare = l.own.spare;
      kept = l.own.kept;
    } };

    ghost invariant = { λ l. IsLaneSeat l.seat.table_id l.name l.hand l.owes l.own l.seat.me };
}

impl Lane {
    /// The name of the lane.
    pub fn name(&self) -> LaneName
        ensures { result ≡ self.now.name }
    {
        self.name
    }

    /// How many events it may still append.
    pub fn spare(&self) -> u64
        ensures { result ≡ self.now.spare }
    {
        self.own.spare()
    }
}

/// A seat that carries one counted message or task, or one drawn effect, to the lane that takes it.
#[derive(Drop)]
pub struct Carrier {
    pub(crate) seat: Seat<(), View>,
    pub(crate) item: Option<Item>,
}

impl Model for Carrier {
    ghost use Rattle.world_words.specs.Lanes.{CarrierView};
    ghost use Rattle.world_words.specs.Seats.{IsCarrier, the_owed};

    ghost Value = { CarrierView };

    ghost view = { λ c. record { table = c.seat.table_id; seen = c.seat.me.0.seen; owed = the_owed c.seat.me.0.owes } };

    ghost invariant = { λ c. IsCarrier c.item c.seat.me };
}

impl Carrier {
    /// Where its load comes from: a message or task was sent or submitted, to the rank that is named, with this load; an
    /// effect is a put or an erase of a task that a lane had in hand, at this rank.
    pub fn comes_from(&self)
        ensures { ComesFrom self.now.owed self.now.seen }
    {
        let _ = &self.seat;
    }
}

/// A seat that carries what a lane knew.
#[derive(Drop)]
pub struct Told {
    pub(crate) seat: Seat<(), View>,
}

impl Model for Told {
    ghost use Rattle.std.specs.Prelude.{None};
    ghost use Rattle.world_words.specs.Lanes.{ToldView};
    ghost use Rattle.world_words.specs.Seats.{IsPassive};

    ghost Value = { ToldView };

    ghost view = { λ c. record { table = c.seat.table_id; seen = c.seat.me.0.seen } };

    ghost invariant = { λ c. IsPassive None c.seat.me };
}

/// The seat that has the lanes which nobody has. At the end it has all of them again, with their events.
#[derive(Drop)]
pub struct Root {
    pub(crate) seat: Seat<(), View>,

    // What lanes kept that were folded by `close`, with room for all lanes.
    pub(crate) parts: Vec<LanePart>,
}

impl Model for Root {
    ghost use Rattle.std.specs.Prelude.{◌-◌, vec_len, vec_capacity};
    ghost use Rattle.world_words.specs.Lanes.{RootView};
    ghost use Rattle.world_words.specs.Seats.{IsRootSeat};

    ghost Value = { RootView };

    ghost view = { λ c. record { table = c.seat.table_id; parts = c.seat.me.0.parts; seen = c.seat.me.0.seen; set_stop = c.seat.me.0.set_stop; saw_stop = c.seat.me.0.saw_stop; book = c.parts.items; room = vec_capacity c.parts - vec_len c.parts } };

    ghost invariant = { λ c. IsRootSeat c.seat.me };
}
