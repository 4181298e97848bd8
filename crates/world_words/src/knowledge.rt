//! Lanes tell what they know, and learn it.
ghost use Rattle.std.specs.Prelude.{◌≡◌};
ghost use Rattle.event_lists.specs.Events.{Begins};
ghost use Rattle.world_words.specs.Lanes.{SeesMore};

use crate::lane::{Lane, Told};
use crate::words::Words;
use app_core::Facts;
use world_rule::moves::{Joining, Telling};

impl<A: Facts> Words<A> {
    /// A copy of what the lane knows.
    pub fn tell(&self, lane: &mut Lane) -> Told
        requires table { lane.old.table ≡ self.now.table }
        ensures told { (result.table ≡ lane.old.table) × (result.seen ≡ lane.old.seen) }
        ensures lane { lane.new ≡ lane.old }
    {
        let seat = self.table.shared.split_seat::<Telling>(&mut lane.seat);
        Told { seat }
    }

    /// The lane knows what it was told.
    pub fn learn(&self, lane: &mut Lane, told: Told)
        requires table { (lane.old.table ≡ self.now.table) × (told.table ≡ self.now.table) }
        ensures lane { lane.new ≡ record lane.old { seen = lane.new.seen } }
        ensures sees { SeesMore self.now (A.may_do self.now.app) lane.old lane.new }
        ensures learnt { Begins told.seen lane.new.seen }
    {
        let Told { seat } = told;
        self.table.shared.join_seat::<Joining>(&mut lane.seat, seat);
        self.look(&mut lane.seat);
    }
}
