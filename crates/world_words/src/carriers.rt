//! What a lane owes goes to another lane in a carrier.
ghost use Rattle.std.specs.Prelude.{◌≡◌, ℕ, ◌<◌, false, None, Some, IsSome};
ghost use Rattle.event_lists.specs.Events.{Begins, in_hand};
ghost use Rattle.world_rule.specs.Owing.{Made, IsCounted, NeedsKnown, took};
ghost use Rattle.world_words.specs.Lanes.{Grew};

use crate::lane::{Carrier, Lane};
use crate::words::{QUIET_WORD, Words};
use app_core::Facts;
use std::marker::Brand;
use world_rule::moves::{Joining, Packing};

impl<A: Facts> Words<A> {
    /// The message or task that the lane owes leaves it in a carrier.
    pub fn pack(&self, lane: &mut Lane) -> Carrier
        requires table { lane.old.table ≡ self.now.table }
        requires owes { IsSome lane.old.owes }
        ensures carrier { (result.table ≡ lane.old.table) × (result.seen ≡ lane.old.seen) }
        ensures owed { lane.old.owes ≡ Some result.owed }
        ensures lane { lane.new ≡ record lane.old { owes = None } }
    {
        let item = lane.owes;
        lane.owes = None;
        let seat = self.table.shared.split_seat::<Packing>(&mut lane.seat);
        Carrier { seat, item }
    }

    /// Takes the message or task of a carrier in hand. The needs of a task are known as given.
    pub fn take_in(&self, lane: &mut Lane, carrier: Carrier)
        requires table { (lane.old.table ≡ self.now.table) × (carrier.table ≡ self.now.table) }
        requires room { 0 < lane.old.spare }
        requires free { (lane.old.owes ≡ None) × (in_hand lane.old.mine ≡ None) × (lane.old.name.bin ≡ false) }
        requires item { IsCounted carrier.owed.pending × (carrier.owed.to ≡ lane.old.name.rank) }
        requires needs { NeedsKnown carrier.owed.pending carrier.seen lane.old.seen }
        ensures grew { Grew self.now (A.may_do self.now.app) (took carrier.owed.pending) None lane.old lane.new }
        ensures learnt { Begins carrier.seen lane.new.seen }
        ensures made { Made carrier.owed lane.new.seen }
    {
        let Carrier { seat, item } = carrier;
        self.table.shared.join_seat::<Joining>(&mut lane.seat, seat);
        self.load_event::<Brand, (), ()>(&mut lane.seat, QUIET_WORD, lane.name, (), &());
        lane.own.took(item);
        lane.hand = item;
    }
}
