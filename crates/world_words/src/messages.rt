//! Messages: they are sent, and handled.
ghost use Rattle.std.specs.Prelude.{◌≡◌, ◌≢◌, ℕ, ◌<◌, false, None, Some};
ghost use Rattle.event_lists.specs.declared.event.Event.TheVariants.{Sent};
ghost use Rattle.event_lists.specs.declared.mark.Item.TheVariants.{Message};
ghost use Rattle.event_lists.specs.Events.{in_hand};
ghost use Rattle.event_lists.specs.Counting.{MaySpawn};
ghost use Rattle.event_lists.specs.Dues.{Dues};
ghost use Rattle.event_lists.specs.Fences.{fence_in};
ghost use Rattle.event_lists.specs.Futures.{is_fresh};
ghost use Rattle.world_rule.specs.Owing.{ended};
ghost use Rattle.world_rule.specs.Steps.{IsNextEffect, effect_of};
ghost use Rattle.world_words.specs.Lanes.{Grew};

use crate::lane::Lane;
use crate::words::{HANDLED, SENT, Words};
use app_core::Facts;
use event_lists::{Item, Parcel};
use std::marker::Brand;

impl<A: Facts> Words<A> {
    /// Counts a message to another rank, which the lane then owes: its number, from 0 at each rank.
    ///
    /// The message is the next start of rank 0's main, or the next effect of the task in hand.
    pub fn sent(&self, lane: &mut Lane, to: u32, parcel: Parcel) -> u64
        requires table { lane.old.table ≡ self.now.table }
        requires room { 0 < lane.old.spare }
        requires free { (lane.old.owes ≡ None) × (lane.old.name.bin ≡ false) }
        requires spawn { MaySpawn lane.old.name (in_hand lane.old.mine) }
        requires target { (to < self.now.ranks) × (to ≢ lane.old.name.rank) }
        requires dues { Dues lane.old.seen lane.old.name lane.old.mine (Sent 0 to parcel) }
        requires outside { in_hand lane.old.mine ≡ None → fence_in lane.old.mine ≡ None }
        requires next { IsNextEffect self.now.program lane.old.progress lane.old.seen lane.old.name lane.old.mine (Sent 0 to parcel) (in_hand lane.old.mine) }
        ensures { Grew self.now (A.may_do self.now.app) (Sent result to parcel) (effect_of lane.old.progress) lane.old lane.new }
    {
        let rank = lane.name.rank;
        let word = 16 * rank as usize + SENT;
        let number = self.add_event::<Brand, u32, Parcel>(
            &mut lane.seat,
            word,
            lane.name,
            to,
            &parcel,
        );
        lane.own.sent(number, to, &parcel);
        lane.owes = Some(Item::Message { rank, number });
        number
    }

    /// Counts the message in hand as handled: the number of the handling, from 0 at each rank.
    ///
    /// What the message brought was submitted or given since it was taken.
    pub fn handled(&self, lane: &mut Lane) -> u64
        requires table { lane.old.table ≡ self.now.table }
        requires room { 0 < lane.old.spare }
        requires free { (lane.old.owes ≡ None) × (lane.old.name.bin ≡ false) }
        requires hand { (rank : ℕ) × (number : ℕ) × (in_hand lane.old.mine ≡ Some (Message rank number)) }
        requires done { is_fresh lane.old.mine ≡ false }
        ensures { Grew self.now (A.may_do self.now.app) (ended result (in_hand lane.old.mine)) None lane.old lane.new }
    {
        let word = 16 * lane.name.rank as usize + HANDLED;
        let number = self.add_event::<Brand, (), ()>(&mut lane.seat, word, lane.name, (), &());
        lane.own.ended(number, lane.hand);
        lane.hand = None;
        number
    }
}
