//! Puts and erases of the task in hand: they are drawn, and carried out on bins' lanes.
ghost use Rattle.std.specs.Prelude.{◌≡◌, ◌⊎◌, ℕ, ◌<◌, true, false, None, Some, slice_get, Contains};
ghost use Rattle.atomic_table.specs.Table.{Allows};
ghost use Rattle.app_core.specs.declared.outline.Outline.{Outline as OutlineData};
ghost use Rattle.app_core.specs.declared.outline.Outline.TheVariants.{Put as Puts, Erase as Erases};
ghost use Rattle.event_lists.specs.declared.event.Event.TheVariants.{Put, Erased};
ghost use Rattle.event_lists.specs.declared.mark.EffectName.{EffectName};
ghost use Rattle.event_lists.specs.Events.{Begins, in_hand};
ghost use Rattle.event_lists.specs.Fences.{has_receipt};
ghost use Rattle.event_lists.specs.Bins.{is_put};
ghost use Rattle.event_laws.specs.Follows.{bin_of};
ghost use Rattle.world_rule.specs.declared.view.Pending.TheVariants.{Drawn};
ghost use Rattle.world_rule.specs.declared.view.Load.TheVariants.{OfEffect};
ghost use Rattle.world_rule.specs.declared.view.Progress.{Progress};
ghost use Rattle.world_rule.specs.Owing.{owed, effect_in};
ghost use Rattle.world_rule.specs.Views.{drawn_from, next, next_outline};
ghost use Rattle.world_rule.specs.Shows.{ShowsOneRun};
ghost use Rattle.world_rule.specs.Steps.{DrawsEffect};
ghost use Rattle.world_words.specs.Lanes.{Grew, SeesMore};

use crate::lane::{Carrier, Lane};
use crate::words::{QUIET_WORD, Words};
use app_core::{CellName, Facts};
use atomic_table::Seat;
use event_laws::ListLaws;
use event_laws::laws::{an_entry_to_erase_is_present, an_entry_to_put_is_absent};
use event_laws::receipts::nothing_dropped_is_written;
use std::marker::Brand;
use world_rule::moves::{Joining, Packing};
use world_rule::steps::{DrawEffect, RunParameters};
use world_rule::view::View;

impl<A: Facts> Words<A> {
    // Loads word 0. A call picks Q from the seat's task.
    fn draw_as<Q: RunParameters>(&self, seat: &mut Seat<(), View>)
        requires table { seat.old.table_id ≡ self.now.table }
        requires step { Allows (ShowsOneRun self.now.ranks self.now.workers self.now.program (A.may_do self.now.app)) self.now.table.slots seat.old.id seat.old.me 0 (λ n. n) (λ n w. DrawsEffect Q.ranks Q.workers Q.program Q.may Q.task Q.outline seat.old.me w) }
        ensures { (seat.new.table_id ≡ seat.old.table_id) × DrawsEffect Q.ranks Q.workers Q.program Q.may Q.task Q.outline seat.old.me seat.new.me }
    {
        let _ = &self.table;
        self.table.shared.load::<DrawEffect<Q>>(seat, QUIET_WORD);
    }

    /// Draws the next effect of the task in hand into a carrier, where it is the put or the erase of this name.
    pub fn draw(&self, lane: &mut Lane, name: CellName) -> Carrier
        requires table { lane.old.table ≡ self.now.table }
        requires free { lane.old.owes ≡ None }
        requires next { (next_outline lane.old.progress ≡ Some (Puts name)) ⊎ (next_outline lane.old.progress ≡ Some (Erases name)) }
        ensures carrier { (result.table ≡ lane.old.table) × (result.seen ≡ lane.new.seen) }
        ensures owed { (b : Progress) (o : OutlineData) → lane.old.progress ≡ Some b → slice_get b.outlines b.at ≡ Some o → result.owed ≡ drawn_from b o }
        ensures lane { lane.new ≡ record lane.old { seen = lane.new.seen; progress = next lane.old.progress } }
        ensures sees { SeesMore self.now (A.may_do self.now.app) lane.old lane.new }
    {
        let _ = name;
        self.draw_as::<Brand>(&mut lane.seat);
        let seat = self.table.shared.split_seat::<Packing>(&mut lane.seat);
        Carrier { seat, item: None }
    }
}

impl<A: ListLaws> Words<A> {
    /// The bin's lane carries out a put that was drawn. The entry was not in the bin, and no fence whose receipt the lane
    /// knows drops its version.
    pub fn put(&self, lane: &mut Lane, carrier: Carrier, name: CellName)
        requires table { (lane.old.table ≡ self.now.table) × (carrier.table ≡ self.now.table) }
        requires ranks { self.now.ranks ≡ A.ranks_of self.now.app }
        requires room { 0 < lane.old.spare }
        requires free { (lane.old.owes ≡ None) × (in_hand lane.old.mine ≡ None) }
        requires effect { (f : EffectName) × (carrier.owed ≡ owed (Drawn f) lane.old.name.rank (OfEffect (Puts name))) }
        requires bin { lane.old.name ≡ bin_of lane.old.name.rank name }
        ensures grew { Grew self.now (A.may_do self.now.app) (Put name) (effect_in carrier.owed.pending) lane.old lane.new }
        ensures learnt { Begins carrier.seen lane.new.seen }
        ensures absent { is_put name lane.old.mine ≡ false }
        ensures kept { (fence : ℕ) → has_receipt fence lane.old.seen ≡ true → Contains (A.dropped_of self.now.app fence) name.version → ⊥ }
    {
        an_entry_to_put_is_absent();
        nothing_dropped_is_written::<A>();
        let Carrier { seat, item: _ } = carrier;
        self.table.shared.join_seat::<Joining>(&mut lane.seat, seat);
        self.load_event::<Brand, CellName, ()>(&mut lane.seat, QUIET_WORD, lane.name, name, &());
        lane.own.put(name);
    }

    /// The bin's lane carries out an erase that was drawn. The entry was in the bin, and no fence whose receipt the lane
    /// knows drops its version.
    pub fn erased(&self, lane: &mut Lane, carrier: Carrier, name: CellName)
        requires table { (lane.old.table ≡ self.now.table) × (carrier.table ≡ self.now.table) }
        requires ranks { self.now.ranks ≡ A.ranks_of self.now.app }
        requires room { 0 < lane.old.spare }
        requires free { (lane.old.owes ≡ None) × (in_hand lane.old.mine ≡ None) }
        requires effect { (f : EffectName) × (carrier.owed ≡ owed (Drawn f) lane.old.name.rank (OfEffect (Erases name))) }
        requires bin { lane.old.name ≡ bin_of lane.old.name.rank name }
        ensures grew { Grew self.now (A.may_do self.now.app) (Erased name) (effect_in carrier.owed.pending) lane.old lane.new }
        ensures learnt { Begins carrier.seen lane.new.seen }
        ensures present { is_put name lane.old.mine ≡ true }
        ensures kept { (fence : ℕ) → has_receipt fence lane.old.seen ≡ true → Contains (A.dropped_of self.now.app fence) name.version → ⊥ }
    {
        an_entry_to_erase_is_present();
        nothing_dropped_is_written::<A>();
        let Carrier { seat, item: _ } = carrier;
        self.table.shared.join_seat::<Joining>(&mut lane.seat, seat);
        self.load_event::<Brand, CellName, ()>(&mut lane.seat, QUIET_WORD, lane.name, name, &());
        lane.own.erased(name);
    }
}
