//! Fences: they are entered and left, counts are read, and a receipt is made.
ghost use Rattle.std.specs.Prelude.{◌≡◌, ℕ, suc, ◌<◌, true, false, None, Some, slice_get};
ghost use Rattle.event_lists.specs.declared.event.Event.TheVariants.{Enter, Leave, Receipt as Receives, ReadHandled, ReadRan, ReadSubmitted, ReadSent};
ghost use Rattle.event_lists.specs.declared.kind.Kind.TheVariants.{Sends, Handlings, Submissions, Runs};
ghost use Rattle.event_lists.specs.declared.future.Bringer.TheVariants.{Main as main_at};
ghost use Rattle.event_lists.specs.Events.{main_of, in_hand};
ghost use Rattle.event_lists.specs.Dues.{NeedsAreDues};
ghost use Rattle.event_lists.specs.Fences.{Fences, fence_in, enters, has_receipt, IsIdleIn};
ghost use Rattle.event_lists.specs.OwnEvents.{IsNextReading, reading_event};
ghost use Rattle.event_laws.specs.Follows.{Wait, program_at, deeds};
ghost use Rattle.world_words.specs.Lanes.{Grew};

use crate::lane::Lane;
use crate::words::{QUIET_WORD, Words, count_of};
use app_core::Facts;
use event_lists::{Kind, Receipt};
use std::marker::Brand;

impl<A: Facts> Words<A> {
    /// The main of a rank enters its next fence.
    pub fn mark_enter(&self, lane: &mut Lane, fence: u32)
        requires table { lane.old.table ≡ self.now.table }
        requires room { 0 < lane.old.spare }
        requires free { (lane.old.owes ≡ None) × (lane.old.name.bin ≡ false) }
        requires main { (lane.old.name ≡ main_of lane.old.name.rank) × (in_hand lane.old.mine ≡ None) }
        requires fence { (fence_in lane.old.mine ≡ None) × (fence ≡ suc (enters lane.old.mine)) }
        requires needs { NeedsAreDues (main_at lane.old.name.rank) lane.old.seen }
        requires next { slice_get (program_at lane.old.name.rank self.now.program) (deeds lane.old.mine) ≡ Some Wait }
        ensures { Grew self.now (A.may_do self.now.app) (Enter fence) None lane.old lane.new }
    {
        self.load_event::<Brand, u32, ()>(&mut lane.seat, QUIET_WORD, lane.name, fence, &());
        lane.own.enter(fence);
    }

    // Reads a count of the lane's own rank.
    fn read(&self, lane: &mut Lane, kind: Kind, fence: u32, pass: u64) -> u64
        requires table { lane.old.table ≡ self.now.table }
        requires room { 0 < lane.old.spare }
        requires free { (lane.old.owes ≡ None) × (lane.old.name.bin ≡ false) }
        requires next { IsNextReading self.now.ranks lane.old.seen lane.old.name lane.old.mine kind fence pass }
        ensures { Grew self.now (A.may_do self.now.app) (reading_event kind result fence pass) None lane.old lane.new }
    {
        let word = 16 * lane.name.rank as usize + count_of(kind);
        let value = self.load_event::<Brand, (Kind, u32), u64>(
            &mut lane.seat,
            word,
            lane.name,
            (kind, fence),
            &pass,
        );
        lane.own.read(kind, value, fence, pass);
        value
    }

    /// Reads how many messages the lane's rank handled, as the first reading of a pass of a fence.
    pub fn read_handled(&self, lane: &mut Lane, fence: u32, pass: u64) -> u64
        requires table { lane.old.table ≡ self.now.table }
        requires room { 0 < lane.old.spare }
        requires free { (lane.old.owes ≡ None) × (lane.old.name.bin ≡ false) }
        requires next { IsNextReading self.now.ranks lane.old.seen lane.old.name lane.old.mine Handlings fence pass }
        ensures { Grew self.now (A.may_do self.now.app) (ReadHandled result fence pass) None lane.old lane.new }
    {
        self.read(lane, Kind::Handlings, fence, pass)
    }

    /// Reads how many tasks of the lane's rank ran, after the reading of handled.
    pub fn read_ran(&self, lane: &mut Lane, fence: u32, pass: u64) -> u64
        requires table { lane.old.table ≡ self.now.table }
        requires room { 0 < lane.old.spare }
        requires free { (lane.old.owes ≡ None) × (lane.old.name.bin ≡ false) }
        requires next { IsNextReading self.now.ranks lane.old.seen lane.old.name lane.old.mine Runs fence pass }
        ensures { Grew self.now (A.may_do self.now.app) (ReadRan result fence pass) None lane.old lane.new }
    {
        self.read(lane, Kind::Runs, fence, pass)
    }

    /// Reads how many tasks were submitted at the lane's rank, after the reading of ran.
    pub fn read_submitted(&self, lane: &mut Lane, fence: u32, pass: u64) -> u64
        requires table { lane.old.table ≡ self.now.table }
        requires room { 0 < lane.old.spare }
        requires free { (lane.old.owes ≡ None) × (lane.old.name.bin ≡ false) }
        requires next { IsNextReading self.now.ranks lane.old.seen lane.old.name lane.old.mine Submissions fence pass }
        ensures { Grew self.now (A.may_do self.now.app) (ReadSubmitted result fence pass) None lane.old lane.new }
    {
        self.read(lane, Kind::Submissions, fence, pass)
    }

    /// Reads how many messages the lane's rank sent, where submitted and ran were read equal: this completes the pass.
    pub fn read_sent(&self, lane: &mut Lane, fence: u32, pass: u64) -> u64
        requires table { lane.old.table ≡ self.now.table }
        requires room { 0 < lane.old.spare }
        requires free { (lane.old.owes ≡ None) × (lane.old.name.bin ≡ false) }
        requires next { IsNextReading self.now.ranks lane.old.seen lane.old.name lane.old.mine Sends fence pass }
        ensures { Grew self.now (A.may_do self.now.app) (ReadSent result fence pass) None lane.old lane.new }
    {
        self.read(lane, Kind::Sends, fence, pass)
    }

    /// The main of rank 0 makes the receipt of the fence that it is in, from two passes whose rows it knows.
    pub fn mark_receipt(&self, lane: &mut Lane, receipt: &Receipt)
        requires table { lane.old.table ≡ self.now.table }
        requires room { 0 < lane.old.spare }
        requires free { (lane.old.owes ≡ None) × (lane.old.name.bin ≡ false) }
        requires receipt { Fences self.now.ranks lane.old.seen lane.old.name lane.old.mine (Receives receipt.now) }
        ensures { Grew self.now (A.may_do self.now.app) (Receives receipt.now) None lane.old lane.new }
    {
        self.load_event::<Brand, (), Receipt>(&mut lane.seat, QUIET_WORD, lane.name, (), receipt);
        lane.own.receipt(receipt);
    }

    /// The main of a rank leaves the fence that it is in, whose receipt it knows.
    pub fn mark_leave(&self, lane: &mut Lane, fence: u32)
        requires table { lane.old.table ≡ self.now.table }
        requires room { 0 < lane.old.spare }
        requires free { (lane.old.owes ≡ None) × (lane.old.name.bin ≡ false) }
        requires main { IsIdleIn lane.old.name lane.old.mine fence }
        requires receipt { has_receipt fence lane.old.seen ≡ true }
        ensures { Grew self.now (A.may_do self.now.app) (Leave fence) None lane.old lane.new }
    {
        self.load_event::<Brand, u32, ()>(&mut lane.seat, QUIET_WORD, lane.name, fence, &());
        lane.own.leave(fence);
    }
}
