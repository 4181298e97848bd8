//! A bin with its lane.
ghost use Rattle.std.specs.Prelude.{◌≡◌, ℕ, ◌+◌, ◌<◌, ◌↔◌, true, false, None, Some, Err, [], ◌∷◌, ◌++◌, length, max, IfErr, IfOk, IfSome, IfNone, IsOk, OnErr, OnOk, Contains};
ghost use Rattle.std.specs.FinMap as fin;
ghost use Rattle.app_core.specs.declared.outline.Outline.TheVariants.{Put as Puts, Erase as Erases};
ghost use Rattle.event_lists.specs.declared.event.Event.TheVariants.{Put, Erased};
ghost use Rattle.event_lists.specs.declared.mark.EffectName.{EffectName};
ghost use Rattle.event_lists.specs.Events.{Begins};
ghost use Rattle.event_lists.specs.Fences.{has_receipt};
ghost use Rattle.container.specs.Names.{is_of};
ghost use Rattle.container.specs.LookUps.{callbacks_of, others};
ghost use Rattle.container.specs.RightBins.{AreRight};
ghost use Rattle.lane_trace.specs.declared.record.ReserveError.TheVariants.{Worn, OutOfMemory as NoMemory};
ghost use Rattle.lane_trace.specs.Records.{event_limit};
ghost use Rattle.world_rule.specs.declared.view.Pending.TheVariants.{Drawn};
ghost use Rattle.world_rule.specs.declared.view.Load.TheVariants.{OfEffect};
ghost use Rattle.world_rule.specs.Owing.{owed, effect_in};
ghost use Rattle.world_words.specs.Lanes.{Grew, SeesMore};
ghost use Rattle.world_words.specs.Closing.{IsFree};
ghost use Rattle.lane_bins.specs.LaneBins.{AreOfBin, AreReadAt, HasWhatWasPut, IsNewBinLane, IsOfBin, IsReadAt};

use app_core::{App, CellName};
use container::{BinState, InsertError, OutOfMemory};
use event_laws::ListLaws;
use event_lists::LaneName;
use future_cell::{Callback, Callbacks};
use std::alloc::Global;
use std::marker::{Model, PhantomData};
use world_carriers::WordsNaming;
use world_words::{Carrier, Lane, ReserveError, Told, Words};

/// A bin of the application and the words that `J` names, and its lane. Contracts see the state and the lane.
///
/// The entries are just those that were put and not erased on the lane, and each has a cell that is right for its name,
/// whoever put it. What is waited for lies in this bin, and some unit of the application at this rank reads it. The lane is
/// one of the words; it has nothing in hand and owes nothing.
#[derive(Drop)]
pub struct LaneBin<A: App, J: WordsNaming<A>> {
    state: BinState<A::Cell>,
    lane: Lane,
    of: PhantomData<J>,
}

impl<A: App, J: WordsNaming<A>> Model for LaneBin<A, J> {
    ghost use Rattle.std.specs.FinMap as fin;
    ghost use Rattle.container.specs.Names.{name_code};
    ghost use Rattle.container.specs.contracts.look_ups.LookUp as look_ups;
    ghost use Rattle.container.specs.BinState.{bin_code};
    ghost use Rattle.world_words.specs.contracts.lane.Lane as lanes;
    ghost use Rattle.lane_bins.specs.LaneBins.{LaneBinData, lane_bin_code, IsLaneBin};

    ghost Value = { LaneBinData A.Cell };

    ghost coded = { lane_bin_code (bin_code (fin.code name_code A.Cell.code) look_ups.the_row.coded) lanes.the_row.coded };

    ghost view = { λ b. record { state = b.state; lane = b.lane } };

    ghost invariant = { λ b. IsLaneBin J.app J.words A.right_cell A.is_unit A.reads_of (λ app unit. A.home_of app unit (A.ranks_of app)) (record { state = b.state; lane = b.lane }) };
}

/// A put that was refused for want of memory, with all that it was passed.
#[derive(Drop)]
pub struct PutRefused<C> {
    pub carrier: Carrier,
    pub cell: C,
}

impl<A: App, J: WordsNaming<A>> LaneBin<A, J> {
    /// The bin of a lane without events: no entries, and none waited for. It takes no memory.
    pub fn new(alloc: Global, lane: Lane) -> LaneBin<A, J>
        requires new { IsNewBinLane J.words lane }
        ensures lane { result.lane ≡ lane }
        ensures entries { result.state.entries ≡ fin.empty }
        ensures waiting { result.state.waiting ≡ [] }
    {
        LaneBin {
            state: BinState::new(alloc),
            lane,
            of: PhantomData,
        }
    }

    /// The lane, moved out. Without the entries: they are let go.
    pub fn into_lane(self) -> Lane
        ensures lane { result ≡ self.lane }
        ensures free { IfSome J.words (λ words. IsFree words result) }
    {
        self.lane
    }

    /// Its entries and look-ups, for reading.
    pub fn state(&self) -> &BinState<A::Cell>
        ensures state { result.now ≡ self.now.state }
        ensures put { HasWhatWasPut self.now.state.entries self.now.lane.mine }
        ensures right { IfSome J.app (λ app. AreRight (A.right_cell app) self.now.state.entries) }
        ensures read { IfSome J.app (λ app. AreReadAt (A.is_unit app) (A.reads_of app) (λ unit. A.home_of app unit (A.ranks_of app)) self.now.lane.name.rank self.now.state.waiting) }
        ensures here { AreOfBin self.now.lane.name self.now.state.waiting }
    {
        &self.state
    }

    /// The name of its lane, which is that of a bin.
    pub fn name(&self) -> LaneName
        ensures name { result ≡ self.now.lane.name }
        ensures bin { result.bin ≡ true }
    {
        self.lane.name()
    }

    /// The rank of its lane.
    pub fn rank(&self) -> u32
        ensures { result ≡ self.now.lane.name.rank }
    {
        self.lane.name().rank
    }

    /// The number of its lane among the bins of the rank.
    pub fn number(&self) -> u32
        ensures { result ≡ self.now.lane.name.number }
    {
        self.lane.name().number
    }

    /// How many events its lane may still append.
    pub fn spare(&self) -> u64
        ensures { result ≡ self.now.lane.spare }
    {
        self.lane.spare()
    }

    /// How many entries have the version. It takes no memory.
    pub fn size_of(&self, version: u32) -> u64
        ensures { result ≡ fin.len (fin.retain_keys self.now.state.entries (is_of version)) }
    {
        self.state.size_of(version)
    }

    /// The cell of an entry of this bin that some unit at this rank reads, which is right for the name. Where there is no
    /// entry, the callback waits for it from now on, after all others.
    pub fn find_or_wait(
        &mut self,
        name: CellName,
        callback: Callback,
    ) -> Result<Option<A::Cell>, OutOfMemory>
        requires read { IfSome J.app (λ app. IsReadAt (A.is_unit app) (A.reads_of app) (λ unit. A.home_of app unit (A.ranks_of app)) self.old.lane.name.rank name) }
        requires bin { IsOfBin self.old.lane.name name }
        ensures right { IfSome J.app (λ app. IfOk result (λ o. IfSome o (λ cell. A.right_cell app name cell))) }
        ensures found { IfOk result (λ o. o ≡ fin.get self.old.state.entries name) }
        ensures there { IfOk result (λ o. IfSome o (λ _. self.new ≡ self.old)) }
        ensures waits { IfOk result (λ o. IfNone o (self.new.state ≡ record { entries = self.old.state.entries; waiting = self.old.state.waiting ++ record { name = name; callback = callback } ∷ [] })) }
        ensures lane { self.new.lane ≡ self.old.lane }
        ensures missing { OnErr result (fin.get self.old.state.entries name ≡ None) }
        ensures err { OnErr result (self.new ≡ self.old) }
    {
        self.state.find_or_wait(name, callback)
    }

    /// Makes room for this many events of the bin's lane.
    ///
    /// # Errors
    ///
    /// `Worn` exactly where they were more than 2^48 with the lane's events; `OutOfMemory` only where the lane keeps a
    /// trace. Then nothing changes.
    pub fn reserve(&mut self, words: &Words<A>, count: u32) -> Result<(), ReserveError>
        requires named { J.words ≡ Some words.now }
        ensures state { self.new.state ≡ self.old.state }
        ensures room { OnOk result (self.new.lane ≡ record self.old.lane { spare = max self.old.lane.spare count }) }
        ensures worn { (result ≡ Err Worn) ↔ (event_limit < length self.old.lane.mine + count) }
        ensures memory { result ≡ Err NoMemory → self.old.lane.kept ≡ true }
        ensures refused { OnErr result (self.new ≡ self.old) }
    {
        words.reserve(&mut self.lane, count)
    }

    /// A copy of what the bin's lane knows.
    pub fn tell(&mut self, words: &Words<A>) -> Told
        requires named { J.words ≡ Some words.now }
        ensures told { (result.table ≡ words.now.table) × (result.seen ≡ self.old.lane.seen) }
        ensures same { self.new ≡ self.old }
    {
        words.tell(&mut self.lane)
    }

    /// The bin's lane knows what it was told.
    pub fn learn(&mut self, words: &Words<A>, told: Told)
        requires named { J.words ≡ Some words.now }
        requires told { told.table ≡ words.now.table }
        ensures bin { self.new ≡ record self.old { lane = record self.old.lane { seen = self.new.lane.seen } } }
        ensures sees { SeesMore words.now (A.may_do words.now.app) self.old.lane self.new.lane }
        ensures learnt { Begins told.seen self.new.lane.seen }
    {
        words.learn(&mut self.lane, told);
    }
}

impl<A: App + ListLaws, J: WordsNaming<A>> LaneBin<A, J> {
    /// Carries out a put that was drawn: adds the entry, with the event on the bin's lane, and hands out the callbacks that
    /// wait for the name, in order. There was no such entry.
    ///
    /// # Errors
    ///
    /// `PutRefused` for want of memory alone. It hands the carrier and the cell back, and all stays.
    pub fn put(
        &mut self,
        words: &Words<A>,
        carrier: Carrier,
        name: CellName,
        cell: A::Cell,
    ) -> Result<Callbacks, PutRefused<A::Cell>>
        requires named { J.words ≡ Some words.now }
        requires ranks { words.now.ranks ≡ A.ranks_of words.now.app }
        requires table { carrier.table ≡ words.now.table }
        requires effect { (f : EffectName) × (carrier.owed ≡ owed (Drawn f) self.old.lane.name.rank (OfEffect (Puts name))) }
        requires bin { IsOfBin self.old.lane.name name }
        requires cell { IfSome J.app (λ app. A.right_cell app name cell) }
        requires room { 0 < self.old.lane.spare }
        ensures absent { OnOk result (fin.get self.old.state.entries name ≡ None) }
        ensures entries { OnOk result (self.new.state.entries ≡ fin.insert self.old.state.entries name cell) }
        ensures waiting { OnOk result (self.new.state.waiting ≡ others name self.old.state.waiting) }
        ensures callbacks { IfOk result (λ c. c ≡ callbacks_of name self.old.state.waiting) }
        ensures grew { OnOk result (Grew words.now (A.may_do words.now.app) (Put name) (effect_in carrier.owed.pending) self.old.lane self.new.lane) }
        ensures learnt { OnOk result (Begins carrier.seen self.new.lane.seen) }
        ensures kept { OnOk result ((fence : ℕ) → has_receipt fence self.old.lane.seen ≡ true → Contains (A.dropped_of words.now.app fence) name.version → ⊥) }
        ensures back { IfErr result (λ e. (e.carrier ≡ carrier) × (e.cell ≡ cell)) }
        ensures same { OnErr result (self.new ≡ self.old) }
    {
        match self.state.insert(name, cell) {
            Ok(callbacks) => {
                words.put(&mut self.lane, carrier, name);
                Ok(callbacks)
            }
            Err(InsertError::OutOfMemory(cell)) => Err(PutRefused { carrier, cell }),
            Err(InsertError::Present(_)) => {
                words.put(&mut self.lane, carrier, name);
                unreachable!()
            }
        }
    }

    /// Carries out an erase that was drawn: takes the entry out, with the event on the bin's lane, and returns its cell.
    /// There was such an entry.
    pub fn erase(&mut self, words: &Words<A>, carrier: Carrier, name: CellName) -> A::Cell
        requires named { J.words ≡ Some words.now }
        requires ranks { words.now.ranks ≡ A.ranks_of words.now.app }
        requires table { carrier.table ≡ words.now.table }
        requires effect { (f : EffectName) × (carrier.owed ≡ owed (Drawn f) self.old.lane.name.rank (OfEffect (Erases name))) }
        requires bin { IsOfBin self.old.lane.name name }
        requires room { 0 < self.old.lane.spare }
        ensures cell { fin.get self.old.state.entries name ≡ Some result }
        ensures right { IfSome J.app (λ app. A.right_cell app name result) }
        ensures rest { self.new.state ≡ record { entries = fin.remove self.old.state.entries name; waiting = self.old.state.waiting } }
        ensures grew { Grew words.now (A.may_do words.now.app) (Erased name) (effect_in carrier.owed.pending) self.old.lane self.new.lane }
        ensures learnt { Begins carrier.seen self.new.lane.seen }
        ensures kept { (fence : ℕ) → has_receipt fence self.old.lane.seen ≡ true → Contains (A.dropped_of words.now.app fence) name.version → ⊥ }
    {
        words.erased(&mut self.lane, carrier, name);
        match self.state.erase(name) {
            Some(cell) => cell,
            None => unreachable!(),
        }
    }
}
