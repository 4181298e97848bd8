//! Examples of how the task in hand has its puts and erases carried out.
ghost use Rattle.std.specs.Prelude.{◌≡◌, ◌<◌, true, false, None, Some, slice_get, IfSome, OnErr, OnOk};
ghost use Rattle.std.specs.FinMap as fin;
ghost use Rattle.app_core.specs.declared.outline.Outline.TheVariants.{Put as Puts, Erase as Erases};
ghost use Rattle.event_laws.specs.Follows.{carried_out};
ghost use Rattle.world_rule.specs.declared.view.Progress.{Progress};
ghost use Rattle.world_rule.specs.Views.{next};
ghost use Rattle.world_words.specs.Lanes.{SeesMore};
ghost use Rattle.lane_bins.specs.LaneBins.{IsOfBin};

use crate::lane_bin::{LaneBin, PutRefused};
use app_core::{App, CellName};
use event_laws::ListLaws;
use future_cell::Callbacks;
use world_carriers::WordsNaming;
use world_words::{Lane, Words};

/// A hand draws the put that its task in hand comes to, and has the bin carry it out. It then knows of this, so that the
/// task may go on. Where the put is refused, its carrier comes back.
pub fn store<A: App + ListLaws, J: WordsNaming<A>>(
    words: &Words<A>,
    lane: &mut Lane,
    bin: &mut LaneBin<A, J>,
    name: CellName,
    cell: A::Cell,
) -> Result<Callbacks, PutRefused<A::Cell>>
    requires named { J.words ≡ Some words.now }
    requires ranks { words.now.ranks ≡ A.ranks_of words.now.app }
    requires table { lane.old.table ≡ words.now.table }
    requires free { lane.old.owes ≡ None }
    requires next { (b : Progress) × (lane.old.progress ≡ Some b) × (slice_get b.outlines b.at ≡ Some (Puts name)) × (b.rank ≡ bin.old.lane.name.rank) }
    requires bin { IsOfBin bin.old.lane.name name }
    requires cell { IfSome J.app (λ app. A.right_cell app name cell) }
    requires room { 0 < bin.old.lane.spare }
    ensures there { OnOk result (fin.get bin.new.state.entries name ≡ Some cell) }
    ensures stored { OnOk result ((b : Progress) → lane.old.progress ≡ Some b → carried_out b.rank b.number b.at lane.new.seen ≡ true) }
    ensures same { OnErr result (bin.new ≡ bin.old) }
    ensures lane { lane.new ≡ record lane.old { seen = lane.new.seen; progress = next lane.old.progress } }
{
    let carrier = words.draw(lane, name);
    let callbacks = bin.put(words, carrier, name, cell)?;
    words.learn(lane, bin.tell(words));
    Ok(callbacks)
}

/// A hand draws the erase that its task in hand comes to, and has the bin carry it out: the cell that the entry had. It then
/// knows of this, so that the task may go on.
pub fn take_out<A: App + ListLaws, J: WordsNaming<A>>(
    words: &Words<A>,
    lane: &mut Lane,
    bin: &mut LaneBin<A, J>,
    name: CellName,
) -> A::Cell
    requires named { J.words ≡ Some words.now }
    requires ranks { words.now.ranks ≡ A.ranks_of words.now.app }
    requires table { lane.old.table ≡ words.now.table }
    requires free { lane.old.owes ≡ None }
    requires next { (b : Progress) × (lane.old.progress ≡ Some b) × (slice_get b.outlines b.at ≡ Some (Erases name)) × (b.rank ≡ bin.old.lane.name.rank) }
    requires bin { IsOfBin bin.old.lane.name name }
    requires room { 0 < bin.old.lane.spare }
    ensures cell { fin.get bin.old.state.entries name ≡ Some result }
    ensures gone { fin.get bin.new.state.entries name ≡ None }
    ensures stored { (b : Progress) → lane.old.progress ≡ Some b → carried_out b.rank b.number b.at lane.new.seen ≡ true }
    ensures lane { lane.new ≡ record lane.old { seen = lane.new.seen; progress = next lane.old.progress } }
{
    let carrier = words.draw(lane, name);
    let cell = bin.erase(words, carrier, name);
    words.learn(lane, bin.tell(words));
    cell
}
