//! Examples of messages and tasks that wait beside their carriers.
ghost use Rattle.std.specs.Prelude.{◌≡◌, ◌≢◌, ◌<◌, ◌∷◌, None, Some, [], true, false, slice_get};
ghost use Rattle.app_core.specs.declared.outline.Outline.TheVariants.{Spawn};
ghost use Rattle.event_lists.specs.declared.event.Event.TheVariants.{TookTask};
ghost use Rattle.event_lists.specs.Events.{main_of, in_hand};
ghost use Rattle.event_laws.specs.Follows.{Start, program_at};

use crate::laws::known_needs_stay_known;
use crate::{Carried, CarriedLoad, WordsNaming};
use app_core::{Facts, Label};
use std::collections::VecDeque;
use std::sync::{Mutex, Wait};
use world_words::examples::{serve, start};
use world_words::{Carrier, Lane, Told, Words};

/// The load of a message: a unit without a due, which is to be submitted where it arrives.
#[derive(Drop)]
pub struct Note {
    pub unit: Label,
}

impl CarriedLoad for Note {
    ghost use Rattle.std.specs.Prelude.{None};
    ghost use Rattle.world_carriers.specs.Carried.{CarriesUnit};

    ghost is_load_of = { λ note c. CarriesUnit note.unit None c };
}

/// The main of a rank starts a unit at another rank, and puts it beside its carrier into an inbox. False where there is
/// no memory for it.
pub fn post<A: Facts, J: WordsNaming<A>, R: Wait>(
    rt: &R,
    words: &Words<A>,
    inbox: &Mutex<VecDeque<Carried<A, J, Note>>>,
    lane: &mut Lane,
    to: u32,
    unit: Label,
) -> bool
    requires named { J.words ≡ Some words.now }
    requires table { lane.old.table ≡ words.now.table }
    requires lane { (lane.old.mine ≡ []) × (lane.old.owes ≡ None) × (0 < lane.old.spare) × (lane.old.name ≡ main_of lane.old.name.rank) }
    requires target { (to < words.now.ranks) × (to ≢ lane.old.name.rank) }
    requires next { slice_get (program_at lane.old.name.rank words.now.program) 0 ≡ Some (Start (Spawn unit None [] to)) }
{
    let carrier = start(words, lane, to, unit);
    let carried = Carried::new(Note { unit }, carrier, to);
    inbox.lock(rt).push_back(carried).is_ok()
}

/// Another main takes a unit out of an inbox and, where it goes to the main's rank, submits it. The task comes back.
pub fn fetch<A: Facts, J: WordsNaming<A>, R: Wait>(
    rt: &R,
    words: &Words<A>,
    inbox: &Mutex<VecDeque<Carried<A, J, Note>>>,
    lane: &mut Lane,
) -> Option<Carrier>
    requires named { J.words ≡ Some words.now }
    requires table { lane.old.table ≡ words.now.table }
    requires lane { (lane.old.mine ≡ []) × (lane.old.owes ≡ None) × (2 < lane.old.spare) × (lane.old.name.bin ≡ false) }
{
    let carried = inbox.lock(rt).pop_front()?;
    if carried.to() != lane.name().rank {
        return None;
    }
    let (note, carrier) = carried.into_parts();
    Some(serve(words, lane, carrier, note.unit))
}

/// The load of a task that is ready: its number, and what a lane told that knew its needs as given.
#[derive(Drop)]
pub struct Job {
    pub number: u64,
    pub told: Told,
}

impl CarriedLoad for Job {
    ghost use Rattle.std.specs.Prelude.{◌≡◌};
    ghost use Rattle.event_lists.specs.declared.event.TaskName.{TaskName};
    ghost use Rattle.world_rule.specs.Owing.{NeedsKnown};
    ghost use Rattle.world_carriers.specs.Carried.{CarriesTask};

    ghost is_load_of = { λ job c. ((task : TaskName) × CarriesTask job.number task c) × (job.told.table ≡ c.table) × NeedsKnown c.owed.pending c.seen job.told.seen };
}

/// A lane learns that the needs of a task were given, and takes the task in hand; not where it goes to another rank.
pub fn take_up<A: Facts, J: WordsNaming<A>>(
    words: &Words<A>,
    lane: &mut Lane,
    carried: Carried<A, J, Job>,
) -> bool
    requires named { J.words ≡ Some words.now }
    requires table { lane.old.table ≡ words.now.table }
    requires room { 0 < lane.old.spare }
    requires free { (lane.old.owes ≡ None) × (in_hand lane.old.mine ≡ None) × (lane.old.name.bin ≡ false) }
    ensures taken { result ≡ true → lane.new.mine ≡ TookTask lane.old.name.rank carried.load.number ∷ lane.old.mine }
{
    if carried.to() != lane.name().rank {
        return false;
    }
    known_needs_stay_known();
    let (job, carrier) = carried.into_parts();
    words.learn(lane, job.told);
    words.take_in(lane, carrier);
    true
}
