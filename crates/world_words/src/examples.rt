//! Examples of how lanes exchange messages, tasks and what they know, on one thread and on two.
ghost use Rattle.std.specs.Prelude.{◌≡◌, ◌≢◌, ℕ, ◌+◌, ◌^◌, ◌<◌, ◌≤◌, false, Some, None, List, [], ◌∷◌, slice_get};
ghost use Rattle.app_core.specs.declared.outline.Outline.TheVariants.{Spawn};
ghost use Rattle.event_lists.specs.declared.event.Event.TheVariants.{Sent, TookMessage, Submitted, Gave, Handled};
ghost use Rattle.event_lists.specs.declared.event.Parcel.TheVariants.{Unit as Spawned, Give};
ghost use Rattle.event_lists.specs.declared.mark.Item.TheVariants.{Message, Task};
ghost use Rattle.event_lists.specs.Events.{main_of, in_hand, IsSent};
ghost use Rattle.event_laws.specs.Follows.{Start, program_at};
ghost use Rattle.world_rule.specs.declared.view.Pending.TheVariants.{Counted};
ghost use Rattle.world_rule.specs.declared.view.Load.TheVariants.{OfMessage, OfTask};
ghost use Rattle.world_rule.specs.Owing.{owed};
ghost use Rattle.world_words.specs.Lanes.{SeesMore, task_name};

use crate::lane::{Carrier, Lane, Told};
use crate::words::Words;
use app_core::{Facts, Label};
use event_lists::Parcel;
use std::thread::{Threads, join};

/// The main of a rank starts a unit at another rank.
pub fn start<A: Facts>(words: &Words<A>, lane: &mut Lane, to: u32, unit: Label) -> Carrier
    requires table { lane.old.table ≡ words.now.table }
    requires lane { (lane.old.mine ≡ []) × (lane.old.owes ≡ None) × (0 < lane.old.spare) × (lane.old.name ≡ main_of lane.old.name.rank) }
    requires target { (to < words.now.ranks) × (to ≢ lane.old.name.rank) }
    requires next { slice_get (program_at lane.old.name.rank words.now.program) 0 ≡ Some (Start (Spawn unit None [] to)) }
    ensures carrier { (n : ℕ) × (result.table ≡ lane.old.table) × (result.owed ≡ owed (Counted (Message lane.old.name.rank n)) to (OfMessage (Spawned unit None))) × IsSent lane.old.name.rank n to (Spawned unit None) result.seen }
    ensures lane { (n : ℕ) × (lane.new.mine ≡ Sent n to (Spawned unit None) ∷ []) × (lane.new.table ≡ lane.old.table) × (lane.new.name ≡ lane.old.name) × (lane.new.owes ≡ None) × (lane.new.progress ≡ lane.old.progress) × (lane.new.kept ≡ lane.old.kept) }
{
    words.sent(lane, to, Parcel::Unit { unit, due: None });
    words.pack(lane)
}

/// Another main takes the unit and submits it.
pub fn serve<A: Facts>(words: &Words<A>, lane: &mut Lane, carrier: Carrier, unit: Label) -> Carrier
    requires table { (lane.old.table ≡ words.now.table) × (carrier.table ≡ words.now.table) }
    requires lane { (lane.old.mine ≡ []) × (lane.old.owes ≡ None) × (2 < lane.old.spare) × (lane.old.name.bin ≡ false) }
    requires carrier { (rank : ℕ) × (number : ℕ) × (carrier.owed ≡ owed (Counted (Message rank number)) lane.old.name.rank (OfMessage (Spawned unit None))) × IsSent rank number lane.old.name.rank (Spawned unit None) carrier.seen }
    ensures lane { (rank : ℕ) × (number : ℕ) × (n : ℕ) × (m : ℕ) × (lane.new.mine ≡ Handled n rank number ∷ Submitted m (task_name unit [] None) ∷ TookMessage rank number ∷ []) }
    ensures same { (lane.new.table ≡ lane.old.table) × (lane.new.name ≡ lane.old.name) × (lane.new.owes ≡ None) × (lane.new.progress ≡ lane.old.progress) × (lane.new.kept ≡ lane.old.kept) }
{
    words.take_in(lane, carrier);
    words.submitted(lane, unit, &[], None);
    let task = words.pack(lane);
    words.handled(lane);
    task
}

/// Another main takes the value of a future that a message brought, and gives it. There is room for one event more.
pub fn accept<A: Facts>(words: &Words<A>, lane: &mut Lane, carrier: Carrier, future: Label)
    requires table { (lane.old.table ≡ words.now.table) × (carrier.table ≡ words.now.table) }
    requires lane { (lane.old.mine ≡ []) × (lane.old.owes ≡ None) × (3 < lane.old.spare) × (lane.old.name.bin ≡ false) }
    requires carrier { (rank : ℕ) × (number : ℕ) × (carrier.owed ≡ owed (Counted (Message rank number)) lane.old.name.rank (OfMessage (Give future))) × IsSent rank number lane.old.name.rank (Give future) carrier.seen }
    ensures lane { (rank : ℕ) × (number : ℕ) × (n : ℕ) × (lane.new.mine ≡ Handled n rank number ∷ Gave future ∷ TookMessage rank number ∷ []) }
{
    words.take_in(lane, carrier);
    words.gave(lane, future);
    words.handled(lane);
}

/// Two lanes in two threads tell what they know; each then learns the other's.
pub fn meet<A: Facts + Sync, R: Threads + Sync>(
    rt: &R,
    words: &Words<A>,
    mut one: Lane,
    mut two: Lane,
) -> (Lane, Lane)
    requires tables { (one.table ≡ words.now.table) × (two.table ≡ words.now.table) }
    ensures one { (result.0 ≡ record one { seen = result.0.seen }) × SeesMore words.now (A.may_do words.now.app) one result.0 }
    ensures two { (result.1 ≡ record two { seen = result.1.seen }) × SeesMore words.now (A.may_do words.now.app) two result.1 }
{
    let (first, second) = join(
        rt,
        move || -> (Lane, Told)
            requires { one.table ≡ words.now.table }
            ensures { (result.0 ≡ one) × (result.1.table ≡ one.table) }
        {
            let told = words.tell(&mut one);
            (one, told)
        },
        move || -> (Lane, Told)
            requires { two.table ≡ words.now.table }
            ensures { (result.0 ≡ two) × (result.1.table ≡ two.table) }
        {
            let told = words.tell(&mut two);
            (two, told)
        },
    );
    let (mut one, from_one) = first;
    let (mut two, from_two) = second;
    words.learn(&mut one, from_two);
    words.learn(&mut two, from_one);
    (one, two)
}

/// In two threads: one main starts a unit, the other lane tells what it knows.
pub fn apart<A: Facts + Sync, R: Threads + Sync>(
    rt: &R,
    words: &Words<A>,
    mut one: Lane,
    mut two: Lane,
    to: u32,
    unit: Label,
) -> (Lane, Carrier, Lane, Told)
    requires tables { (one.table ≡ words.now.table) × (two.table ≡ words.now.table) }
    requires lane { (one.mine ≡ []) × (one.owes ≡ None) × (0 < one.spare) × (one.name ≡ main_of one.name.rank) }
    requires target { (to < words.now.ranks) × (to ≢ one.name.rank) }
    requires next { slice_get (program_at one.name.rank words.now.program) 0 ≡ Some (Start (Spawn unit None [] to)) }
    ensures { (n : ℕ) × (result.0.mine ≡ Sent n to (Spawned unit None) ∷ []) }
{
    let (first, second) = join(
        rt,
        move || -> (Lane, Carrier)
            requires { (one.table ≡ words.now.table) × (one.mine ≡ []) × (one.owes ≡ None) × (0 < one.spare) × (one.name ≡ main_of one.name.rank) × (to < words.now.ranks) × (to ≢ one.name.rank) × (slice_get (program_at one.name.rank words.now.program) 0 ≡ Some (Start (Spawn unit None [] to))) }
            ensures { (n : ℕ) × (result.0.mine ≡ Sent n to (Spawned unit None) ∷ []) }
        {
            let carrier = start(words, &mut one, to, unit);
            (one, carrier)
        },
        move || -> (Lane, Told)
            requires { two.table ≡ words.now.table }
            ensures { result.0 ≡ two }
        {
            let told = words.tell(&mut two);
            (two, told)
        },
    );
    let (one, carrier) = first;
    let (two, told) = second;
    (one, carrier, two, told)
}
