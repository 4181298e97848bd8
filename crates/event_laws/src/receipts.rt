//! What holds at each receipt of a run, for any application: each function's contract is a law, and its body is empty.
//!
//! An application shows by these what its bins hold and what a receipt counts, from its plain data and with no
//! induction on lists of events: it names the units that are spawned, each with its home and its effects.
ghost use Rattle.event_laws.specs.Follows.{program_from};
ghost use Rattle.event_laws.specs.Receipts.{TasksAreDone, MessagesAreHandedOn, StartsAreDone, SpawnsAreDone, NothingComesLater, NothingComesEarlier, StagesAreTold, EntriesLie, EntriesStay, NoneIsWrittenLater, NoDroppedIsWritten, UnitsAreDone, UnitsFillTheBins, TotalsAreCounted};

use crate::list_laws::ListLaws;
use app_core::Facts;

/// At a receipt each task has carried out all of its effects, and what each message carries was delivered; each start
/// before the fence, and each spawn of a unit that is done, has its unit done at its home.
pub fn all_before_the_fence_is_done<A: Facts>()
    ensures tasks { (app : A) → TasksAreDone (A.ranks_of app) (program_from 1 (A.kinds_of app) (A.starts_of app)) (A.may_do app) }
    ensures messages { (app : A) → MessagesAreHandedOn (A.ranks_of app) (program_from 1 (A.kinds_of app) (A.starts_of app)) (A.may_do app) }
    ensures starts { (app : A) → StartsAreDone (A.ranks_of app) (program_from 1 (A.kinds_of app) (A.starts_of app)) (A.may_do app) }
    ensures spawns { (app : A) → SpawnsAreDone (A.ranks_of app) (program_from 1 (A.kinds_of app) (A.starts_of app)) (A.may_do app) }
{}

/// Where labels tell how many fences come before their units, a task was submitted before the receipt exactly where it is
/// before the fence by its label.
pub fn nothing_before_the_fence_comes_later<A: Facts>()
    ensures later { (app : A) → NothingComesLater (A.ranks_of app) (program_from 1 (A.kinds_of app) (A.starts_of app)) (A.may_do app) }
    ensures earlier { (app : A) → NothingComesEarlier (A.ranks_of app) (program_from 1 (A.kinds_of app) (A.starts_of app)) (A.may_do app) }
{}

/// Labels tell this where the units of each command have it in their labels.
pub fn labels_tell_the_fences_before<A: Facts>()
    ensures { (app : A) → StagesAreTold (A.kinds_of app) (A.starts_of app) (A.may_do app) }
{}

/// An entry lies in its bin at a receipt where a unit has put it and none has erased it; and from then on, where only
/// units before the fence put or erase it.
pub fn entries_lie_where_they_were_put<A: Facts>()
    ensures now { (app : A) → EntriesLie (A.ranks_of app) (program_from 1 (A.kinds_of app) (A.starts_of app)) (A.may_do app) }
    ensures later { (app : A) → EntriesStay (A.ranks_of app) (program_from 1 (A.kinds_of app) (A.starts_of app)) (A.may_do app) }
{}

/// An entry that only units before a fence put or erase isn't put or erased after the fence has a receipt.
pub fn nothing_is_written_after_the_fence<A: Facts>()
    ensures { (app : A) → NoneIsWrittenLater (A.ranks_of app) (program_from 1 (A.kinds_of app) (A.starts_of app)) (A.may_do app) }
{}

/// An entry isn't put or erased after a receipt of a fence at which its version is dropped.
pub fn nothing_dropped_is_written<A: ListLaws>()
    ensures { (app : A) → NoDroppedIsWritten (A.ranks_of app) (program_from 1 (A.kinds_of app) (A.starts_of app)) (A.may_do app) (A.dropped_of app) }
{}

/// Where an application names the units of a kind that come up before a fence, these are done at its receipt, and an entry
/// that only they put or erase lies in its bin where one of them puts it and none erases it.
pub fn named_units_are_done<A: Facts>()
    ensures units { (app : A) → UnitsAreDone (A.ranks_of app) (program_from 1 (A.kinds_of app) (A.starts_of app)) (A.may_do app) }
    ensures entries { (app : A) → UnitsFillTheBins (A.ranks_of app) (program_from 1 (A.kinds_of app) (A.starts_of app)) (A.may_do app) }
{}

/// Where it names all units that come up before a fence, the receipt counts as many tasks, and as many messages as their
/// effects and the starts before the fence send.
pub fn named_units_are_counted<A: Facts>()
    ensures { (app : A) → TotalsAreCounted (A.ranks_of app) (program_from 1 (A.kinds_of app) (A.starts_of app)) (A.may_do app) }
{}
