//! What holds of the units of commands on trees: each function's contract is a law, and its body is empty.
//!
//! An application of trees meets the laws of `App` and `ListLaws` by these. `may` of the laws is its `may_do`: what a unit
//! with a label may do. It is within `Allowed` whatever overflows (`MayIsAllowed`), and is the plan for commands before
//! the first overflow (`MayIsPlanned`); `decided_steps_are_allowed` gives both.
ghost use Rattle.std.specs.Prelude.{ℕ};
ghost use Rattle.haar_units.specs.Laws.{LabelsFormATree, FuturesHaveOneCreator, UnitsArePlaced, EntriesArePutOnce, EntriesAreErasedOnce, ErasersWait, LabelsTellTheFences, CommandsAreBeforeTheFence, UnitsAreKnown, PlansAreAllowed};
ghost use Rattle.haar_units.specs.Totals.{ReceiptsCountTheTotals};
ghost use Rattle.haar_units.specs.StepLaws.{StepsKeepTheLaws, StartsKeepTheLaws};
ghost use Rattle.app_core.specs.Given.{Given};
ghost use Rattle.app_core.specs.Inputs.{Fits, AreRightInputs};
ghost use Rattle.app_core.specs.Outlines.{outlines};
ghost use Rattle.haar_units.specs.Decisions.{DecidedStepsAreAllowed, DecidedStepsAreAllowedAnywhere};
ghost use Rattle.haar_units.specs.Places.{PlacesHaveKeys, KeysHavePlaces};
ghost use Rattle.haar_units.specs.Distributions.{KeysAreTraversals, TotalsAreOfKeys, SizesAreOfRanks, HoldsAreOfKeys, CountsAddUp, RootIsAtZero, OwnersAreRanks};
ghost use Rattle.haar_units.specs.ModelJobs.{JobsAreTraversed, HoldsAreTrees, SizesAddUp, ReadsAreVersions, TotalsAreSerial, FencesHaveNumbers};
ghost use Rattle.haar_units.specs.Drops.{DroppedIsWritten, DroppedStaysUnread, DropsComeOnce, UsedUpIsDropped};
ghost use Rattle.haar_units.specs.JobLaws.{JobBinsAreHeld, JobReceiptsAreSerial};
ghost use Rattle.haar_units.specs.ListLaws.{RunsKeepTheLaws};
ghost use Rattle.haar_units.specs.Bins.{BinsAreHeld, PlacesAreDifferent};

use app_core::{App, Facts};

/// Whatever overflows, a unit's label determines the label of its spawner, its due, its home, its needs and how many fences
/// come before it, and a future's label determines its creator.
pub fn labels_determine_units<A: Facts>()
    ensures tree { (app : A) → LabelsFormATree (A.may_do app) }
    ensures futures { (app : A) → FuturesHaveOneCreator (A.may_do app) }
    ensures places { (app : A) → UnitsArePlaced (A.may_do app) }
    ensures stages { (app : A) → LabelsTellTheFences (A.may_do app) }
{}

/// Whatever overflows, in each run one unit puts an entry and one erases it, after it was put.
pub fn entries_are_put_and_erased_once<A: Facts>()
    ensures put { (app : A) → EntriesArePutOnce (A.may_do app) }
    ensures erased { (app : A) → EntriesAreErasedOnce (A.may_do app) }
    ensures later { (app : A) → ErasersWait (A.may_do app) }
{}

/// For commands whose units do only what is planned, just the planned units are spawned, each at its home and with its
/// plan.
pub fn units_are_known<A: Facts>()
    ensures of_fence { (app : A) → CommandsAreBeforeTheFence (A.may_do app) }
    ensures units { (app : A) → UnitsAreKnown (A.may_do app) }
{}

/// If each command visits a shape, what is planned is allowed. So there is a relation that meets the premises of all laws.
pub fn plans_are_allowed()
    ensures { PlansAreAllowed }
{}

/// At the receipt of a fence and from then on, the bins hold just the entries of the keys that a command before the fence
/// visits and doesn't erase, each on its owner, if the units of this command do what is planned, whatever others do.
pub fn bins_are_held<A: Facts>()
    ensures bins { (app : A) → BinsAreHeld (A.may_do app) }
    ensures different { PlacesAreDifferent }
{}

/// If the units of all commands before a fence do what is planned, the rows of its receipt add up to the total of these
/// commands: a task for each visited key, each with visited children and each erased one; two messages for each visited key
/// with another owner than its parent, and one for each such erased key; and what `size` adds.
pub fn receipts_count_the_totals<A: Facts>()
    ensures { (app : A) → ReceiptsCountTheTotals (A.may_do app) }
{}

/// What a label allows keeps the laws of an application on single steps, and the starts of a command keep those on starts.
pub fn steps_keep_the_laws()
    ensures steps { StepsKeepTheLaws }
    ensures starts { StartsKeepTheLaws }
{}

/// If each step of an application decides for one of the actions, units do what is allowed; if a step decides for the planned
/// action on right inputs, units of sound commands do what is planned. The first holds at any number of ranks.
pub fn decided_steps_are_allowed<A: App>()
    ensures steps { (app : A) → DecidedStepsAreAllowed {U = A.Unit} {G = Given A.Value A.Cell} (A.may_do app) (A.label_of app) (A.is_unit app)
        (λ unit given. Fits (A.needs_of app unit) (A.reads_of app unit) given)
        (λ unit given. AreRightInputs (A.right_value app) (A.right_cell app) (A.right_size app)
        (A.needs_of app unit) (A.reads_of app unit) (A.counts_of app unit) (A.home_of app unit (A.ranks_of app)) given)
        (λ unit given. outlines (A.label_of app) (A.due_of app) (A.home_of app) (A.kept_at app) (A.ranks_of app) (A.step_of app unit given)) }
    ensures any_ranks { (app : A) (ranks : ℕ) → DecidedStepsAreAllowedAnywhere {U = A.Unit} {G = Given A.Value A.Cell} (A.label_of app) (A.is_unit app)
        (λ unit given. Fits (A.needs_of app unit) (A.reads_of app unit) given)
        (λ unit given. outlines (A.label_of app) (A.due_of app) (A.home_of app) (A.kept_at app) ranks (A.step_of app unit given)) }
{}

/// Each place from 1 has one key, and each key is the key of its place.
pub fn places_are_of_keys()
    ensures keys { PlacesHaveKeys }
    ensures places { KeysHavePlaces }
{}

/// A command may visit the keys of a shape, and `coarsen` may erase some of them, both children of a key or none.
pub fn keys_are_traversals()
    ensures { KeysAreTraversals }
{}

/// Each rank holds just the keys that it owns among those that are visited and not erased, and their numbers add up.
pub fn holds_are_of_keys()
    ensures keys { HoldsAreOfKeys }
    ensures sum { CountsAddUp }
{}

/// An owner map gives the root to rank 0, and each key to one of the ranks.
pub fn maps_own_keys()
    ensures root { RootIsAtZero }
    ensures rank { OwnersAreRanks }
{}

/// The tasks and messages of a command on trees are the model's total of the keys that it visits and erases, and those of
/// `size` the model's total of `size`.
pub fn totals_are_of_keys()
    ensures trees { TotalsAreOfKeys }
    ensures sizes { SizesAreOfRanks }
{}

/// Whatever overflows, every run keeps the laws of `ListLaws` on labels, futures and entries, ready to cite.
pub fn runs_keep_the_laws<A: Facts>()
    ensures { (app : A) → RunsKeepTheLaws (A.may_do app) }
{}

/// The commands of a job visit shapes. Of a version each rank holds just the keys of its tree that the rank owns, and their
/// numbers add up to the number of the tree's keys. A command reads, under a name, what the last command before it that
/// writes this name wrote.
pub fn jobs_are_traversed()
    ensures shapes { JobsAreTraversed }
    ensures holds { HoldsAreTrees }
    ensures sizes { SizesAddUp }
    ensures reads { ReadsAreVersions }
{}

/// Up to each fence, the units of a job have as many messages and tasks as the receipts of the model say.
pub fn totals_are_serial()
    ensures totals { TotalsAreSerial }
    ensures fences { FencesHaveNumbers }
{}

/// A version is dropped at the first fence that comes after its command and all commands that read it, once.
pub fn versions_are_dropped_once()
    ensures written { DroppedIsWritten }
    ensures unread { DroppedStaysUnread }
    ensures once { DropsComeOnce }
    ensures all { UsedUpIsDropped }
{}

/// At the receipt of a fence of a job of the model: the bins hold the versions that are written before it, each node on the
/// owner of its key, and the rows add up to the messages and tasks that the model's receipts have at this fence.
pub fn jobs_hold_and_count<A: Facts>()
    ensures bins { (app : A) → JobBinsAreHeld (A.may_do app) }
    ensures totals { (app : A) → JobReceiptsAreSerial (A.may_do app) }
{}
