//! Laws of every application whose labels form a tree, and of every list that follows one: each function's contract
//! is a law, and its body is empty.
//!
//! An application meets the trait [`ListLaws`](crate::ListLaws) by these, from facts on its plain data alone.
ghost use Rattle.std.specs.Prelude.{◌≡◌, ◌<◌, true, ℕ};
ghost use Rattle.app_core.specs.declared.label.CellName.{CellName as CellNameData};
ghost use Rattle.event_lists.specs.Legal.{IsLane};
ghost use Rattle.event_laws.specs.Follows.{bin_of, program_from, IsRun};
ghost use Rattle.event_laws.specs.Laws.{SpawnsAreApart, TasksAreApart, BringersAreOne, EntriesAreApart, ErasesComeLater, PutsFindNothing, ErasesFindAnEntry};
ghost use Rattle.event_laws.specs.Runs.{program, may_do, task_effects, whole_run, started_twice, effect_left_out, given_too_early, put_elsewhere, ran_too_early, DoesNotFollow};

use app_core::Facts;

/// A list of a run of one rank, with a command that starts a unit, follows. It doesn't where the unit is started twice,
/// an effect is left out, the due is given before the entry is put, the entry is put in another bin, or the task ends
/// before it gave its due.
pub fn a_small_run_is_judged()
    ensures whole_run { IsRun 1 0 program may_do task_effects whole_run }
    ensures started_twice { DoesNotFollow started_twice }
    ensures effect_left_out { DoesNotFollow effect_left_out }
    ensures given_before_the_put { DoesNotFollow given_too_early }
    ensures put_in_another_bin { DoesNotFollow put_elsewhere }
    ensures ran_before_the_give { DoesNotFollow ran_too_early }
{}

/// Where each unit's label tells the label of the unit that spawns it, no two spawns of a run have one label, and no
/// two tasks.
pub fn spawns_of_a_tree_are_apart<A: Facts>()
    ensures spawns { (app : A) → SpawnsAreApart (A.ranks_of app) (program_from 1 (A.kinds_of app) (A.starts_of app)) (A.may_do app) }
    ensures tasks { (app : A) → TasksAreApart (A.ranks_of app) (program_from 1 (A.kinds_of app) (A.starts_of app)) (A.may_do app) }
{}

/// Where each future's label tells the label of the unit that creates it, no label is created by two bringers.
pub fn a_label_has_one_bringer<A: Facts>()
    ensures { (app : A) → BringersAreOne (A.ranks_of app) (program_from 1 (A.kinds_of app) (A.starts_of app)) (A.may_do app) }
{}

/// Where two units may put an entry, or erase it, only where one is the other's spawner and does it itself in place of
/// spawning the other, no two effects of begun tasks put it, or erase it.
pub fn effects_on_entries_are_apart<A: Facts>()
    ensures { (app : A) → EntriesAreApart (A.ranks_of app) (program_from 1 (A.kinds_of app) (A.starts_of app)) (A.may_do app) }
{}

/// Where the unit that erases an entry, or one above it, needs a future that is given at the same rank after the entry
/// was put, each entry that a begun task erases was put before that task was taken.
pub fn erases_come_after_puts<A: Facts>()
    ensures { (app : A) → ErasesComeLater (A.ranks_of app) (program_from 1 (A.kinds_of app) (A.starts_of app)) (A.may_do app) }
{}

/// An entry that a begun task is yet to put isn't in its bin.
pub fn an_entry_to_put_is_absent()
    ensures { PutsFindNothing }
{}

/// An entry that a begun task is yet to erase is in its bin.
pub fn an_entry_to_erase_is_present()
    ensures { ErasesFindAnEntry }
{}

/// The bin of an entry is one of the 16 of its rank, and its lane is there where the rank is.
pub fn a_rank_has_sixteen_bins()
    ensures number { (rank : ℕ) (entry : CellNameData) → (bin_of rank entry).number < 16 }
    ensures lane { (ranks workers rank : ℕ) (entry : CellNameData) → rank < ranks → IsLane ranks workers (bin_of rank entry) }
    ensures is_bin { (rank : ℕ) (entry : CellNameData) → ((bin_of rank entry).rank ≡ rank) × ((bin_of rank entry).bin ≡ true) }
{}
