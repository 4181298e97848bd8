//! Examples that were computed by hand: each function's contract is one, and its body is empty.
ghost use Rattle.std.specs.Prelude.{◌≡◌, ◌≢◌, ℕ, false, List, [], ◌∷◌, slice_get, Contains};
ghost use Rattle.app_core.specs.declared.label.Label.{Label as LabelData};
ghost use Rattle.app_core.specs.declared.label.CellName.{CellName as CellNameData};
ghost use Rattle.app_core.specs.declared.outline.Outline.{Outline as OutlineData};
ghost use Rattle.app_core.specs.declared.outline.Outline.TheVariants as of;
ghost use Rattle.event_lists.specs.TaskRuns.{main_does};
ghost use Rattle.event_lists.specs.declared.event.Event.TheVariants.{Receipt as Receives};
ghost use Rattle.event_laws.specs.Follows.{IsRun};
ghost use Rattle.event_laws.specs.Held.{HasReceipt, IsBefore, AllSound, HasNoWriter, all_told};
ghost use Rattle.small_app.specs.declared.unit.Unit.TheVariants.{Read, Count, Guessed};
ghost use Rattle.small_app.specs.declared.guess.GuessUnit.TheVariants.{Early, Late};
ghost use Rattle.small_app.specs.Guess.{guess_entry, guess_result};
ghost use Rattle.small_app.specs.Small.{kinds, label_of, leaf_entry, kept_at, dropped_of, MayDo, MayRead, MayCount};
ghost use Rattle.small_app.specs.SmallUnits.{program, writer_of, total_of, IsSound};
ghost use Rattle.small_app.specs.SmallRun.{task_effects, whole_run, second_pass, receipt};

/// A list of 48 events of two ranks is legal and follows the application up to its first fence: a unit is sent to the
/// other rank, entries are put and one of them is erased, futures are given, one of them through a message, and the
/// fence gets its receipt after two passes. So the laws on lists and on receipts have premises that are met: the command before the
/// fence is sound and writes a version. The receipt counts as many messages and tasks as there are in the list.
pub fn a_run_up_to_a_fence_follows()
    ensures run { IsRun 2 0 (program 2) (MayDo 2) task_effects whole_run }
    ensures receipt { HasReceipt whole_run second_pass (main_does 0 (Receives receipt)) receipt }
    ensures written { (writer_of 1 ≡ Some 1) × IsSound 1 × IsBefore kinds 1 1 }
    ensures sound { AllSound kinds IsSound 1 }
    ensures counted { all_told receipt ≡ (2, 5) }
    ensures told { total_of 2 1 ≡ (2, 5) }
{}

/// What the laws on reads, counts and drops ask for is there: a unit that reads, one that counts, a version that is
/// dropped, and versions that no sound command writes.
pub fn other_premises_are_met()
    ensures read { MayRead (label_of Read) (leaf_entry false) }
    ensures counted { MayCount (label_of Count) 1 }
    ensures dropped { Contains (dropped_of 2) 1 }
    ensures unwritten { HasNoWriter writer_of IsSound 2 }
{}

/// Two units with different labels may put one entry, and one of them spawns the other where it doesn't put it. So it
/// isn't so that an entry alone tells the label of the unit that may put it.
pub fn two_units_may_put_one_entry()
    ensures early { MayDo 2 (label_of (Guessed Early)) (of.Put guess_entry ∷ of.Give guess_result (kept_at guess_result 2) ∷ []) }
    ensures late { MayDo 2 (label_of (Guessed Late)) (of.Put guess_entry ∷ of.Give guess_result (kept_at guess_result 2) ∷ []) }
    ensures apart { label_of (Guessed Early) ≢ label_of (Guessed Late) }
    ensures no_single_label { ((p q : LabelData) (os ps : List OutlineData) (i j : ℕ) (entry : CellNameData) → MayDo 2 p os → MayDo 2 q ps
        → slice_get os i ≡ Some (of.Put entry) → slice_get ps j ≡ Some (of.Put entry) → p ≡ q) → ⊥ }
    ensures spawns { MayDo 2 (label_of (Guessed Early)) (of.Spawn (label_of (Guessed Late)) (Some guess_result) [] 0 ∷ []) }
{}
