//! What the ranks hold of the versions of a small job, and what its fences count, computed by hand.
ghost use Rattle.std.specs.Prelude.{◌≡◌, true, false, [], ◌∷◌, Some, None};
ghost use Rattle.haar_meaning.specs.PlannedJobs.{IsPlannedJob};
ghost use Rattle.haar_meaning.specs.SmallJobs.{overflowing_sum};
ghost use Rattle.event_lists.specs.Bins.{is_put};
ghost use Rattle.event_lists.specs.Events.{part};
ghost use Rattle.event_lists.specs.TaskRuns.{main_does};
ghost use Rattle.event_lists.specs.declared.event.Event.TheVariants.{Receipt as Receives};
ghost use Rattle.event_laws.specs.Follows.{bin_of};
ghost use Rattle.event_laws.specs.Held.{HasReceipt, AllSound, all_told};
ghost use Rattle.haar_units.specs.Units.{entry};
ghost use Rattle.haar_steps.specs.Starts.{kinds_of};
ghost use Rattle.haar_lists.specs.Lists.{IsJobRun, IsSound, writer, held, total};
ghost use Rattle.haar_lists.specs.Drops.{dropped};
ghost use Rattle.haar_lists.specs.SmallLists.{two_fences};
ghost use Rattle.haar_lists.specs.SmallRun.{halves, task_effects, first_receipt, second_receipt, first_read, second_read, whole_run};

/// The second of two ranks owns the places 3, 6 and 7. The command 2 makes the key of place 3 a leaf, and erases the
/// entries of places 6 and 7; the command 4 keeps the keys.
fn versions_are_held()
    ensures planned { IsPlannedJob two_fences }
    ensures projected { held two_fences 0 1 ≡ 5 ∷ 4 ∷ 2 ∷ 1 ∷ [] }
    ensures projected_too { held two_fences 1 1 ≡ 7 ∷ 6 ∷ 3 ∷ [] }
    ensures coarsened { held two_fences 0 2 ≡ 5 ∷ 4 ∷ 2 ∷ 1 ∷ [] }
    ensures coarsened_too { held two_fences 1 2 ≡ 3 ∷ [] }
    ensures compressed { held two_fences 1 4 ≡ 3 ∷ [] }
    ensures fence { held two_fences 0 3 ≡ [] }
    ensures no_rank { held two_fences 2 2 ≡ [] }
{}

/// `project`, `coarsen` and `compress` write the versions of their numbers; a fence and `size` write none.
fn versions_have_writers()
    ensures project { writer two_fences 1 ≡ Some 1 }
    ensures compress { writer two_fences 4 ≡ Some 4 }
    ensures fence { writer two_fences 3 ≡ None }
    ensures size { writer two_fences 6 ≡ None }
    ensures none { writer two_fences 0 ≡ None }
{}

/// `project` has 7 + 3 tasks and sends 2 messages, since only the key of place 3 has another owner than its parent;
/// `coarsen` has 7 + 3 + 2 and sends 2; `compress` has 5 + 2 and sends 2; `size` has 3 and sends 2.
fn fences_count()
    ensures first { total two_fences 1 ≡ (4, 22) }
    ensures second { total two_fences 2 ≡ (6, 29) }
    ensures end { total two_fences 3 ≡ (8, 32) }
    ensures none { total two_fences 0 ≡ (0, 0) }
{}

/// The third command overflows. So the first two are sound, and neither that one nor the next.
fn commands_are_sound()
    ensures all { IsSound two_fences 6 }
    ensures before { IsSound overflowing_sum 2 }
    ensures at { IsSound overflowing_sum 3 → ⊥ }
    ensures after { IsSound overflowing_sum 4 → ⊥ }
{}

/// Version 1 is read by `coarsen`, version 2 by `compress`, and version 4 by `size`, after the second fence.
fn versions_are_dropped()
    ensures first { dropped two_fences 1 ≡ 1 ∷ [] }
    ensures second { dropped two_fences 2 ≡ 2 ∷ [] }
    ensures end { dropped two_fences 3 ≡ 4 ∷ [] }
    ensures none { dropped two_fences 0 ≡ [] }
    ensures later { dropped two_fences 4 ≡ [] }
{}

/// A list of 101 events of two ranks is legal and follows the job `halves` to its end: `project` puts three entries, one of them
/// on rank 1; after the first fence `coarsen` puts three, and erases those of the two halves. Both fences have a receipt. So
/// the laws on bins and receipts have premises that are met at both fences.
fn a_run_of_two_fences_follows()
    ensures planned { IsPlannedJob halves }
    ensures run { IsJobRun halves task_effects whole_run 0 }
    ensures first { HasReceipt whole_run first_read (main_does 0 (Receives first_receipt)) first_receipt }
    ensures second { HasReceipt whole_run second_read (main_does 0 (Receives second_receipt)) second_receipt }
    ensures sound { AllSound (kinds_of halves.operations) (IsSound halves) 2 }
{}

/// The receipts of this list count what the totals say: `project` has 3 + 1 tasks and sends 2 messages; `coarsen` has
/// 3 + 1 + 2 and sends 3, one of them the unit that erases the right half.
fn its_receipts_are_counted()
    ensures first { all_told first_receipt ≡ (2, 4) }
    ensures first_total { total halves 1 ≡ (2, 4) }
    ensures second { all_told second_receipt ≡ (5, 10) }
    ensures second_total { total halves 2 ≡ (5, 10) }
{}

/// At its receipts the bins have what the ranks hold: of the version 1 the root and the left half on rank 0, and the right half
/// on rank 1; of the version 3 the root alone.
fn its_bins_hold_versions()
    ensures left { held halves 0 1 ≡ 2 ∷ 1 ∷ [] }
    ensures right { held halves 1 1 ≡ 3 ∷ [] }
    ensures merged { held halves 0 3 ≡ 1 ∷ [] }
    ensures merged_right { held halves 1 3 ≡ [] }
    ensures root_put { is_put (entry 1 1) (part (bin_of 0 (entry 1 1)) first_read) ≡ true }
    ensures left_put { is_put (entry 1 2) (part (bin_of 0 (entry 1 2)) first_read) ≡ true }
    ensures right_put { is_put (entry 1 3) (part (bin_of 1 (entry 1 3)) first_read) ≡ true }
    ensures right_elsewhere { is_put (entry 1 3) (part (bin_of 0 (entry 1 3)) first_read) ≡ false }
    ensures root_merged { is_put (entry 3 1) (part (bin_of 0 (entry 3 1)) second_read) ≡ true }
    ensures left_erased { is_put (entry 3 2) (part (bin_of 0 (entry 3 2)) second_read) ≡ false }
    ensures right_erased { is_put (entry 3 3) (part (bin_of 1 (entry 3 3)) second_read) ≡ false }
    ensures right_stays { is_put (entry 1 3) (part (bin_of 1 (entry 1 3)) second_read) ≡ true }
    ensures still_read { dropped halves 1 ≡ [] }
    ensures dropped_at_the_end { dropped halves 2 ≡ 1 ∷ 3 ∷ [] }
{}
