//! Laws about small runs, each with an event that may come next and with one that may not. Each function's contract is
//! a law, and its body is empty.
ghost use Rattle.std.specs.Prelude.{[], ◌∷◌};
ghost use Rattle.event_lists.specs.declared.event.Event.TheVariants.{Submitted, Ran, ReadHandled, ReadSent, Enter};
ghost use Rattle.event_lists.specs.TaskRuns.{label, main_does};
ghost use Rattle.event_lists.specs.RefusedRuns.{Accepts, Refuses, sends_to, submits, one_task, hand_takes, puts_in, one_need, need_and_due, giver_in_hand, spawned_a_need, spawned_its_due, in_a_fence, at_work, two_readings, found_different, found_equal, received, leaves};

/// A message goes to another rank that there is.
pub fn sends_are_judged()
    ensures to_another_rank { Accepts 2 0 [] (sends_to 1) }
    ensures to_its_own_rank { Refuses 2 0 [] (sends_to 0) }
    ensures to_no_rank { Refuses 2 0 [] (sends_to 2) }
{}

/// Events are on lanes of the ranks and hands that there are, and of sixteen bins.
pub fn lanes_are_judged()
    ensures rank { Accepts 2 0 [] (main_does 1 (Enter 1)) }
    ensures no_rank { Refuses 2 0 [] (main_does 2 (Enter 1)) }
    ensures worker { Accepts 1 2 one_task (hand_takes 2) }
    ensures no_worker { Refuses 1 2 one_task (hand_takes 3) }
    ensures bin { Accepts 1 0 [] (puts_in 15) }
    ensures no_bin { Refuses 1 0 [] (puts_in 16) }
{}

/// A spawner names a need in one spawn alone, and a task doesn't need its own due.
pub fn needs_are_judged()
    ensures another_need { Accepts 1 0 one_need (submits 1 (label 4 ∷ [])) }
    ensures need_of_two_spawns { Refuses 1 0 one_need (submits 1 (label 3 ∷ [])) }
    ensures not_the_own_due { Accepts 1 0 giver_in_hand (submits 1 (label 4 ∷ [])) }
    ensures the_own_due { Refuses 1 0 giver_in_hand (submits 1 (label 3 ∷ [])) }
{}

/// A main enters a fence, and a task ends as run, when each need of its spawns is the due of one of them.
pub fn needs_without_dues_are_judged()
    ensures enter { Accepts 1 0 need_and_due (main_does 0 (Enter 1)) }
    ensures enter_without_a_due { Refuses 1 0 one_need (main_does 0 (Enter 1)) }
    ensures ran { Accepts 1 0 spawned_its_due (main_does 0 (Ran 0 0 0)) }
    ensures ran_without_a_due { Refuses 1 0 spawned_a_need (main_does 0 (Ran 0 0 0)) }
{}

/// Inside a fence a main takes tasks, and spawns for the one in hand; with nothing in hand it doesn't spawn. It reads
/// the counts with nothing in hand alone.
pub fn work_in_a_fence_is_judged()
    ensures takes { Accepts 2 0 in_a_fence (hand_takes 0) }
    ensures submits_for_its_task { Accepts 2 0 at_work (submits 1 []) }
    ensures sends_for_its_task { Accepts 2 0 at_work (sends_to 1) }
    ensures submits_by_itself { Refuses 2 0 in_a_fence (submits 1 []) }
    ensures sends_by_itself { Refuses 2 0 in_a_fence (sends_to 1) }
    ensures reads { Accepts 2 0 in_a_fence (main_does 0 (ReadHandled 0 1 1)) }
    ensures reads_at_work { Refuses 2 0 at_work (main_does 0 (ReadHandled 0 1 1)) }
{}

/// An attempt that found ran and submitted different doesn't complete its pass and is opened again, and so the fence can
/// end. One that found them equal isn't opened again, nor one that didn't read submitted.
pub fn opening_again_is_judged()
    ensures different { Accepts 1 0 found_different (main_does 0 (ReadHandled 0 1 1)) }
    ensures different_completes_no_pass { Refuses 1 0 found_different (main_does 0 (ReadSent 0 1 1)) }
    ensures equal { Refuses 1 0 found_equal (main_does 0 (ReadHandled 0 1 1)) }
    ensures submitted_is_not_read { Refuses 1 0 two_readings (main_does 0 (ReadHandled 0 1 1)) }
    ensures the_fence_ends { Accepts 1 0 received leaves }
{}
