//! What holds of outlines, and of the steps and starts of any application: each function's contract is a law, and
//! its body is empty.
ghost use Rattle.std.specs.Prelude.{◌≡◌, ◌≤◌, ℕ, None};
ghost use Rattle.app_core.specs.Given.{Given};
ghost use Rattle.app_core.specs.Commands.{IsCommand, IsRankCount};
ghost use Rattle.app_core.specs.Inputs.{Fits, AreRightInputs};
ghost use Rattle.app_core.specs.Outlines.{outlines};
ghost use Rattle.app_core.specs.Spawns.{AreApart};
ghost use Rattle.app_core.specs.Laws.{LabelsAreTold, CountedIsThere, CountedIsOne, UncountedFails, NamesAtAPlace, TouchesAtAPlace, RuleGivesARank};

use crate::app::App;

/// The test of two labels, by which the laws count, passes exactly where they are equal.
pub fn labels_are_told()
    ensures { LabelsAreTold }
{}

/// What the laws say by counting is said of places: exactly one outline that passes is one at one place, and none
/// is none at any.
pub fn counts_speak_of_places()
    ensures there { CountedIsThere }
    ensures one { CountedIsOne }
    ensures none { UncountedFails }
{}

/// What one outline names or touches is named or touched by the list.
pub fn places_name_and_touch()
    ensures names { NamesAtAPlace }
    ensures touches { TouchesAtAPlace }
{}

/// A rule gives a rank below the number of ranks.
pub fn rules_give_ranks()
    ensures { RuleGivesARank }
{}

/// The runtime has at least one rank and at most 16.
pub fn ranks_are_one_to_sixteen()
    ensures bounds { (ranks : ℕ) → IsRankCount ranks → (1 ≤ ranks) × (ranks ≤ 16) }
    ensures least { IsRankCount 1 }
    ensures most { IsRankCount 16 }
{}

/// Inputs that are right for a unit that counts no version have the size 0.
pub fn sizes_are_zero_where_nothing_is_counted<A: App>()
    ensures { (app : A) (unit : A.Unit) (given : Given A.Value A.Cell) → A.counts_of app unit ≡ None
        → AreRightInputs (A.right_value app) (A.right_cell app) (A.right_size app)
        (A.needs_of app unit) (A.reads_of app unit) (A.counts_of app unit) (A.home_of app unit (A.ranks_of app)) given
        → given.size ≡ 0 }
{}

/// Inputs that are right for a unit fit it: they have a value for each need, and a cell for each entry that it reads.
pub fn right_inputs_fit<A: App>()
    ensures { (app : A) (unit : A.Unit) (given : Given A.Value A.Cell)
        → AreRightInputs (A.right_value app) (A.right_cell app) (A.right_size app)
        (A.needs_of app unit) (A.reads_of app unit) (A.counts_of app unit) (A.home_of app unit (A.ranks_of app)) given
        → Fits (A.needs_of app unit) (A.reads_of app unit) given }
{}

/// No two units that a step spawns have one due or need one future, and what one needs is the due of one.
pub fn spawns_of_a_step_are_apart<A: App>()
    ensures { (app : A) (unit : A.Unit) (given : Given A.Value A.Cell)
        → A.is_unit app unit → Fits (A.needs_of app unit) (A.reads_of app unit) given
        → AreApart (outlines (A.label_of app) (A.due_of app) (A.home_of app) (A.kept_at app)
        (A.ranks_of app) (A.step_of app unit given)) }
{}

/// No two starts of a command have one due or need one future, and what one needs is the due of one.
pub fn starts_of_a_command_are_apart<A: App>()
    ensures { (app : A) (command ranks : ℕ) → IsCommand (A.kinds_of app) command → IsRankCount ranks
        → AreApart (outlines (A.label_of app) (A.due_of app) (A.home_of app) (A.kept_at app)
        ranks (A.starting_of app command ranks)) }
{}
