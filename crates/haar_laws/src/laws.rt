//! Laws of the units of a job: each function's contract is a law, and its body is empty.
ghost use Rattle.haar_laws.specs.Laws.{UnitsAreOfForm, TotalsAreRight, StepsAreRight, StartsAreRight};

/// Each unit of a job has the form of one, so the laws of `haar_steps` on form hold of it.
pub fn units_are_of_form()
    ensures { UnitsAreOfForm }
{}

/// On right inputs each effect of a unit is right: it gives a right value, puts a right cell, or spawns a unit of the job. So
/// the unit that adds the counts of all ranks gives the number of the tree's keys.
pub fn steps_are_right()
    ensures totals { TotalsAreRight }
    ensures steps { StepsAreRight }
{}

/// The units that a command starts are units of the job.
pub fn starts_are_right()
    ensures { StartsAreRight }
{}
