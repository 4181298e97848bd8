//! What units decide for is right: laws, each the contract of a function that does nothing.
ghost use Rattle.haar_right.specs.Laws.{VisitsAreRight, CombinationsAreRight};

/// On right cells, a down unit of each operation decides rightly: what it puts and gives is right, and the units of the
/// children and of its key are units of the job. So it is before the first command that overflows, at it, and after it.
pub fn visits_are_right()
    ensures { VisitsAreRight }
{}

/// On right values of its children, so does an up unit.
pub fn combinations_are_right()
    ensures { CombinationsAreRight }
{}
