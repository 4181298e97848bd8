//! What holds of all decisions of units: each function's contract is a law, and its body is empty.
ghost use Rattle.haar_visits.specs.Forms.{VisitsHaveTheirForm, CombinationsHaveTheirForm};

/// Whatever a unit finds, it puts a node exactly where its command puts one then; it has children visited only above the
/// depth, and merges children only for `coarsen`.
pub fn decisions_have_their_form()
    ensures visits { VisitsHaveTheirForm }
    ensures combinations { CombinationsHaveTheirForm }
{}
