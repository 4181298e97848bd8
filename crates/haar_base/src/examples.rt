//! What units find, and what they know of children, computed by hand.
ghost use Rattle.std.specs.Prelude.{◌≡◌, true, false, Some, None, pos, negsuc};
ghost use Rattle.haar_node.specs.declared.Node.TheVariants as node;
ghost use Rattle.haar_base.specs.declared.unit.Side.TheVariants.{Entry, Below, Nothing};
ghost use Rattle.haar_base.specs.declared.readings.Leaf.TheVariants.{Whole, Cut, Wrong};
ghost use Rattle.haar_base.specs.Numbers.{halves, coefficient};
ghost use Rattle.haar_base.specs.Readings.{leaf_at, leaf_sides, sums_at, sum_sides, sums};

/// The halves of 6 with the difference -4 are 1 and 5; 6 and 3 aren't both even or both odd. Two to the 41 is the largest
/// number of a node.
pub fn numbers_of_nodes()
    ensures halves { halves (pos 6) (negsuc 3) ≡ Some (pos 1, pos 5) }
    ensures odd { halves (pos 6) (pos 3) ≡ None }
    ensures largest { coefficient (negsuc 2199023255551) ≡ Some (negsuc 2199023255551) }
    ensures over { coefficient (pos 2199023255553) ≡ None }
{}

/// The leaf of a reconstructed tree covers the boxes of the keys below it.
pub fn leaves_found()
    ensures leaf { leaf_at (Entry (pos 0)) (Some (node.Leaf (pos 8))) ≡ Whole (pos 8) }
    ensures below { leaf_at (Below (pos 4)) None ≡ Whole (pos 4) }
    ensures branch { leaf_at (Entry (pos 0)) (Some node.Branch) ≡ Cut }
    ensures other_form { leaf_at (Entry (pos 0)) (Some (node.Root (pos 8) None)) ≡ Wrong }
    ensures none { leaf_at Nothing None ≡ Wrong }
    ensures sides { leaf_sides (Whole (pos 8)) ≡ Some (record { left = Below (pos 4); right = Below (pos 4) }) }
    ensures cut { leaf_sides Cut ≡ Some (record { left = Entry (pos 0); right = Entry (pos 0) }) }
    ensures odd { leaf_sides (Whole (pos 7)) ≡ None }
{}

/// Below the root of a compressed tree a unit knows the sum over its box.
pub fn sums_found()
    ensures root { sums_at true (Entry (pos 0)) (Some (node.Root (pos 6) (Some (negsuc 3)))) ≡ Some (sums (pos 6) (Some (negsuc 3))) }
    ensures inner { sums_at false (Entry (pos 5)) (Some (node.Inner (negsuc 0))) ≡ Some (sums (pos 5) (Some (negsuc 0))) }
    ensures bare { sums_at false (Entry (pos 5)) (Some node.Bare) ≡ Some (sums (pos 5) None) }
    ensures not_a_root { sums_at true (Entry (pos 5)) (Some node.Bare) ≡ None }
    ensures sides { sum_sides (sums (pos 6) (Some (negsuc 3))) ≡ Some (record { left = Entry (pos 1); right = Entry (pos 5) }) }
    ensures leaf { sum_sides (sums (pos 6) None) ≡ Some (record { left = Below (pos 3); right = Below (pos 3) }) }
{}
