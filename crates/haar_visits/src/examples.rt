//! Decisions and effects of units, computed by hand on small trees.
ghost use Rattle.std.specs.Prelude.{◌≡◌, ◌∷◌, [], ◌++◌, true, false, Some, None, pos, negsuc, codes};
ghost use Rattle.tree_key.specs.Keys.{root};
ghost use Rattle.haar_node.specs.declared.Func.TheVariants.{Ramp};
ghost use Rattle.haar_node.specs.declared.Node.TheVariants as node;
ghost use Rattle.haar_base.specs.declared.value.Value.TheVariants as value;
ghost use Rattle.haar_base.specs.declared.decisions.Visit.TheVariants as visit;
ghost use Rattle.haar_base.specs.declared.decisions.Combination.TheVariants as combination;
ghost use Rattle.haar_base.specs.declared.unit.Side.TheVariants.{Entry, Below, Nothing};
ghost use Rattle.haar_base.specs.Readings.{one, entry, nothing_held};
ghost use Rattle.haar_base.specs.Decisions.{bad_visit, bad_combination, done};
ghost use Rattle.haar_visits.specs.Projecting.{visit_projected, no_sides};
ghost use Rattle.haar_visits.specs.Refining.{visit_refined};
ghost use Rattle.haar_visits.specs.Coarsening.{visit_coarsened, combine_coarsened};
ghost use Rattle.haar_visits.specs.Compressing.{visit_compressed, combine_compressed};
ghost use Rattle.haar_visits.specs.Reconstructing.{visit_reconstructed};
ghost use Rattle.haar_visits.specs.Adding.{visit_added};
ghost use Rattle.haar_visits.specs.Multiplying.{visit_multiplied};
ghost use Rattle.haar_visits.specs.InnerProducts.{visit_inner, combine_inner, both_entries};
ghost use Rattle.haar_visits.specs.Sizing.{total};

/// The function 0, 1, 2, 3 of four cells: the root is split, and the last cell is a leaf with 3.
pub fn ramp_projected()
    ensures root { visit_projected 2 (Ramp (pos 0) (pos 1)) 0 0 root ≡ visit.Split (Some node.Branch) no_sides no_sides nothing_held }
    ensures cell { visit_projected 2 (Ramp (pos 0) (pos 1)) 0 0 (record { level = 2; at = 3 }) ≡ visit.Give (Some (node.Leaf (pos 3))) value.Done }
    ensures within { visit_projected 2 (Ramp (pos 0) (pos 1)) 0 2 root ≡ visit.Give (Some (node.Leaf (pos 0))) value.Done }
{}

/// Halves with the sums 1 and 5 have the sum 6 and the difference -4, and these give the halves back.
pub fn ramp_compressed_and_back()
    ensures up { combine_compressed (record { level = 1; at = 0 }) (value.Sum (pos 1)) (value.Sum (pos 5)) ≡ combination.Give (Some (node.Inner (negsuc 3))) (value.Sum (pos 6)) }
    ensures root_up { combine_compressed root (value.Sum (pos 1)) (value.Sum (pos 5)) ≡ combination.Give (Some (node.Root (pos 6) (Some (negsuc 3)))) (value.Sum (pos 6)) }
    ensures leaf { visit_compressed 2 (record { level = 2; at = 3 }) entry (Some (node.Leaf (pos 3))) ≡ visit.Give (Some node.Bare) (value.Sum (pos 3)) }
    ensures down { visit_reconstructed 2 root entry (Some (node.Root (pos 6) (Some (negsuc 3)))) ≡ visit.Split (Some node.Branch) (one (Entry (pos 1))) (one (Entry (pos 5))) nothing_held }
    ensures bare { visit_reconstructed 2 (record { level = 1; at = 1 }) (Entry (pos 5)) (Some node.Bare) ≡ visit.Give (Some (node.Leaf (pos 5))) value.Done }
{}

/// On one cell with the largest value, that value taken once stays, and taken three times overflows.
pub fn sum_that_overflows_at_a_leaf()
    ensures within { visit_added 0 (record { left = pos 1; right = pos 0 }) root both_entries (Some (node.Root (pos 16777216) None)) (Some (node.Root (pos 16777216) None))
        ≡ visit.Give (Some (node.Root (pos 16777216) None)) value.Done }
    ensures over { visit_added 0 (record { left = pos 3; right = pos 0 }) root both_entries (Some (node.Root (pos 16777216) None)) (Some (node.Root (pos 16777216) None)) ≡ bad_visit true }
{}

/// The constant 5 less the ramp 0, 1, 2, 3: below the root only the ramp has children, and the constant's halves travel.
pub fn sum_below_a_leaf()
    ensures { visit_added 2 (record { left = pos 1; right = negsuc 0 }) root both_entries (Some (node.Root (pos 20) None)) (Some (node.Root (pos 6) (Some (negsuc 3))))
        ≡ visit.Split (Some (node.Root (pos 14) (Some (pos 4)))) (record { first = Below (pos 10); second = Entry (pos 1) }) (record { first = Below (pos 10); second = Entry (pos 5) }) nothing_held }
{}

/// Two cells with 4096 and -4096 have the product -16777216; with 4097 it overflows.
pub fn product_at_the_limit()
    ensures within { visit_multiplied 0 root both_entries (Some (node.Leaf (pos 4096))) (Some (node.Leaf (negsuc 4095))) ≡ visit.Give (Some (node.Leaf (negsuc 16777215))) value.Done }
    ensures over { visit_multiplied 0 root both_entries (Some (node.Leaf (pos 4097))) (Some (node.Leaf (negsuc 4095))) ≡ bad_visit true }
{}

/// Two leaves with one sum become a leaf, other children don't, and what isn't a sum or done is bad.
pub fn leaves_merged()
    ensures same { combine_coarsened (value.Sum (pos 3)) (value.Sum (pos 3)) ≡ combination.Merge (pos 6) }
    ensures apart { combine_coarsened (value.Sum (pos 3)) (value.Sum (pos 4)) ≡ combination.Give (Some node.Branch) value.Done }
    ensures one { combine_coarsened value.Done (value.Sum (pos 3)) ≡ combination.Give (Some node.Branch) value.Done }
    ensures bad { combine_coarsened (value.Sum (pos 3)) value.Bad ≡ bad_combination true }
    ensures other { combine_coarsened (value.Count 3) (value.Sum (pos 3)) ≡ bad_combination true }
    ensures leaf { visit_coarsened 2 root entry (Some (node.Leaf (pos 8))) ≡ visit.Give (Some (node.Leaf (pos 8))) (value.Sum (pos 8)) }
{}

/// A leaf above the level is cut, and one at the level stays.
pub fn leaf_refined()
    ensures cut { visit_refined 2 1 root entry (Some (node.Leaf (pos 8))) ≡ visit.Split (Some node.Branch) (one (Below (pos 4))) (one (Below (pos 4))) nothing_held }
    ensures kept { visit_refined 2 1 (record { level = 1; at = 0 }) (Below (pos 4)) None ≡ visit.Give (Some (node.Leaf (pos 4))) value.Done }
{}

/// The inner product of 0, 1, 2, 3 with itself is 14: the sums and differences of the root are 6 and -4, and its children add
/// 1 each.
pub fn inner_product_of_a_ramp()
    ensures root { combine_inner 2 root (record { first = record { sum = pos 6; difference = negsuc 3 }; second = record { sum = pos 6; difference = negsuc 3 } }) (value.Product (pos 1)) (value.Product (pos 1))
        ≡ combination.Give None (value.Product (pos 14)) }
    ensures below { combine_inner 2 (record { level = 1; at = 0 }) (record { first = record { sum = pos 0; difference = negsuc 0 }; second = record { sum = pos 0; difference = negsuc 0 } }) (value.Product (pos 0)) (value.Product (pos 0))
        ≡ combination.Give None (value.Product (pos 1)) }
    ensures leaf { visit_inner 2 (record { level = 2; at = 0 }) both_entries (Some node.Bare) (Some node.Bare) ≡ visit.Give None (value.Product (pos 0)) }
{}

/// Counts are added, and anything else is bad.
pub fn counts_added()
    ensures sum { total (value.Count 3 ∷ value.Count 4 ∷ []) ≡ value.Count 7 }
    ensures bad { total (value.Count 3 ∷ value.Bad ∷ []) ≡ value.Bad }
    ensures over { total (value.Count 18446744073709551615 ∷ value.Count 1 ∷ []) ≡ value.Bad }
{}

/// Nothing can be done with a bad node, with a node of the other form, with children at the deepest level, or with sums that
/// aren't both even or both odd.
pub fn wrong_inputs_are_bad()
    ensures bad_node { visit_compressed 2 root entry (Some node.Bad) ≡ bad_visit true }
    ensures other_form { visit_reconstructed 2 root entry (Some (node.Leaf (pos 3))) ≡ bad_visit true }
    ensures no_cell { visit_refined 2 1 root entry None ≡ bad_visit true }
    ensures deepest { visit_coarsened 2 (record { level = 2; at = 0 }) entry (Some node.Branch) ≡ bad_visit true }
    ensures odd { visit_reconstructed 2 root entry (Some (node.Root (pos 6) (Some (pos 3)))) ≡ bad_visit true }
    ensures not_divided { visit_multiplied 1 root both_entries (Some (node.Leaf (pos 3))) (Some (node.Leaf (pos 2))) ≡ bad_visit true }
    ensures undone { done value.Done value.Bad ≡ combination.Give None value.Bad }
    ensures not_whole { combine_inner 2 root nothing_held (value.Product (pos 1)) (value.Product (pos 0)) ≡ combination.Give None value.Bad }
{}
