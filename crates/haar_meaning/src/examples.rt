//! Right values and cells of small jobs, computed by hand.
ghost use Rattle.std.specs.Prelude.{◌≡◌, ◌↔◌, ℕ, Some, true, pos, negsuc};
ghost use Rattle.tree_key.specs.Keys.{root};
ghost use Rattle.haar_node.specs.declared.Node.{Node as NodeData};
ghost use Rattle.haar_node.specs.Node.{node_of};
ghost use Rattle.tree_model.specs.Nodes.Node.{Leaf, Branch, Inner, Root, Bare};
ghost use Rattle.haar_units.specs.Units.{key_future, count_future, entry};
ghost use Rattle.haar_units.specs.Places.{key_at};
ghost use Rattle.haar_base.specs.declared.operation.Operation.TheVariants.{Inner as InnerOperation, Add as AddOperation};
ghost use Rattle.haar_base.specs.declared.unit.Side.{Side as SideData};
ghost use Rattle.haar_base.specs.declared.unit.Side.TheVariants.{Entry};
ghost use Rattle.haar_base.specs.declared.value.Value.{Value as ValueData};
ghost use Rattle.haar_base.specs.declared.value.Value.TheVariants.{Done, Sum, Product, Count, Bad};
ghost use Rattle.haar_meaning.specs.PlannedJobs.{standing};
ghost use Rattle.haar_meaning.specs.PlannedJobs.Standing.{Before, At, After};
ghost use Rattle.haar_meaning.specs.RightValues.{IsRightValue};
ghost use Rattle.haar_meaning.specs.RightCells.{IsRightCell, IsRightSize};
ghost use Rattle.haar_meaning.specs.JobUnits.{IsErased};
ghost use Rattle.haar_meaning.specs.Sides.{IsRightSide};
ghost use Rattle.haar_meaning.specs.SmallJobs.{compressed_ramp, overflowing_sum, coarsened_step};

/// The ramp 0, 1, 2, 3 has the sum 6, its left half 1, and its last cell 3.
fn sums_of_a_ramp()
    ensures projected { (v : ValueData) → IsRightValue compressed_ramp (key_future 1 2) v ↔ (v ≡ Done) }
    ensures root { (v : ValueData) → IsRightValue compressed_ramp (key_future 2 1) v ↔ (v ≡ Sum (pos 6)) }
    ensures left { (v : ValueData) → IsRightValue compressed_ramp (key_future 2 2) v ↔ (v ≡ Sum (pos 1)) }
    ensures cell { (v : ValueData) → IsRightValue compressed_ramp (key_future 2 7) v ↔ (v ≡ Sum (pos 3)) }
{}

/// The inner product of the ramp with itself is 14; the difference -1 of its left half adds 1, and a leaf adds nothing.
fn inner_products_of_a_ramp()
    ensures root { (v : ValueData) → IsRightValue compressed_ramp (key_future 3 1) v ↔ (v ≡ Product (pos 14)) }
    ensures left { (v : ValueData) → IsRightValue compressed_ramp (key_future 3 2) v ↔ (v ≡ Product (pos 1)) }
    ensures cell { (v : ValueData) → IsRightValue compressed_ramp (key_future 3 4) v ↔ (v ≡ Product (pos 0)) }
{}

/// The ramp's nodes in both forms, and how many of them lie on the ranks, of which the second owns the right half.
fn entries_of_a_ramp()
    ensures branch { (cell : NodeData) → IsRightCell compressed_ramp (entry 1 1) cell ↔ (node_of cell ≡ Branch) }
    ensures leaf { (cell : NodeData) → IsRightCell compressed_ramp (entry 1 7) cell ↔ (node_of cell ≡ Leaf (pos 3)) }
    ensures root { (cell : NodeData) → IsRightCell compressed_ramp (entry 2 1) cell ↔ (node_of cell ≡ Root (pos 6) (Some (negsuc 3))) }
    ensures below { (cell : NodeData) → IsRightCell compressed_ramp (entry 2 3) cell ↔ (node_of cell ≡ Inner (negsuc 0)) }
    ensures bare { (cell : NodeData) → IsRightCell compressed_ramp (entry 2 4) cell ↔ (node_of cell ≡ Bare) }
    ensures first { (number : ℕ) → IsRightSize compressed_ramp 0 2 number ↔ (number ≡ 4) }
    ensures second { (number : ℕ) → IsRightSize compressed_ramp 1 2 number ↔ (number ≡ 3) }
{}

/// The third command overflows: on the box of the root and of the right half, and not on the left half.
fn values_of_an_overflow()
    ensures before { standing overflowing_sum 2 ≡ Before }
    ensures at { standing overflowing_sum 3 ≡ At }
    ensures after { standing overflowing_sum 4 ≡ After }
    ensures sum { (v : ValueData) → IsRightValue overflowing_sum (key_future 2 3) v ↔ (v ≡ Sum (pos 16777216)) }
    ensures root { (v : ValueData) → IsRightValue overflowing_sum (key_future 3 1) v ↔ (v ≡ Bad) }
    ensures left { (v : ValueData) → IsRightValue overflowing_sum (key_future 3 2) v ↔ (v ≡ Done) }
    ensures right { (v : ValueData) → IsRightValue overflowing_sum (key_future 3 3) v ↔ (v ≡ Bad) }
    ensures later { (v : ValueData) → IsRightValue overflowing_sum (key_future 4 1) v }
    ensures entry { (cell : NodeData) → IsRightCell overflowing_sum (entry 3 3) cell }
{}

/// The values 5, 2, 2, 2: the right half becomes one leaf with the sum 4. Until its entry is erased the last cell has a leaf.
fn values_of_a_coarsened_tree()
    ensures root { (v : ValueData) → IsRightValue coarsened_step (key_future 2 1) v ↔ (v ≡ Done) }
    ensures left { (v : ValueData) → IsRightValue coarsened_step (key_future 2 2) v ↔ (v ≡ Done) }
    ensures right { (v : ValueData) → IsRightValue coarsened_step (key_future 2 3) v ↔ (v ≡ Sum (pos 4)) }
    ensures cell { (v : ValueData) → IsRightValue coarsened_step (key_future 2 4) v ↔ (v ≡ Sum (pos 5)) }
    ensures branch { (cell : NodeData) → IsRightCell coarsened_step (entry 2 2) cell ↔ (node_of cell ≡ Branch) }
    ensures leaf { (cell : NodeData) → IsRightCell coarsened_step (entry 2 3) cell ↔ (node_of cell ≡ Leaf (pos 4)) }
    ensures later_erased { (cell : NodeData) → IsRightCell coarsened_step (entry 2 7) cell ↔ (node_of cell ≡ Leaf (pos 2)) }
    ensures erased { IsErased coarsened_step 2 (key_at 7) }
{}

/// The coarsened tree has five keys. The first of two ranks owns four of them.
fn counts_of_a_coarsened_tree()
    ensures first { (v : ValueData) → IsRightValue coarsened_step (count_future 4 0) v ↔ (v ≡ Count 4) }
    ensures second { (v : ValueData) → IsRightValue coarsened_step (count_future 4 1) v ↔ (v ≡ Count 1) }
    ensures result { (v : ValueData) → IsRightValue coarsened_step (key_future 4 1) v ↔ (v ≡ Count 5) }
{}

/// Below the root a unit of `add` knows the sum over its key's box, and one of `inner` doesn't.
fn sides_that_know_sums()
    ensures adds { (side : SideData) → IsRightSide overflowing_sum (AddOperation (pos 1) 2 (pos 1) 2) 2 (key_at 3) side ↔ (side ≡ Entry (pos 16777216)) }
    ensures root { (side : SideData) → IsRightSide overflowing_sum (AddOperation (pos 1) 2 (pos 1) 2) 2 root side ↔ (side ≡ Entry (pos 0)) }
    ensures inner { (side : SideData) → IsRightSide compressed_ramp (InnerOperation 2 2) 2 (key_at 2) side ↔ (side ≡ Entry (pos 0)) }
{}
