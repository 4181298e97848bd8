//! What the commands make of trees and write of them: laws, each the contract of a function that does nothing.
ghost use Rattle.tree_model.specs.OperationLaws.{ConstantBelow, RefinedIsTree, WeightedSumIsTree, ProductIsTree, SumsAreLinear, ProductOnLeaves, OverflowOnLeaves};

/// A tree is constant on the box of each key that has no children in its shape, be it a leaf or below one.
pub fn trees_are_constant_below_leaves()
    ensures { ConstantBelow }
{}

/// A tree with all keys down to a level is a tree, of the same values.
pub fn refined_trees_are_trees()
    ensures { RefinedIsTree }
{}

/// A weighted sum of two trees of one depth is a tree.
pub fn weighted_sums_are_trees()
    ensures { WeightedSumIsTree }
{}

/// A product of two trees of one depth is a tree.
pub fn products_are_trees()
    ensures { ProductIsTree }
{}

/// In a weighted sum, the sums over boxes and the differences are added with the weights.
pub fn sums_are_linear()
    ensures { SumsAreLinear }
{}

/// On a leaf of a product, its sum times the box's width is the product of the two sums.
pub fn products_on_leaves()
    ensures { ProductOnLeaves }
{}

/// A tree overflows exactly where some leaf's sum is above what so many cells may have, in absolute value.
pub fn overflows_show_on_leaves()
    ensures { OverflowOnLeaves }
{}
