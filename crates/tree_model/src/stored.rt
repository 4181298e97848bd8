//! What an evaluator of commands rests on: laws, each the contract of a function that does nothing.
ghost use Rattle.tree_model.specs.StoredTrees.{WholeBoxesAreEven, WholeBoxesHaveOneValue, ProductsOfValues, ProductsOverflow, LeavesWithin, ValuesDontOverflow, ProjectionsHaveValues, RefinedHaveValues, LeavesInOrder, DifferencesInOrder, LeavesAtKeys};

/// On a box that a tree doesn't cut, be it a leaf's or one below it, the halves have one sum, and the sum is a multiple of
/// the width, within the limit of values.
pub fn whole_boxes_have_one_value()
    ensures even { WholeBoxesAreEven }
    ensures sum { WholeBoxesHaveOneValue }
{}

/// On a leaf of a product the sum is the width times the product of the two values, and the product overflows where that
/// is above the limit.
pub fn products_are_of_values()
    ensures sum { ProductsOfValues }
    ensures over { ProductsOverflow }
{}

/// A tree whose leaves' sums are within their limits has values that a cell may have, and such a tree doesn't overflow.
pub fn values_show_on_leaves()
    ensures leaves { LeavesWithin }
    ensures values { ValuesDontOverflow }
{}

/// Projections of functions that fit have values that a cell may have, and refining leaves the values as they are.
pub fn projections_have_values()
    ensures projections { ProjectionsHaveValues }
    ensures refined { RefinedHaveValues }
{}

/// A map that has just the numbers kept of a tree at its keys has them in key order.
pub fn kept_numbers_are_in_order()
    ensures leaves { LeavesInOrder }
    ensures differences { DifferencesInOrder }
    ensures keys { LeavesAtKeys }
{}
