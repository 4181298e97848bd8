//! Coarsened trees, and the number of keys: laws, each the contract of a function that does nothing.
ghost use Rattle.tree_model.specs.CoarseningLaws.{WholeBoxesAreConstant, ConstantFromHalves, CoarsenedIsTree, CoarsenedHaveValues, CoarsenedChildren, CoarsenedLeaves, CoarsenedIsLeast, KeysFromInterior, KeysFromLeaves};

/// On a box that a tree doesn't cut all values are the same. On another box they are exactly where they are on both
/// halves, and the halves have one sum.
pub fn boxes_are_constant_by_halves()
    ensures whole { WholeBoxesAreConstant }
    ensures halves { ConstantFromHalves }
{}

/// A coarsened tree is a tree, and keeps its values within the limit.
pub fn coarsened_trees_are_trees()
    ensures tree { CoarsenedIsTree }
    ensures values { CoarsenedHaveValues }
{}

/// In a coarsened tree the keys with children are those on whose box the values aren't all the same.
pub fn coarsened_leaves_are_constant()
    ensures children { CoarsenedChildren }
    ensures leaves { CoarsenedLeaves }
{}

/// Each tree with the same values has all keys of the coarsened one.
pub fn coarsened_trees_are_least()
    ensures { CoarsenedIsLeast }
{}

/// A tree has one key more than twice its keys with children, and one fewer than twice its leaves.
pub fn keys_are_counted_by_leaves()
    ensures interior { KeysFromInterior }
    ensures leaves { KeysFromLeaves }
{}
