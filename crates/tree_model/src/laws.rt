//! Laws of the model, each the contract of a function that does nothing.
ghost use Rattle.tree_model.specs.Laws.{ValuesStayWithin, ProjectionsAreTrees, LeavesAreConstant, RowsFollow, LeavesFollow};

/// At each cell of its depth a function that fits has a value of at most two to the 24 in absolute value.
pub fn values_stay_within_limits()
    ensures { ValuesStayWithin }
{}

/// What `project` makes is a function with a shape: a value for each cell, a finite binary tree of keys, and one value on
/// the box of each leaf.
pub fn projections_are_trees()
    ensures { ProjectionsAreTrees }
{}

/// The sum over a leaf's box is the box's width times the function's value at its first cell.
pub fn leaves_are_constant()
    ensures { LeavesAreConstant }
{}

/// A projected shape has the root, and below each row the children of the keys that are split.
pub fn rows_follow()
    ensures { RowsFollow }
{}

/// The leaves of a projected tree in key order are, row by row, the keys that aren't split.
pub fn leaves_follow()
    ensures { LeavesFollow }
{}
