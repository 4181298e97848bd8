//! Edges whose ends have two owners, and erased keys: laws, each the contract of a function that does nothing.
ghost use Rattle.tree_model.specs.TotalLaws.{CommonInterior, CutsAboveLeaves, CutsBelowInterior, ErasedCuts, ErasedKeys, IntersectionIsShape, KeysOfShapes};

/// The keys of a shape that have another owner than their parent are found below the keys that have children, or on the ways
/// up from the leaves.
pub fn cuts_are_counted_by_leaves()
    ensures interior { CutsBelowInterior }
    ensures leaves { CutsAboveLeaves }
{}

/// A shape has one key more than twice those that have children.
pub fn shapes_are_counted_by_their_interior()
    ensures { KeysOfShapes }
{}

/// The keys of two shapes are a shape. Those of them that have children have children in both.
pub fn intersections_are_shapes()
    ensures shape { IntersectionIsShape }
    ensures interior { CommonInterior }
{}

/// The keys that coarsening erases are those of the tree without those that stay.
pub fn erased_keys_are_the_rest()
    ensures keys { ErasedKeys }
    ensures cuts { ErasedCuts }
{}
