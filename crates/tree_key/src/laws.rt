//! What holds of all keys, boxes and places: each function's contract is a law, and its body is empty.
ghost use Rattle.std.specs.Prelude.{◌≡◌};
ghost use Rattle.std.specs.Cmp.{IsTotalOrder};
ghost use Rattle.tree_key.specs.Keys.{key_cmp};
ghost use Rattle.tree_key.specs.Laws.{BoxesNest, ChildrenHalveTheBox, ParentOfChild, ChildOfParent, AncestorOfChild, AncestorOfAncestor, ChildIsKey, ParentIsKey, AncestorIsKey, PlacesDiffer, PlacesAreInRange, PlacesAreInOrder, OrderTellsApart, OneKeyOnEachLevel};

use crate::key::Key;
use std::cmp::Ordering;

/// A key contains another exactly where, at a depth that neither is below, each cell of the other's box is a
/// cell of its own.
pub fn boxes_nest()
    ensures { BoxesNest }
{}

/// Above the depth, the left child's box is the first half of a key's box and the right child's is the second:
/// a cell is in the key's box exactly where it is in one of the two, and none is in both.
pub fn children_halve_the_box()
    ensures { ChildrenHalveTheBox }
{}

/// A child's parent is the key that it is a child of, a key with a parent is one of the parent's two children,
/// and the ancestors of a key are reached one by one.
pub fn children_have_their_parent()
    ensures parent { ParentOfChild }
    ensures child { ChildOfParent }
    ensures above { AncestorOfChild }
    ensures further { AncestorOfAncestor }
{}

/// What is reached from a key is a key: its children where it is above level 16, its parent, its ancestors.
pub fn relatives_are_keys()
    ensures child { ChildIsKey }
    ensures parent { ParentIsKey }
    ensures ancestor { AncestorIsKey }
{}

/// No two keys have one place, places go from 1 to below two to the 17, and they are in the order of the keys.
pub fn places_tell_keys_apart()
    ensures differ { PlacesDiffer }
    ensures range { PlacesAreInRange }
    ensures order { PlacesAreInOrder }
{}

/// On each level down to the depth, exactly one key has a given cell in its box.
pub fn a_cell_has_one_key_on_each_level()
    ensures { OneKeyOnEachLevel }
{}

/// The order of keys is a total one, and ties no two different keys: a sorted map has one entry for each.
pub fn keys_are_in_total_order()
    ensures total { IsTotalOrder key_cmp }
    ensures apart { OrderTellsApart }
{}

/// How two keys compare, which is what `cmp` of `Ord` answers: by level, and then by translation.
pub fn order(a: Key, b: Key) -> Ordering
    ensures { result ≡ key_cmp a b }
{
    a.cmp(&b)
}
