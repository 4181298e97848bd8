//! The definitions, computed. At depth 4 the third of the four keys of level 2 has the cells 8 to 11.
ghost use Rattle.std.specs.Prelude.{◌≡◌, true, false, None, Some};
ghost use Rattle.std.specs.declared.cmp.Ordering.TheVariants.{Less, Greater};
ghost use Rattle.tree_key.specs.Keys.{root, child, parent, ancestor, place_of, width, first_cell, key_over, key_cmp};

/// The third key of level 2 has four cells from cell 8 on, and is the one over cell 11.
fn boxes()
    ensures width { width 4 (record { level = 2; at = 2 }) ≡ 4 }
    ensures first { first_cell 4 (record { level = 2; at = 2 }) ≡ 8 }
    ensures over { key_over 4 2 11 ≡ record { level = 2; at = 2 } }
{}

/// It is the left child of the root's right child, which is its parent; the root has none.
fn relatives()
    ensures down { child (child root true) false ≡ record { level = 2; at = 2 } }
    ensures up { parent (record { level = 2; at = 2 }) ≡ Some (child root true) }
    ensures top { parent root ≡ None }
    ensures above { ancestor (record { level = 2; at = 2 }) 0 ≡ root }
{}

/// Its place is 6; it is before the fourth key of its level, and after each key of level 1.
fn places_and_order()
    ensures place { place_of (record { level = 2; at = 2 }) ≡ 6 }
    ensures before { key_cmp (record { level = 2; at = 2 }) (record { level = 2; at = 3 }) ≡ Less }
    ensures after { key_cmp (record { level = 2; at = 2 }) (child root true) ≡ Greater }
{}
