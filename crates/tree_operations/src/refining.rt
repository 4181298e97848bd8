//! More keys for a tree: all down to a level.
ghost use Rattle.std.specs.Prelude.{◌≡◌, ◌≤◌, true, OnOk};
ghost use Rattle.tree_model.specs.StoredTrees.{leaf_sum_at, whole_sum};
ghost use Rattle.tree_model.specs.Operations.{refined};
ghost use Rattle.tree_model.specs.Shapes.{is_key_of};
ghost use Rattle.tree_model.specs.Trees.{Tree};
ghost use Rattle.tree_operations.specs.Filling.{Fills};
ghost use Rattle.tree_operations.specs.WholeSums.{IsKeyToRefine};

use crate::numbers::{Numbers, set_number};
use crate::whole_sums::{half_of, whole_sum};
use tree_key::{Key, OutOfMemory};

// The sum over the box of a key, where the tree with all keys down to a level doesn't cut it, from that of the tree.
pub fn whole_from_level(level: u8, key: Key, sum: Option<i64>) -> Option<i64>
    ensures { (t : Tree) → level ≤ t.depth → is_key_of t.depth key ≡ true →
        sum ≡ whole_sum t key → result ≡ whole_sum (refined level t) key }
{
    if level <= key.level() { sum } else { None }
}

// Sets the sums of the leaves at a key and below it, of a tree with all keys down to a level.
pub fn refine_below(
    leaves: &Numbers,
    level: u8,
    key: Key,
    above: Option<i64>,
    sums: &mut Numbers,
) -> Result<(), OutOfMemory>
    requires { (t : Tree) × IsKeyToRefine t leaves.now level key above }
    ensures { OnOk result ((t : Tree) → IsKeyToRefine t leaves.now level key above →
        Fills key (leaf_sum_at (refined level t)) sums.old sums.new) }
{
    let whole = whole_sum(leaves, key, above);
    match whole_from_level(level, key, whole) {
        Some(sum) => set_number(sums, key, sum),
        None => {
            let half = half_of(whole);
            refine_below(leaves, level, key.child(false), half, sums)?;
            refine_below(leaves, level, key.child(true), half, sums)
        }
    }
}
