//! From differences to sums at leaves.
ghost use Rattle.std.specs.Prelude.{◌≡◌, OnOk, true};
ghost use Rattle.tree_model.specs.StoredTrees.{leaf_sum_at};
ghost use Rattle.tree_model.specs.Trees.{Tree, box_sum};
ghost use Rattle.tree_operations.specs.Filling.{Fills};
ghost use Rattle.tree_operations.specs.Numbers.{KeepsDifferences};

use crate::numbers::{Numbers, number_at, set_number};
use haar_node::split;
use tree_key::{Key, OutOfMemory};

// Sets the sums of the leaves at a key and below it, from the sum over its box.
pub fn reconstruct_below(
    differences: &Numbers,
    key: Key,
    sum: i64,
    leaves: &mut Numbers,
) -> Result<(), OutOfMemory>
    requires { (t : Tree) × KeepsDifferences t differences.now × (t.shape key ≡ true) × (sum ≡ box_sum t key) }
    ensures { OnOk result ((t : Tree) →
        KeepsDifferences t differences.now → t.shape key ≡ true → sum ≡ box_sum t key →
        Fills key (leaf_sum_at t) leaves.old leaves.new) }
{
    match number_at(differences, key) {
        Some(difference) => {
            let (left, right) = split(sum, difference);
            reconstruct_below(differences, key.child(false), left, leaves)?;
            reconstruct_below(differences, key.child(true), right, leaves)
        }
        None => set_number(leaves, key, sum),
    }
}
