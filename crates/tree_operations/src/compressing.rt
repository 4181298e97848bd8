//! From sums at leaves to differences.
ghost use Rattle.std.specs.Prelude.{◌≡◌, IfOk, OnOk, true};
ghost use Rattle.tree_model.specs.StoredTrees.{difference_at};
ghost use Rattle.tree_model.specs.Trees.{Tree, box_sum};
ghost use Rattle.tree_operations.specs.Filling.{Fills};
ghost use Rattle.tree_operations.specs.Numbers.{KeepsLeaves};

use crate::numbers::{Numbers, number_at, set_number};
use haar_node::join;
use tree_key::{Key, OutOfMemory};

// Sets the differences at a key and below it, and returns the sum over its box.
pub fn compress_below(
    leaves: &Numbers,
    key: Key,
    differences: &mut Numbers,
) -> Result<i64, OutOfMemory>
    requires { (t : Tree) × KeepsLeaves t leaves.now × (t.shape key ≡ true) }
    ensures sum { IfOk result (λ sum. (t : Tree) →
        KeepsLeaves t leaves.now → t.shape key ≡ true → sum ≡ box_sum t key) }
    ensures differences { OnOk result ((t : Tree) →
        KeepsLeaves t leaves.now → t.shape key ≡ true →
        Fills key (difference_at t) differences.old differences.new) }
{
    match number_at(leaves, key) {
        Some(sum) => Ok(sum),
        None => {
            let left = compress_below(leaves, key.child(false), differences)?;
            let right = compress_below(leaves, key.child(true), differences)?;
            let (sum, difference) = join(left, right);
            set_number(differences, key, difference)?;
            Ok(sum)
        }
    }
}
