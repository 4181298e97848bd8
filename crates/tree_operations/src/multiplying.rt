//! Products of trees.
ghost use Rattle.std.specs.Prelude.{◌≡◌, ◌*◌, ◌≤◌, true, IfOk, OnOk, IsErr};
ghost use Rattle.std.specs.Int.RustNames.{unsigned_abs};
ghost use Rattle.tree_key.specs.Keys.{width};
ghost use Rattle.tree_model.specs.Functions.{max_value};
ghost use Rattle.tree_model.specs.StoredTrees.{leaf_sum_at};
ghost use Rattle.tree_model.specs.Operations.{product, overflows};
ghost use Rattle.tree_model.specs.Trees.{Tree, box_sum};
ghost use Rattle.tree_operations.specs.Filling.{Fills};
ghost use Rattle.tree_operations.specs.LeafValues.{LeavesHaveValues};
ghost use Rattle.tree_operations.specs.Multiplied.{IsKeyToMultiply, IsLeafToMultiply};

use crate::command_error::CommandError;
use crate::numbers::{Numbers, set_number};
use crate::whole_sums::{half_of, whole_sum};
use haar_node::{Over, combine_mul};
use tree_key::Key;

// The sum over a leaf of the product of two trees, from the two sums over its box. An error where the product has a value
// above what a cell may have.
pub fn multiply_leaf(depth: u8, key: Key, left: i64, right: i64) -> Result<i64, Over>
    requires { (f : Tree) × (g : Tree) × IsLeafToMultiply f g depth key left right }
    ensures product { IfOk result (λ sum. (f g : Tree) →
        IsLeafToMultiply f g depth key left right → sum ≡ box_sum (product f g) key) }
    ensures within { IfOk result (λ sum. unsigned_abs sum ≤ width depth key * max_value) }
    ensures over { IsErr result → (f g : Tree) →
        IsLeafToMultiply f g depth key left right → overflows (product f g) ≡ true }
{
    combine_mul(left, right, 1 << (depth - key.level()))
}

// Sets the sums of the leaves at a key and below it, of the product of two trees. Overflow where the product has a value
// above what a cell may have.
pub fn multiply_below(
    left: &Numbers,
    right: &Numbers,
    depth: u8,
    key: Key,
    left_above: Option<i64>,
    right_above: Option<i64>,
    sums: &mut Numbers,
) -> Result<(), CommandError>
    requires { (f : Tree) × (g : Tree)
        × IsKeyToMultiply f g left.now right.now depth key left_above right_above }
    ensures product { OnOk result ((f g : Tree) →
        IsKeyToMultiply f g left.now right.now depth key left_above right_above →
        Fills key (leaf_sum_at (product f g)) sums.old sums.new) }
    ensures within { OnOk result ((f g : Tree) →
        IsKeyToMultiply f g left.now right.now depth key left_above right_above →
        LeavesHaveValues (product f g) key) }
    ensures over { result ≡ Err CommandError.Overflow → (f g : Tree) →
        IsKeyToMultiply f g left.now right.now depth key left_above right_above →
        overflows (product f g) ≡ true }
{
    let left_sum = whole_sum(left, key, left_above);
    let right_sum = whole_sum(right, key, right_above);
    match left_sum.zip(right_sum) {
        Some((one, other)) => {
            let sum = multiply_leaf(depth, key, one, other)?;
            set_number(sums, key, sum)?;
            Ok(())
        }
        None => {
            let left_half = half_of(left_sum);
            let right_half = half_of(right_sum);
            let first = key.child(false);
            multiply_below(left, right, depth, first, left_half, right_half, sums)?;
            let second = key.child(true);
            multiply_below(left, right, depth, second, left_half, right_half, sums)
        }
    }
}
