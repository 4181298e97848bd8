//! Fewer keys for a tree: none below a key on whose box all values are the same.
ghost use Rattle.std.specs.Prelude.{◌≡◌, ◌^◌, ◌≤◌, true, IfOk, IfSome, OnOk, if◌then◌else◌};
ghost use Rattle.std.specs.Int.RustNames.{unsigned_abs};
ghost use Rattle.tree_key.specs.Keys.{Key as KeyData};
ghost use Rattle.tree_model.specs.Operations.{coarsened};
ghost use Rattle.tree_model.specs.StoredTrees.{constant_sum, leaf_sum_at};
ghost use Rattle.tree_model.specs.Trees.{Tree};
ghost use Rattle.tree_operations.specs.Coarsening.{joined_sum};
ghost use Rattle.tree_operations.specs.Filling.{Fills, below, over};
ghost use Rattle.tree_operations.specs.Numbers.{KeepsLeaves, number_at, same_key};

use crate::numbers::{Numbers, number_at, set_number};
use tree_key::{Key, OutOfMemory};

// The sum over a box from those over its halves, where both are there and are the same.
fn joined(left: Option<i64>, right: Option<i64>) -> Option<i64>
    requires left { IfSome left (λ sum. unsigned_abs sum ≤ 2 ^ 40) }
    requires right { IfSome right (λ sum. unsigned_abs sum ≤ 2 ^ 40) }
    ensures { result ≡ joined_sum left right }
{
    match (left, right) {
        (Some(left), Some(right)) => {
            if left == right {
                Some(left + right)
            } else {
                None
            }
        }
        _ => None,
    }
}

/// Gives a key a number, in place of the one that it had, where there is one.
pub fn set_if_some(numbers: &mut Numbers, key: Key, number: Option<i64>) -> Result<(), OutOfMemory>
    ensures { OnOk result ((k : KeyData) → number_at numbers.new k
        ≡ (if same_key key k then over number (number_at numbers.old k) else number_at numbers.old k)) }
{
    match number {
        Some(number) => set_number(numbers, key, number),
        None => Ok(()),
    }
}

/// Sets the sums of the leaves below a key, of the coarsened tree. Returns the sum over the box of the key, where all values
/// there are the same, and so no key below it stays.
pub fn coarsen_below(
    leaves: &Numbers,
    key: Key,
    sums: &mut Numbers,
) -> Result<Option<i64>, OutOfMemory>
    requires { (t : Tree) × KeepsLeaves t leaves.now × (t.shape key ≡ true) }
    ensures sum { IfOk result (λ sum. (t : Tree) →
        KeepsLeaves t leaves.now → t.shape key ≡ true → sum ≡ constant_sum t key) }
    ensures leaves { OnOk result ((t : Tree) →
        KeepsLeaves t leaves.now → t.shape key ≡ true →
        Fills key (below key (leaf_sum_at (coarsened t))) sums.old sums.new) }
{
    match number_at(leaves, key) {
        Some(sum) => Ok(Some(sum)),
        None => {
            let (first, second) = (key.child(false), key.child(true));
            let left = coarsen_below(leaves, first, sums)?;
            let right = coarsen_below(leaves, second, sums)?;
            match joined(left, right) {
                Some(sum) => Ok(Some(sum)),
                None => {
                    set_if_some(sums, first, left)?;
                    set_if_some(sums, second, right)?;
                    Ok(None)
                }
            }
        }
    }
}

#[cfg(test)]
mod tests {
    use super::*;

    #[test]
    fn equal_sums_are_joined(rt: HostRuntime) {
        let cases = [
            (None, None, None),
            (Some(3), None, None),
            (None, Some(3), None),
            (Some(3), Some(4), None),
            (Some(3), Some(3), Some(6)),
            (Some(-3), Some(-3), Some(-6)),
            (Some(0), Some(0), Some(0)),
        ];
        for (left, right, sum) in cases {
            assert_eq!(rt; joined(left, right), sum);
        }
    }
}
