//! Sums over boxes that a tree doesn't cut.
ghost use Rattle.std.specs.Prelude.{◌≡◌, true};
ghost use Rattle.tree_model.specs.StoredTrees.{whole_sum};
ghost use Rattle.tree_model.specs.Shapes.{is_key_of};
ghost use Rattle.tree_model.specs.Trees.{Tree};
ghost use Rattle.tree_operations.specs.Numbers.{KeepsLeaves};
ghost use Rattle.tree_operations.specs.WholeSums.{sum_from_above, half_sum};

use crate::numbers::{Numbers, number_at};
use tree_key::Key;

// The sum over the box of a key, where the tree doesn't cut it: the sum from above, where the key lies below a leaf, and
// else the number at the key.
pub fn whole_sum(leaves: &Numbers, key: Key, above: Option<i64>) -> Option<i64>
    ensures { (t : Tree) → KeepsLeaves t leaves.now → above ≡ sum_from_above t key →
        result ≡ whole_sum t key }
{
    match above {
        Some(sum) => Some(sum),
        None => number_at(leaves, key),
    }
}

// The sum over either half of a box that the tree doesn't cut, from the sum over the box.
pub fn half_of(sum: Option<i64>) -> Option<i64>
    ensures { result ≡ half_sum sum }
{
    sum.map(|sum| sum / 2)
}

#[cfg(test)]
mod tests {
    use super::*;

    #[test]
    fn sums_are_halved(rt: HostRuntime) {
        let cases = [
            (None, None),
            (Some(12), Some(6)),
            (Some(-6), Some(-3)),
            (Some(0), Some(0)),
        ];
        for (sum, half) in cases {
            assert_eq!(rt; half_of(sum), half);
        }
    }
}
