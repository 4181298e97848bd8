//! Inner products from sums and differences.
ghost use Rattle.std.specs.Prelude.{◌≡◌};
ghost use Rattle.tree_model.specs.Products.{inner_part, inner_product};
ghost use Rattle.tree_model.specs.Trees.{Tree};
ghost use Rattle.tree_operations.specs.InnerProducts.{IsCompressed};
ghost use Rattle.tree_operations.specs.Numbers.{KeepsDifferences};

use crate::numbers::{Numbers, number_at};
use haar_node::{combine_inner, finish_inner};
use tree_key::Key;

// What the differences of two trees at a key and below it add to their inner product.
pub fn inner_below(left: &Numbers, right: &Numbers, key: Key) -> i128
    requires { (f : Tree) × (g : Tree) × KeepsDifferences f left.now × KeepsDifferences g right.now × (f.depth ≡ g.depth) }
    ensures { (f g : Tree) →
        KeepsDifferences f left.now → KeepsDifferences g right.now → f.depth ≡ g.depth →
        result ≡ inner_part f g key }
{
    match (number_at(left, key), number_at(right, key)) {
        (Some(difference), Some(other)) => {
            let below = inner_below(left, right, key.child(false));
            let behind = inner_below(left, right, key.child(true));
            combine_inner(difference, other, below, behind)
        }
        _ => 0,
    }
}

// The inner product of two trees of a depth, from the sum over all cells and the differences of each.
pub fn inner_of(left_sum: i64, left: &Numbers, right_sum: i64, right: &Numbers, depth: u8) -> i128
    requires { (f : Tree) × (g : Tree) × IsCompressed f depth left_sum left.now × IsCompressed g depth right_sum right.now }
    ensures { (f g : Tree) →
        IsCompressed f depth left_sum left.now → IsCompressed g depth right_sum right.now →
        result ≡ inner_product f g }
{
    let part = inner_below(left, right, Key::root());
    finish_inner(left_sum, right_sum, part, depth)
}
