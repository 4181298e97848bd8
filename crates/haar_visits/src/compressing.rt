//! Units of `compress`.
ghost use Rattle.std.specs.Prelude.{◌≡◌, None, Some};
ghost use Rattle.haar_visits.specs.Compressing.{below_node, compressed_node, visit_compressed, joined, combine_right, combine_compressed};

use crate::coarsening::split_entries;
use haar_base::decisions::{Combination, Visit, bad_combination, bad_visit};
use haar_base::readings::{Leaf, Sums, leaf_at};
use haar_base::{Side, Value};
use haar_node::{Coefficient, Node, join};
use tree_key::Key;

// The node of a compressed tree below the root.
fn below_node(difference: Option<Coefficient>) -> Node
    ensures { result ≡ below_node difference }
{
    match difference {
        Some(difference) => Node::Inner(difference),
        None => Node::Bare,
    }
}

/// The node of a compressed tree with these numbers.
pub fn compressed_node(key: Key, sums: &Sums) -> Node
    ensures { result ≡ compressed_node key sums.now }
{
    if key.level() == 0 {
        Node::Root(sums.sum, sums.difference)
    } else {
        below_node(sums.difference)
    }
}

// A leaf has no difference.
fn leaf(key: Key, sum: Coefficient) -> Node
    ensures { result ≡ compressed_node key (record { sum = sum; difference = None }) }
{
    let sums = Sums {
        sum,
        difference: None,
    };
    compressed_node(key, &sums)
}

/// Visits a key: a leaf has no difference.
pub fn visit(depth: u8, key: Key, side: Side, cell: Option<Node>) -> Visit
    ensures { result ≡ visit_compressed depth key side cell }
{
    match leaf_at(side, cell) {
        Leaf::Whole(sum) => {
            let number = sum.get();
            Visit::Give {
                node: Some(leaf(key, sum)),
                value: Value::Sum(number),
            }
        }
        Leaf::Cut => split_entries(depth, key),
        Leaf::Wrong => bad_visit(true),
    }
}

// The difference of the halves, and their sum, unless they are too large.
fn joined(key: Key, left: i64, right: i64) -> Combination
    ensures { result ≡ joined key left right }
{
    if left.unsigned_abs() <= 1 << 40 && right.unsigned_abs() <= 1 << 40 {
        let (sum, difference) = join(left, right);
        let sums = Sums {
            sum: Coefficient::new(sum),
            difference: Some(Coefficient::new(difference)),
        };
        Combination::Give {
            node: Some(compressed_node(key, &sums)),
            value: Value::Sum(sum),
        }
    } else {
        bad_combination(true)
    }
}

// By the sum over the left half.
fn combine_right(key: Key, left: i64, right: &Value) -> Combination
    ensures { result ≡ combine_right key left right.now }
{
    match right {
        Value::Sum(right) => joined(key, left, *right),
        _ => bad_combination(true),
    }
}

/// The difference of the sums over the halves, and their sum.
pub fn combine(key: Key, left: &Value, right: &Value) -> Combination
    ensures { result ≡ combine_compressed key left.now right.now }
{
    match left {
        Value::Sum(left) => combine_right(key, *left, right),
        _ => bad_combination(true),
    }
}
