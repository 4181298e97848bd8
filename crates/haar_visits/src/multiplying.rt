//! Units of `mul`.
ghost use Rattle.std.specs.Prelude.{◌≡◌, ◌^◌, ◌≤◌, true};
ghost use Rattle.haar_base.specs.Numbers.{divides};
ghost use Rattle.haar_visits.specs.Multiplying.{is_leaf_sum, leaf_product, product_sum, multiply_leaf, multiply_cut, visit_multiplied};

use crate::adding::{split_two, width};
use haar_base::decisions::{Visit, bad_visit};
use haar_base::readings::{Leaf, leaf_at, leaf_sides};
use haar_base::{Sides, Value};
use haar_node::{Coefficient, MAX_VALUE, Node, combine_mul};
use tree_key::Key;

// Whether a number of cells divides a sum.
fn divides(cells: u32, sum: i64) -> bool
    requires { 1 ≤ cells }
    ensures { result ≡ divides cells sum }
{
    (sum % i64::from(cells)).unsigned_abs() == 0
}

// Whether this may be the sum over so many cells that all have one value.
fn is_leaf_sum(sum: i64, cells: u32) -> bool
    requires { 1 ≤ cells }
    ensures { result ≡ is_leaf_sum sum cells }
{
    divides(cells, sum) && sum.unsigned_abs() <= u64::from(cells) * MAX_VALUE
}

// The sum over a leaf of the product, from the sums over its box. None where the product's value is too large.
fn leaf_product(left: i64, right: i64, cells: u32) -> Option<Coefficient>
    requires some { 1 ≤ cells }
    requires few { cells ≤ 2 ^ 16 }
    requires left { is_leaf_sum left cells ≡ true }
    requires right { is_leaf_sum right cells ≡ true }
    ensures { result ≡ leaf_product left right cells }
{
    match combine_mul(left, right, cells) {
        Ok(sum) => Some(Coefficient::new(sum)),
        Err(_) => None,
    }
}

// The same, where the sums are of one value each. None where they aren't.
fn product_sum(left: Coefficient, right: Coefficient, cells: u32) -> Option<Coefficient>
    requires some { 1 ≤ cells }
    requires few { cells ≤ 2 ^ 16 }
    ensures { result ≡ product_sum left right cells }
{
    let (left, right) = (left.get(), right.get());
    if is_leaf_sum(left, cells) {
        if is_leaf_sum(right, cells) {
            leaf_product(left, right, cells)
        } else {
            None
        }
    } else {
        None
    }
}

// A leaf of the product.
fn leaf(sum: Option<Coefficient>) -> Visit
    ensures { result ≡ multiply_leaf sum }
{
    match sum {
        Some(sum) => Visit::Give {
            node: Some(Node::Leaf(sum)),
            value: Value::Done,
        },
        None => bad_visit(true),
    }
}

// A key of the product that has children.
fn cut(depth: u8, key: Key, first: Leaf, second: Leaf) -> Visit
    ensures { result ≡ multiply_cut depth key first second }
{
    if key.level() < depth {
        split_two(Node::Branch, leaf_sides(first), leaf_sides(second))
    } else {
        bad_visit(true)
    }
}

/// Visits a key: it has children where it has some in one of the trees.
pub fn visit(depth: u8, key: Key, sides: &Sides, first: Option<Node>, second: Option<Node>) -> Visit
    requires deep { depth ≤ 16 }
    requires level { key.level ≤ depth }
    ensures { result ≡ visit_multiplied depth key sides.now first second }
{
    let second = leaf_at(sides.second, second);
    match leaf_at(sides.first, first) {
        Leaf::Whole(left) => match second {
            Leaf::Whole(right) => leaf(product_sum(left, right, width(depth, key))),
            Leaf::Cut => cut(depth, key, Leaf::Whole(left), Leaf::Cut),
            Leaf::Wrong => cut(depth, key, Leaf::Whole(left), Leaf::Wrong),
        },
        Leaf::Cut => cut(depth, key, Leaf::Cut, second),
        Leaf::Wrong => cut(depth, key, Leaf::Wrong, second),
    }
}
