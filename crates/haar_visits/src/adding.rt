//! Units of `add`.
ghost use Rattle.std.specs.Prelude.{◌≡◌, ◌^◌, ◌≤◌, is_none, Some, None};
ghost use Rattle.tree_key.specs.Keys.{width};
ghost use Rattle.haar_visits.specs.Adding.{AreFactors, weighted, add_leaf, kept_sum, add_difference, left_sides, right_sides, split_two, add_cut_by, add_cut, add_both, visit_added};
ghost use Rattle.haar_base.specs.Numbers.{coefficient};
ghost use Rattle.haar_visits.specs.Compressing.{compressed_node};

use crate::compressing::compressed_node;
use haar_base::decisions::{Visit, bad_visit};
use haar_base::numbers::{coefficient, zero};
use haar_base::readings::{ChildSides, Sums, nothing_held, sum_sides, sums_at};
use haar_base::{Sides, Value};
use haar_node::{Coefficient, Node, combine_add};
use tree_key::Key;

/// The factors of the two trees.
#[derive(Clone, Copy)]
pub struct Factors {
    pub left: i64,
    pub right: i64,
}

// What the sum has where the trees have these numbers. None where it is too large for a node.
fn weighted(factors: Factors, left: Coefficient, right: Coefficient) -> Option<Coefficient>
    requires { AreFactors factors }
    ensures { result ≡ coefficient (weighted factors left right) }
{
    let (left, right) = (left.get(), right.get());
    coefficient(factors.left * left + factors.right * right)
}

// The number of cells in a key's box.
pub fn width(depth: u8, key: Key) -> u32
    requires deep { depth ≤ 16 }
    requires level { key.level ≤ depth }
    ensures value { result ≡ width depth key }
    ensures some { 1 ≤ result }
    ensures most { result ≤ 2 ^ 16 }
{
    1 << (depth - key.level())
}

// The node of a leaf.
fn leaf_node(key: Key, sum: Coefficient) -> Node
    ensures { result ≡ compressed_node key (record { sum = sum; difference = None }) }
{
    let sums = Sums {
        sum,
        difference: None,
    };
    compressed_node(key, &sums)
}

// A leaf of the sum, unless its values are too large.
fn leaf(depth: u8, factors: Factors, key: Key, left: &Sums, right: &Sums) -> Visit
    requires deep { depth ≤ 16 }
    requires level { key.level ≤ depth }
    requires factors { AreFactors factors }
    ensures { result ≡ add_leaf depth factors key left.now right.now }
{
    let (one, other) = (left.sum.get(), right.sum.get());
    let cells = width(depth, key);
    match combine_add(factors.left, one, factors.right, other, cells) {
        Ok(sum) => Visit::Give {
            node: Some(leaf_node(key, Coefficient::new(sum))),
            value: Value::Done,
        },
        Err(_) => bad_visit(true),
    }
}

// The sum over the box of a key that has children, which is kept at the root alone. None where it is too large.
fn kept_sum(factors: Factors, key: Key, left: &Sums, right: &Sums) -> Option<Coefficient>
    requires { AreFactors factors }
    ensures { result ≡ kept_sum factors key left.now right.now }
{
    if key.level() == 0 {
        weighted(factors, left.sum, right.sum)
    } else {
        Some(zero())
    }
}

// The difference of the sum at a key. None where it is too large.
fn difference(factors: Factors, left: &Sums, right: &Sums) -> Option<Coefficient>
    requires { AreFactors factors }
    ensures { result ≡ add_difference factors left.now right.now }
{
    let one = left.difference.unwrap_or(zero());
    let other = right.difference.unwrap_or(zero());
    weighted(factors, one, other)
}

/// A key that has children in both trees, or below a leaf of one, with this node.
pub fn split_two(node: Node, first: Option<ChildSides>, second: Option<ChildSides>) -> Visit
    ensures { result ≡ split_two node first second }
{
    match first {
        None => bad_visit(true),
        Some(ChildSides { left, right }) => match second {
            None => bad_visit(true),
            Some(other) => Visit::Split {
                node: Some(node),
                left: Sides {
                    first: left,
                    second: other.left,
                },
                right: Sides {
                    first: right,
                    second: other.right,
                },
                held: nothing_held(),
            },
        },
    }
}

// The node of a key with children.
fn cut_node(key: Key, sum: Coefficient, difference: Coefficient) -> Node
    ensures { result ≡ compressed_node key (record { sum = sum; difference = Some difference }) }
{
    let sums = Sums {
        sum,
        difference: Some(difference),
    };
    compressed_node(key, &sums)
}

// A key of the sum that has children.
fn cut(factors: Factors, key: Key, left: &Sums, right: &Sums) -> Visit
    requires { AreFactors factors }
    ensures { result ≡ add_cut factors key left.now right.now }
{
    let (first, second) = (sum_sides(left), sum_sides(right));
    match difference(factors, left, right) {
        None => bad_visit(true),
        Some(difference) => match kept_sum(factors, key, left, right) {
            None => bad_visit(true),
            Some(sum) => split_two(cut_node(key, sum, difference), first, second),
        },
    }
}

// Where both trees have their sums.
fn both(depth: u8, factors: Factors, key: Key, left: &Sums, right: &Sums) -> Visit
    requires deep { depth ≤ 16 }
    requires level { key.level ≤ depth }
    requires factors { AreFactors factors }
    ensures { result ≡ add_both depth factors key left.now right.now }
{
    if left.difference.is_none() && right.difference.is_none() {
        leaf(depth, factors, key, left, right)
    } else if key.level() < depth {
        cut(factors, key, left, right)
    } else {
        bad_visit(true)
    }
}

/// Visits a key, whose sums in both trees the unit above knew: it has children where it has some in one of the trees.
pub fn visit(
    depth: u8,
    factors: Factors,
    key: Key,
    sides: &Sides,
    first: Option<Node>,
    second: Option<Node>,
) -> Visit
    requires deep { depth ≤ 16 }
    requires level { key.level ≤ depth }
    requires factors { AreFactors factors }
    ensures { result ≡ visit_added depth factors key sides.now first second }
{
    let root = key.level() == 0;
    let other = sums_at(root, sides.second, second);
    match sums_at(root, sides.first, first) {
        None => bad_visit(true),
        Some(left) => match other {
            None => bad_visit(true),
            Some(right) => both(depth, factors, key, &left, &right),
        },
    }
}
