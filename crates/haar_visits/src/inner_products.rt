//! Units of `inner`.
ghost use Rattle.std.specs.Prelude.{◌≡◌, ◌≤◌, ◌^◌, pos, ◌+ℤ◌, ◌*ℤ◌, None};
ghost use Rattle.std.specs.Int.RustNames.{unsigned_abs};
ghost use Rattle.tree_model.specs.Nodes.{max_number};
ghost use Rattle.haar_base.specs.Numbers.{divides};
ghost use Rattle.haar_visits.specs.InnerProducts.{whole_product, given_product, haar, both_entries, inner_by, visit_inner, part_of, inner_parts, inner_right, inner_value, combine_inner};

use haar_base::decisions::{Combination, Visit, bad_visit};
use haar_base::readings::{Sums, entry, sums_at};
use haar_base::{Haar, Held, Sides, Value};
use haar_node::{Coefficient, Node, combine_inner, finish_inner};
use tree_key::Key;

// The number of cells of a depth.
fn cells(depth: u8) -> u32
    requires { depth ≤ 16 }
    ensures { result ≡ 2 ^ depth }
{
    1 << depth
}

// The product of two sums and what the differences add, together.
fn whole(sum: i64, other: i64, part: i128) -> i128
    requires sum { unsigned_abs sum ≤ max_number }
    requires other { unsigned_abs other ≤ max_number }
    requires part { unsigned_abs part ≤ 2 ^ 100 }
    ensures { result ≡ sum *ℤ other +ℤ part }
{
    i128::from(sum) * i128::from(other) + part
}

// Whether a number of cells divides this.
fn divides(cells: u32, whole: i128) -> bool
    requires { 1 ≤ cells }
    ensures { result ≡ divides cells whole }
{
    (whole % i128::from(cells)).unsigned_abs() == 0
}

// What the root gives. Bad where the number of cells doesn't divide it.
fn whole_product(depth: u8, sum: Coefficient, other: Coefficient, part: i128) -> Value
    requires deep { depth ≤ 16 }
    requires part { unsigned_abs part ≤ 2 ^ 100 }
    ensures { result ≡ whole_product depth sum other part }
{
    let (sum, other) = (sum.get(), other.get());
    if divides(cells(depth), whole(sum, other, part)) {
        Value::Product(finish_inner(sum, other, part, depth))
    } else {
        Value::Bad
    }
}

// What a key gives, from what its differences and those below add.
fn given_product(depth: u8, key: Key, sum: Coefficient, other: Coefficient, part: i128) -> Value
    requires deep { depth ≤ 16 }
    requires part { unsigned_abs part ≤ 2 ^ 100 }
    ensures { result ≡ given_product depth key sum other part }
{
    if key.level() == 0 {
        whole_product(depth, sum, other, part)
    } else {
        Value::Product(part)
    }
}

// Both trees have the key, and no sum is needed.
pub fn both_entries() -> Sides
    ensures { result ≡ both_entries }
{
    Sides {
        first: entry(),
        second: entry(),
    }
}

// A key without children in one of the trees adds nothing.
fn leaf(depth: u8, key: Key, left: &Sums, right: &Sums) -> Visit
    requires { depth ≤ 16 }
    ensures { result ≡ inner_by depth key left.now.sum None right.now.sum right.now.difference }
{
    Visit::Give {
        node: None,
        value: given_product(depth, key, left.sum, right.sum, 0),
    }
}

// The numbers of a key with children in both trees.
fn held(left: &Sums, first: Coefficient, right: &Sums, second: Coefficient) -> Held
    ensures { result ≡ record { first = haar left.now.sum first; second = haar right.now.sum second } }
{
    Held {
        first: Haar {
            sum: left.sum,
            difference: first,
        },
        second: Haar {
            sum: right.sum,
            difference: second,
        },
    }
}

// By the numbers of both trees.
fn inner_by(depth: u8, key: Key, left: &Sums, right: &Sums) -> Visit
    requires { depth ≤ 16 }
    ensures { result ≡ inner_by depth key left.now.sum left.now.difference right.now.sum right.now.difference }
{
    match left.difference {
        None => leaf(depth, key, left, right),
        Some(first) => match right.difference {
            None => leaf(depth, key, left, right),
            Some(second) => {
                if key.level() < depth {
                    Visit::Split {
                        node: None,
                        left: both_entries(),
                        right: both_entries(),
                        held: held(left, first, right, second),
                    }
                } else {
                    bad_visit(false)
                }
            }
        },
    }
}

/// Visits a key that both trees have: it adds nothing unless it has children in both.
pub fn visit(depth: u8, key: Key, sides: &Sides, first: Option<Node>, second: Option<Node>) -> Visit
    requires { depth ≤ 16 }
    ensures { result ≡ visit_inner depth key sides.now first second }
{
    let root = key.level() == 0;
    let other = sums_at(root, sides.second, second);
    match sums_at(root, sides.first, first) {
        None => bad_visit(false),
        Some(left) => match other {
            None => bad_visit(false),
            Some(right) => inner_by(depth, key, &left, &right),
        },
    }
}

// What the key's differences and those below add.
fn part_of(held: &Held, left: i128, right: i128) -> i128
    requires left { unsigned_abs left ≤ 2 ^ 90 }
    requires right { unsigned_abs right ≤ 2 ^ 90 }
    ensures value { result ≡ part_of held.now left right }
    ensures bound { unsigned_abs result ≤ 2 ^ 100 }
{
    let (first, second) = (held.first.difference.get(), held.second.difference.get());
    combine_inner(first, second, left, right)
}

// By what both children add, where it isn't too large.
fn parts(depth: u8, key: Key, held: &Held, left: i128, right: i128) -> Value
    requires { depth ≤ 16 }
    ensures { result ≡ inner_parts depth key held.now left right }
{
    if left.unsigned_abs() <= 1 << 90 && right.unsigned_abs() <= 1 << 90 {
        let part = part_of(held, left, right);
        given_product(depth, key, held.first.sum, held.second.sum, part)
    } else {
        Value::Bad
    }
}

// By what the left child gave.
fn inner_right(depth: u8, key: Key, held: &Held, left: i128, right: &Value) -> Value
    requires { depth ≤ 16 }
    ensures { result ≡ inner_right depth key held.now left right.now }
{
    match right {
        Value::Product(right) => parts(depth, key, held, left, *right),
        _ => Value::Bad,
    }
}

// By what both children gave.
fn inner_value(depth: u8, key: Key, held: &Held, left: &Value, right: &Value) -> Value
    requires { depth ≤ 16 }
    ensures { result ≡ inner_value depth key held.now left.now right.now }
{
    match left {
        Value::Product(left) => inner_right(depth, key, held, *left, right),
        _ => Value::Bad,
    }
}

/// The product of the differences, and twice what the children add.
pub fn combine(depth: u8, key: Key, held: &Held, left: &Value, right: &Value) -> Combination
    requires { depth ≤ 16 }
    ensures { result ≡ combine_inner depth key held.now left.now right.now }
{
    Combination::Give {
        node: None,
        value: inner_value(depth, key, held, left, right),
    }
}
