//! Units of `coarsen`.
ghost use Rattle.std.specs.Prelude.{◌≡◌};
ghost use Rattle.haar_visits.specs.Coarsening.{split_entries, visit_coarsened, merged, same, branch, combine_beside, combine_apart, combine_coarsened};

use haar_base::decisions::{Combination, Visit, bad_combination, bad_visit};
use haar_base::readings::{Leaf, entry, leaf_at, nothing_held, one};
use haar_base::{Side, Value};
use haar_node::{Coefficient, Node, join};
use tree_key::Key;

/// Both children are visited, where there may be some.
pub fn split_entries(depth: u8, key: Key) -> Visit
    ensures { result ≡ split_entries depth key }
{
    if key.level() < depth {
        Visit::Split {
            node: None,
            left: one(entry()),
            right: one(entry()),
            held: nothing_held(),
        }
    } else {
        bad_visit(true)
    }
}

/// Visits a key: a leaf stays one for now.
pub fn visit(depth: u8, key: Key, side: Side, cell: Option<Node>) -> Visit
    ensures { result ≡ visit_coarsened depth key side cell }
{
    match leaf_at(side, cell) {
        Leaf::Whole(sum) => {
            let number = sum.get();
            Visit::Give {
                node: Some(Node::Leaf(sum)),
                value: Value::Sum(number),
            }
        }
        Leaf::Cut => split_entries(depth, key),
        Leaf::Wrong => bad_visit(true),
    }
}

// A leaf with the sum over a box both of whose halves have this sum, unless it is too large.
fn merged(half: i64) -> Combination
    ensures { result ≡ merged half }
{
    if half.unsigned_abs() <= 1 << 40 {
        let (sum, _) = join(half, half);
        Combination::Merge {
            sum: Coefficient::new(sum),
        }
    } else {
        bad_combination(true)
    }
}

// Whether two numbers are one.
fn same(number: i64, other: i64) -> bool
    ensures { result ≡ same number other }
{
    number == other
}

// A key whose children aren't merged.
fn branch() -> Combination
    ensures { result ≡ branch }
{
    Combination::Give {
        node: Some(Node::Branch),
        value: Value::Done,
    }
}

// Beside a half that is one leaf with this sum.
fn combine_beside(half: i64, right: &Value) -> Combination
    ensures { result ≡ combine_beside half right.now }
{
    match right {
        Value::Sum(other) => {
            if same(half, *other) {
                merged(half)
            } else {
                branch()
            }
        }
        Value::Done => branch(),
        _ => bad_combination(true),
    }
}

// Beside a half that isn't one leaf.
fn combine_apart(right: &Value) -> Combination
    ensures { result ≡ combine_apart right.now }
{
    match right {
        Value::Sum(_) => branch(),
        Value::Done => branch(),
        _ => bad_combination(true),
    }
}

/// Two leaves with one value become a leaf.
pub fn combine(left: &Value, right: &Value) -> Combination
    ensures { result ≡ combine_coarsened left.now right.now }
{
    match left {
        Value::Sum(half) => combine_beside(*half, right),
        Value::Done => combine_apart(right),
        _ => bad_combination(true),
    }
}
