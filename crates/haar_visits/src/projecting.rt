//! Units of `project`.
ghost use Rattle.std.specs.Prelude.{◌≡◌, ◌^◌, ◌<◌, ◌≤◌, true};
ghost use Rattle.std.specs.Int.RustNames.{unsigned_abs};
ghost use Rattle.tree_key.specs.Keys.{first_cell};
ghost use Rattle.tree_model.specs.Functions.{fits, value_at, max_value};
ghost use Rattle.tree_model.specs.Project.{is_split, differs};
ghost use Rattle.haar_node.specs.Func.{function_of};
ghost use Rattle.haar_visits.specs.Projecting.{projection_of, projected_sum, no_sides, visit_projected};

use haar_base::decisions::Visit;
use haar_base::readings::nothing_held;
use haar_base::{Side, Sides, Value};
use haar_node::{Coefficient, Func, Node};
use tree_key::Key;

// The first cell of a key's box.
fn first_cell(depth: u8, key: Key) -> u32
    requires deep { depth ≤ 16 }
    requires level { key.level ≤ depth }
    ensures value { result ≡ first_cell depth key }
    ensures below { result < 2 ^ depth }
{
    key.at() << (depth - key.level())
}

// The function's value at the first cell of a key's box.
fn value_at(depth: u8, function: Func, key: Key) -> i64
    requires deep { depth ≤ 16 }
    requires fit { fits depth (function_of function) ≡ true }
    requires level { key.level ≤ depth }
    ensures value { result ≡ value_at (function_of function) (first_cell depth key) }
    ensures bound { unsigned_abs result ≤ max_value }
{
    function.value(first_cell(depth, key))
}

// Whether the values at the first cells of the halves differ by more than the tolerance.
fn differs(depth: u8, function: Func, level: u8, tolerance: u32, key: Key) -> bool
    requires deep { depth ≤ 16 }
    requires fit { fits depth (function_of function) ≡ true }
    requires above { key.level < depth }
    ensures { result ≡ differs depth (projection_of function level tolerance) key }
{
    let _ = level;
    let left = value_at(depth, function, key.child(false));
    let right = value_at(depth, function, key.child(true));
    left.abs_diff(right) > u64::from(tolerance)
}

// Whether a key is split.
fn is_split(depth: u8, function: Func, level: u8, tolerance: u32, key: Key) -> bool
    requires deep { depth ≤ 16 }
    requires fit { fits depth (function_of function) ≡ true }
    ensures { result ≡ is_split depth (projection_of function level tolerance) key }
{
    key.level() < depth && (key.level() < level || differs(depth, function, level, tolerance, key))
}

// The sum over the box of a leaf.
fn leaf_sum(depth: u8, function: Func, key: Key) -> Coefficient
    requires deep { depth ≤ 16 }
    requires fit { fits depth (function_of function) ≡ true }
    requires level { key.level ≤ depth }
    ensures { result ≡ projected_sum depth function key }
{
    let width = i64::from(1u32 << (depth - key.level()));
    let value = value_at(depth, function, key);
    Coefficient::new(width * value)
}

// No tree is read.
pub fn no_sides() -> Sides
    ensures { result ≡ no_sides }
{
    Sides {
        first: Side::Nothing,
        second: Side::Nothing,
    }
}

/// Visits a key: it is split, or becomes a leaf.
pub fn visit(depth: u8, function: Func, level: u8, tolerance: u32, key: Key) -> Visit
    requires deep { depth ≤ 16 }
    requires fit { fits depth (function_of function) ≡ true }
    requires level { key.level ≤ depth }
    ensures { result ≡ visit_projected depth function level tolerance key }
{
    if is_split(depth, function, level, tolerance, key) {
        Visit::Split {
            node: Some(Node::Branch),
            left: no_sides(),
            right: no_sides(),
            held: nothing_held(),
        }
    } else {
        Visit::Give {
            node: Some(Node::Leaf(leaf_sum(depth, function, key))),
            value: Value::Done,
        }
    }
}
