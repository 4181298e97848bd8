//! What a unit decides for, before its effects are made.
ghost use Rattle.std.specs.Prelude.{◌≡◌};
ghost use Rattle.haar_base.specs.Decisions.{bad_node, bad_visit, bad_combination, is_done, done};

use crate::unit::{Held, Sides};
use crate::value::Value;
use haar_node::{Coefficient, Node};

/// What a down unit decides for. A node is put first.
#[derive(Drop)]
pub enum Visit {
    /// It gives its due at once.
    Give {
        node: Option<Node>,
        value: Value,
    },

    /// It has both children visited, and its due is passed on to the unit that combines what they give.
    Split {
        node: Option<Node>,
        left: Sides,
        right: Sides,
        held: Held,
    },
}

/// What an up unit decides for. A node is put first.
#[derive(Drop)]
pub enum Combination {
    /// It gives its due.
    Give { node: Option<Node>, value: Value },

    /// It puts a leaf, has the entries of both children erased, and gives the leaf's sum.
    Merge { sum: Coefficient },
}

// A bad node, where a command writes one.
fn bad_node(writes: bool) -> Option<Node>
    ensures { result ≡ bad_node writes }
{
    if writes { Some(Node::Bad) } else { None }
}

/// Nothing can be done with what was read. A command that writes a tree puts a bad node.
pub fn bad_visit(writes: bool) -> Visit
    ensures { result ≡ bad_visit writes }
{
    Visit::Give {
        node: bad_node(writes),
        value: Value::Bad,
    }
}

/// Nothing can be done with what the children gave. A command that writes nodes on the way up puts a bad one.
pub fn bad_combination(writes: bool) -> Combination
    ensures { result ≡ bad_combination writes }
{
    Combination::Give {
        node: bad_node(writes),
        value: Value::Bad,
    }
}

// Whether a key is done.
fn is_done(value: &Value) -> bool
    ensures { result ≡ is_done value.now }
{
    match value {
        Value::Done => true,
        Value::Sum(_) => false,
        Value::Product(_) => false,
        Value::Lines(_) => false,
        Value::Count(_) => false,
        Value::Bad => false,
    }
}

/// A key is done where both children are.
pub fn done(left: &Value, right: &Value) -> Combination
    ensures { result ≡ done left.now right.now }
{
    let value = if is_done(left) && is_done(right) {
        Value::Done
    } else {
        Value::Bad
    };
    Combination::Give { node: None, value }
}
