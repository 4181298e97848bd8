//! Units of `refine`.
ghost use Rattle.std.specs.Prelude.{◌≡◌, Some, None};
ghost use Rattle.haar_visits.specs.Refining.{split_one, refine_cut, visit_refined};

use haar_base::decisions::{Visit, bad_visit};
use haar_base::readings::{ChildSides, Leaf, leaf_at, leaf_sides, nothing_held, one};
use haar_base::{Side, Value};
use haar_node::Node;
use tree_key::Key;

/// A key that has children, which are to be visited with these sides.
pub fn split_one(below: Option<ChildSides>) -> Visit
    ensures { result ≡ split_one below }
{
    match below {
        Some(ChildSides { left, right }) => Visit::Split {
            node: Some(Node::Branch),
            left: one(left),
            right: one(right),
            held: nothing_held(),
        },
        None => bad_visit(true),
    }
}

// A key that is to have children.
fn refine_cut(depth: u8, key: Key, leaf: Leaf) -> Visit
    ensures { result ≡ refine_cut depth key leaf }
{
    if depth <= key.level() {
        bad_visit(true)
    } else {
        split_one(leaf_sides(leaf))
    }
}

/// Visits a key: where it has children, or is above the level, so are they; else it becomes a leaf.
pub fn visit(depth: u8, level: u8, key: Key, side: Side, cell: Option<Node>) -> Visit
    ensures { result ≡ visit_refined depth level key side cell }
{
    match leaf_at(side, cell) {
        Leaf::Whole(sum) => {
            if level <= key.level() {
                Visit::Give {
                    node: Some(Node::Leaf(sum)),
                    value: Value::Done,
                }
            } else {
                refine_cut(depth, key, Leaf::Whole(sum))
            }
        }
        Leaf::Cut => refine_cut(depth, key, Leaf::Cut),
        Leaf::Wrong => refine_cut(depth, key, Leaf::Wrong),
    }
}
