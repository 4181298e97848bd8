//! Units of `reconstruct`.
ghost use Rattle.std.specs.Prelude.{◌≡◌};
ghost use Rattle.haar_visits.specs.Reconstructing.{reconstruct_by, visit_reconstructed};

use crate::refining::split_one;
use haar_base::decisions::{Visit, bad_visit};
use haar_base::readings::{Sums, sum_sides, sums_at};
use haar_base::{Side, Value};
use haar_node::Node;
use tree_key::Key;

// By the sum over the key's box and its difference.
fn reconstruct_by(depth: u8, key: Key, sums: &Sums) -> Visit
    ensures { result ≡ reconstruct_by depth key sums.now.sum sums.now.difference }
{
    match sums.difference {
        None => Visit::Give {
            node: Some(Node::Leaf(sums.sum)),
            value: Value::Done,
        },
        Some(_) => {
            if key.level() < depth {
                split_one(sum_sides(sums))
            } else {
                bad_visit(true)
            }
        }
    }
}

/// Visits a key, whose sum the unit above knew: where it has no difference, it becomes a leaf.
pub fn visit(depth: u8, key: Key, side: Side, cell: Option<Node>) -> Visit
    ensures { result ≡ visit_reconstructed depth key side cell }
{
    match sums_at(key.level() == 0, side, cell) {
        Some(sums) => reconstruct_by(depth, key, &sums),
        None => bad_visit(true),
    }
}
