//! The numbers and nodes that are stored at the keys of a tree.
ghost use Rattle.std.specs.Prelude.{◌≡◌, ◌≤◌};
ghost use Rattle.std.specs.Int.RustNames.{unsigned_abs};
ghost use Rattle.tree_model.specs.Nodes.{max_number};

use std::marker::Model;

/// A number in a node, a sum or a difference: at most two to the 41 in absolute value.
#[derive(Clone, Copy, Debug, PartialEq, Eq)]
pub struct Coefficient {
    number: i64,
}

impl Model for Coefficient {
    ghost use Rattle.std.specs.Prelude.{◌≤◌, ℤ};
    ghost use Rattle.std.specs.Int.RustNames.{unsigned_abs};
    ghost use Rattle.tree_model.specs.Nodes.{max_number};

    ghost Value = { ℤ };

    ghost view = { λ c. c.number };

    ghost invariant = { λ c. unsigned_abs c.number ≤ max_number };

    ghost inverse = { λ z. record { number = z } };
}

impl Coefficient {
    /// The number, which is at most two to the 41 in absolute value.
    pub fn new(number: i64) -> Coefficient
        requires { unsigned_abs number ≤ max_number }
        ensures { result ≡ number }
    {
        Coefficient { number }
    }

    /// The number as `new` was given it.
    pub fn get(self) -> i64
        ensures value { result ≡ self }
        ensures bound { unsigned_abs result ≤ max_number }
    {
        self.number
    }
}

/// What is kept at a key of a tree, in one of two forms.
///
/// In the reconstructed form a leaf has `Leaf` and another key `Branch`. In the compressed form the root has `Root`,
/// another leaf `Bare`, and another key `Inner`.
#[derive(Clone, Copy, Debug, PartialEq, Eq)]
pub enum Node {
    /// The sum over the box of a leaf.
    Leaf(Coefficient),
    /// A key with children.
    Branch,
    /// The sum over the left half of the box less the sum over the right half.
    Inner(Coefficient),
    /// The sum over all cells and, where the root has children, the difference of the two halves.
    Root(Coefficient, Option<Coefficient>),
    /// A leaf below the root.
    Bare,
    /// No number: the command that wrote the tree overflowed in the key's box.
    Bad,
}

#[cfg(test)]
mod tests {
    use super::*;

    #[test]
    fn numbers_are_kept_up_to_the_limit(rt: HostRuntime) {
        assert_eq!(rt;
            Coefficient::new(2_199_023_255_552).get(),
            2_199_023_255_552
        );
        assert_eq!(rt;
            Coefficient::new(-2_199_023_255_552).get(),
            -2_199_023_255_552
        );
    }

    #[test]
    fn nodes_differ_by_their_kind_and_their_numbers(rt: HostRuntime) {
        let nodes = [
            Node::Leaf(Coefficient::new(6)),
            Node::Leaf(Coefficient::new(-6)),
            Node::Branch,
            Node::Inner(Coefficient::new(6)),
            Node::Root(Coefficient::new(6), None),
            Node::Root(Coefficient::new(6), Some(Coefficient::new(6))),
            Node::Bare,
            Node::Bad,
        ];
        for (i, node) in nodes.iter().enumerate() {
            for (j, other) in nodes.iter().enumerate() {
                assert_eq!(rt; *node == *other, i == j, "{node:?} and {other:?}");
            }
        }
    }
}
