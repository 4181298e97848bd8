//! What a down unit finds of one tree at its key, and what the units of the two children know of it.
ghost use Rattle.std.specs.Prelude.{◌≡◌, ◌==◌};
ghost use Rattle.haar_base.specs.Readings as readings;

use crate::numbers::{halves, zero};
use crate::unit::{Haar, Held, Side, Sides};
use haar_node::{Coefficient, Node};

/// What a reconstructed tree has at a key, or above it.
#[derive(Clone, Copy, Debug, PartialEq, Eq)]
pub enum Leaf {
    /// The tree doesn't cut the key's box. This is the sum over it.
    Whole(Coefficient),

    /// The key has children.
    Cut,

    /// This is no entry of a reconstructed tree.
    Wrong,
}

/// What a compressed tree has at a key, or above it: the sum over the key's box, where it is known, and the difference of
/// the halves, where the key has children.
#[derive(Clone, Copy, Debug, PartialEq, Eq)]
pub struct Sums {
    pub sum: Coefficient,
    pub difference: Option<Coefficient>,
}

/// What the units of the children of a key know of one tree.
#[derive(Clone, Copy, Debug, PartialEq, Eq)]
pub struct ChildSides {
    pub left: Side,
    pub right: Side,
}

// What a node of a reconstructed tree says.
fn leaf_of(cell: Option<Node>) -> Leaf
    ensures { result ≡ readings.leaf_of cell }
{
    match cell {
        Some(node) => match node {
            Node::Leaf(sum) => Leaf::Whole(sum),
            Node::Branch => Leaf::Cut,
            _ => Leaf::Wrong,
        },
        None => Leaf::Wrong,
    }
}

/// What the reconstructed tree of a side has, whose entry is the cell where it is read.
pub fn leaf_at(side: Side, cell: Option<Node>) -> Leaf
    ensures { result ≡ readings.leaf_at side cell }
{
    match side {
        Side::Nothing => Leaf::Wrong,
        Side::Entry(_) => leaf_of(cell),
        Side::Below(sum) => Leaf::Whole(sum),
    }
}

// Both children lie below a leaf, with these sums.
fn both_below(sum: Coefficient) -> Option<ChildSides>
    ensures { result ≡ readings.sides_by sum None }
{
    match halves(sum, zero()) {
        Some((left, right)) => Some(ChildSides {
            left: Side::Below(left),
            right: Side::Below(right),
        }),
        None => None,
    }
}

// The tree has both children, with these sums.
fn both_entries(sum: Coefficient, difference: Coefficient) -> Option<ChildSides>
    ensures { result ≡ readings.sides_by sum (Some difference) }
{
    match halves(sum, difference) {
        Some((left, right)) => Some(ChildSides {
            left: Side::Entry(left),
            right: Side::Entry(right),
        }),
        None => None,
    }
}

/// What is known of the children of a key of a reconstructed tree. None where there are none, or the sum over the box isn't
/// even.
pub fn leaf_sides(leaf: Leaf) -> Option<ChildSides>
    ensures { result ≡ readings.leaf_sides leaf }
{
    match leaf {
        Leaf::Whole(sum) => both_below(sum),
        Leaf::Cut => Some(ChildSides {
            left: entry(),
            right: entry(),
        }),
        Leaf::Wrong => None,
    }
}

// A sum, and a difference where there is one.
fn numbers_of(sum: Coefficient, difference: Option<Coefficient>) -> Sums
    ensures { result ≡ readings.sums sum difference }
{
    Sums { sum, difference }
}

// What the node of the root of a compressed tree says.
fn root_sums(cell: Option<Node>) -> Option<Sums>
    ensures { result ≡ readings.root_sums cell }
{
    match cell {
        Some(node) => match node {
            Node::Root(sum, difference) => Some(numbers_of(sum, difference)),
            _ => None,
        },
        None => None,
    }
}

// What a node below the root of a compressed tree says, where the sum over the box is known.
fn inner_sums(sum: Coefficient, cell: Option<Node>) -> Option<Sums>
    ensures { result ≡ readings.inner_sums sum cell }
{
    match cell {
        Some(node) => match node {
            Node::Inner(difference) => Some(numbers_of(sum, Some(difference))),
            Node::Bare => Some(numbers_of(sum, None)),
            _ => None,
        },
        None => None,
    }
}

/// What the compressed tree of a side has, whose entry is the cell where it is read. None where this is no entry of a
/// compressed tree, at the root or below it.
pub fn sums_at(root: bool, side: Side, cell: Option<Node>) -> Option<Sums>
    ensures { result ≡ readings.sums_at root side cell }
{
    match side {
        Side::Nothing => None,
        Side::Entry(known) => {
            if root {
                root_sums(cell)
            } else {
                inner_sums(known, cell)
            }
        }
        Side::Below(sum) => Some(Sums {
            sum,
            difference: None,
        }),
    }
}

/// What is known of the children of a key of a compressed tree. None where there are no such sums.
pub fn sum_sides(sums: &Sums) -> Option<ChildSides>
    ensures { result ≡ readings.sum_sides sums.now }
{
    match sums.difference {
        Some(difference) => both_entries(sums.sum, difference),
        None => both_below(sums.sum),
    }
}

/// The side of a key that the tree has, where no sum is needed.
pub fn entry() -> Side
    ensures { result ≡ readings.entry }
{
    Side::Entry(zero())
}

/// One tree is read.
pub fn one(first: Side) -> Sides
    ensures { result ≡ readings.one first }
{
    Sides {
        first,
        second: Side::Nothing,
    }
}

// No numbers.
pub fn no_haar() -> Haar
    ensures { result ≡ readings.no_haar }
{
    Haar {
        sum: zero(),
        difference: zero(),
    }
}

/// Nothing is held.
pub fn nothing_held() -> Held
    ensures { result ≡ readings.nothing_held }
{
    Held {
        first: no_haar(),
        second: no_haar(),
    }
}
