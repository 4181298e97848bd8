//! What is counted of a shape, from the map in which a tree is stored.
ghost use Rattle.std.specs.Prelude.{◌≡◌, ◌≤◌, ◌^◌};

use crate::distribution::Distribution;
use std::collections::BTreeMap;
use tree_key::Key;

/// Numbers of keys of a shape. It has one key more than twice those that have children.
#[derive(Clone, Copy, Debug, PartialEq, Eq)]
pub struct ShapeCount {
    /// The keys that have children.
    pub interior: u64,
    /// The keys that have another owner than their parent.
    pub cuts: u64,
    pub ghost few_keys: { interior ≤ 2 ^ 17 },
    pub ghost few_cuts: { cuts ≤ 2 ^ 17 },
}

impl Distribution {
    ghost use Rattle.tree_model.specs.Totals.{intersection};
    ghost use Rattle.tree_model.specs.Trees.{Tree};
    ghost use Rattle.tree_totals.specs.Counts.{Counts, HasDifferences, HasLeafSums, distribution_of};

    /// What is counted of a tree, from the sums of its leaves.
    pub fn count_leaves(&self, leaves: &BTreeMap<Key, i64>) -> ShapeCount
        requires { (t : Tree) × HasLeafSums t leaves.now }
        ensures { (t : Tree) → HasLeafSums t leaves.now → Counts (distribution_of self.now).owner t.depth t.shape result }
    {
        let mut cuts = 0u64;
        for key in leaves.keys() {
            cuts += self.cuts_up(*key);
        }
        ShapeCount {
            interior: leaves.len() as u64 - 1,
            cuts,
        }
    }

    /// What is counted of a tree, from the differences of its keys that have children.
    pub fn count_interior(&self, differences: &BTreeMap<Key, i64>) -> ShapeCount
        requires { (t : Tree) × HasDifferences t differences.now }
        ensures { (t : Tree) → HasDifferences t differences.now → Counts (distribution_of self.now).owner t.depth t.shape result }
    {
        let mut cuts = 0u64;
        for key in differences.keys() {
            cuts += self.cuts_below(*key);
        }
        ShapeCount {
            interior: differences.len() as u64,
            cuts,
        }
    }

    /// What is counted of the keys that two trees of one depth have, from the differences of each.
    pub fn count_common(&self, left: &BTreeMap<Key, i64>, right: &BTreeMap<Key, i64>) -> ShapeCount
        requires { (f : Tree) × (g : Tree) × HasDifferences f left.now × HasDifferences g right.now × (f.depth ≡ g.depth) }
        ensures { (f g : Tree) → HasDifferences f left.now → HasDifferences g right.now → f.depth ≡ g.depth →
            Counts (distribution_of self.now).owner f.depth (intersection f.shape g.shape) result }
    {
        let mut interior = 0u64;
        let mut cuts = 0u64;
        for key in left.keys() {
            if right.contains_key(key) {
                interior += 1;
                cuts += self.cuts_below(*key);
            }
        }
        ShapeCount { interior, cuts }
    }
}
