//! Sums of two compressed trees.
ghost use Rattle.std.specs.Prelude.{◌≡◌, ◌^◌, ◌≤◌, Err, OnOk, true, false, Some, None, ◌+ℤ◌, ◌*ℤ◌};
ghost use Rattle.tree_model.specs.Nodes.{max_number};
ghost use Rattle.std.specs.Int.RustNames.{unsigned_abs};
ghost use Rattle.std.specs.Option.{option_map};
ghost use Rattle.tree_key.specs.Keys.{child, width};
ghost use Rattle.tree_model.specs.Functions.{max_depth};
ghost use Rattle.tree_model.specs.StoredTrees.{difference_at};
ghost use Rattle.tree_model.specs.Operations.{weighted_sum, overflows};
ghost use Rattle.tree_model.specs.Trees.{Tree};
ghost use Rattle.tree_operations.specs.Adding.{AreKept, AreKeptAt, two_differences};
ghost use Rattle.tree_operations.specs.Filling.{Fills};
ghost use Rattle.tree_operations.specs.LeafValues.{LeavesHaveValues};

use crate::command_error::CommandError;
use crate::numbers::{Numbers, number_at, set_number};
use haar_node::{Over, combine_add, split};
use tree_key::Key;

/// Two compressed trees of a depth, by the differences of their keys, each to be taken so many times.
#[derive(Clone, Copy)]
pub struct Addends<'a> {
    pub left: &'a Numbers,
    pub right: &'a Numbers,
    pub left_factor: i64,
    pub right_factor: i64,
    pub depth: u8,
    pub ghost is_deep: { depth ≤ max_depth },
    pub ghost left_is_small: { unsigned_abs left_factor ≤ 2 ^ 20 },
    pub ghost right_is_small: { unsigned_abs right_factor ≤ 2 ^ 20 },
}

/// The number of cells in a key's box, at a depth that the key isn't below.
pub fn width(depth: u8, key: Key) -> u32
    requires deep { depth ≤ max_depth }
    requires level { key.level ≤ depth }
    ensures value { result ≡ width depth key }
    ensures some { 1 ≤ result }
    ensures most { result ≤ 2 ^ 16 }
{
    1 << (depth - key.level())
}

/// A number of the left tree, and one of the right tree.
#[derive(Clone, Copy)]
pub struct Pair {
    pub left: i64,
    pub right: i64,
}

impl Addends<'_> {
    // The differences of both trees at a key that has children in one of them.
    fn differences_at(&self, key: Key) -> Option<Pair>
        ensures { (f g : Tree) → AreKept f g self.now.left.now self.now.right.now self.now.depth →
            option_map (λ pair. (pair.left, pair.right)) result ≡ two_differences f g key }
    {
        match (number_at(self.left, key), number_at(self.right, key)) {
            (None, None) => None,
            (Some(left), None) => Some(Pair { left, right: 0 }),
            (None, Some(right)) => Some(Pair { left: 0, right }),
            (Some(left), Some(right)) => Some(Pair { left, right }),
        }
    }

    // Sees that the sum stays within the limit of values on the box of a key that neither tree cuts.
    fn check_leaf(&self, key: Key, sums: Pair) -> Result<(), CommandError>
        requires { (f : Tree) × (g : Tree) ×
            AreKeptAt f g self.now.left.now self.now.right.now self.now.depth key sums.left sums.right }
        ensures within { OnOk result ((f g : Tree) →
            AreKeptAt f g self.now.left.now self.now.right.now self.now.depth key sums.left sums.right →
            two_differences f g key ≡ None →
            LeavesHaveValues (weighted_sum self.now.left_factor f self.now.right_factor g) key) }
        ensures over { result ≡ Err CommandError.Overflow → (f g : Tree) →
            AreKeptAt f g self.now.left.now self.now.right.now self.now.depth key sums.left sums.right →
            two_differences f g key ≡ None →
            overflows (weighted_sum self.now.left_factor f self.now.right_factor g) ≡ true }
    {
        let cells = width(self.depth, key);
        match combine_add(
            self.left_factor,
            sums.left,
            self.right_factor,
            sums.right,
            cells,
        ) {
            Ok(_) => Ok(()),
            Err(Over) => Err(CommandError::Overflow),
        }
    }

    // The sums of both trees over the halves of a key's box, from those over the box and the differences there.
    fn halves(&self, key: Key, sums: Pair, differences: Pair) -> (Pair, Pair)
        requires { (f : Tree) × (g : Tree) ×
            AreKeptAt f g self.now.left.now self.now.right.now self.now.depth key sums.left sums.right ×
            (two_differences f g key ≡ Some (differences.left, differences.right)) }
        ensures left { (f g : Tree) →
            AreKeptAt f g self.now.left.now self.now.right.now self.now.depth key sums.left sums.right →
            two_differences f g key ≡ Some (differences.left, differences.right) →
            AreKeptAt f g self.now.left.now self.now.right.now self.now.depth (child key false) result.0.left result.0.right }
        ensures right { (f g : Tree) →
            AreKeptAt f g self.now.left.now self.now.right.now self.now.depth key sums.left sums.right →
            two_differences f g key ≡ Some (differences.left, differences.right) →
            AreKeptAt f g self.now.left.now self.now.right.now self.now.depth (child key true) result.1.left result.1.right }
    {
        let (left, right) = split(sums.left, differences.left);
        let (other_left, other_right) = split(sums.right, differences.right);
        (
            Pair {
                left,
                right: other_left,
            },
            Pair {
                left: right,
                right: other_right,
            },
        )
    }

    /// What the sum has where both trees have these numbers: sums over a box, or differences at a key.
    pub fn weighted(&self, numbers: Pair) -> i64
        requires left { unsigned_abs numbers.left ≤ max_number }
        requires right { unsigned_abs numbers.right ≤ max_number }
        ensures { result ≡ self.now.left_factor *ℤ numbers.left +ℤ self.now.right_factor *ℤ numbers.right }
    {
        self.left_factor * numbers.left + self.right_factor * numbers.right
    }

    /// Sets the differences of the sum at a key and below it, from the sums of both trees over its box.
    ///
    /// # Errors
    ///
    /// `Overflow` where a value of the sum would be more than a cell may have; `OutOfMemory` where there is no memory
    /// left.
    pub fn add_below(
        &self,
        key: Key,
        sums: Pair,
        differences: &mut Numbers,
    ) -> Result<(), CommandError>
        requires { (f : Tree) × (g : Tree) ×
            AreKeptAt f g self.now.left.now self.now.right.now self.now.depth key sums.left sums.right }
        ensures differences { OnOk result ((f g : Tree) →
            AreKeptAt f g self.now.left.now self.now.right.now self.now.depth key sums.left sums.right →
            Fills key (difference_at (weighted_sum self.now.left_factor f self.now.right_factor g))
            differences.old differences.new) }
        ensures within { OnOk result ((f g : Tree) →
            AreKeptAt f g self.now.left.now self.now.right.now self.now.depth key sums.left sums.right →
            LeavesHaveValues (weighted_sum self.now.left_factor f self.now.right_factor g) key) }
        ensures over { result ≡ Err CommandError.Overflow → (f g : Tree) →
            AreKeptAt f g self.now.left.now self.now.right.now self.now.depth key sums.left sums.right →
            overflows (weighted_sum self.now.left_factor f self.now.right_factor g) ≡ true }
    {
        match self.differences_at(key) {
            None => self.check_leaf(key, sums),
            Some(here) => {
                let (left, right) = self.halves(key, sums, here);
                self.add_below(key.child(false), left, differences)?;
                self.add_below(key.child(true), right, differences)?;
                set_number(differences, key, self.weighted(here))?;
                Ok(())
            }
        }
    }
}
