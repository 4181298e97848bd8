//! The tree of a function, as its leaves in key order.
ghost use Rattle.std.specs.Prelude.{◌≡◌, ◌≤◌, ◌<◌, ◌^◌, ◌++◌, ◌+◌, true, map, IfOk, OnOk, OnErr, pos, ◌*ℤ◌};
ghost use Rattle.std.specs.Int.RustNames.{unsigned_abs};
ghost use Rattle.std.specs.List.{flat_map};
ghost use Rattle.tree_key.specs.Keys.{first_cell, width};
ghost use Rattle.tree_model.specs.Functions.{fits, value_at, max_value};
ghost use Rattle.tree_model.specs.Project.{is_split, differs, projected};
ghost use Rattle.tree_model.specs.Rows.{halves, whole_keys, with_sum, row as row_of, leaf_sums, leaf_sums_above};
ghost use Rattle.haar_node.specs.Func.{function_of};
ghost use Rattle.tree_operations.specs.Projecting.{projection_of};

use haar_node::Func;
use std::alloc::{AllocError, Global};
use std::collections::BTreeMap;
use tree_key::Key;

/// A function to be projected at a depth: split down to a level, and where halves differ by more than a tolerance.
#[derive(Clone, Copy)]
pub struct Projecting {
    /// The depth, from 0 to 16: there are two to the depth cells.
    pub depth: u8,
    /// The function, which fits the depth.
    pub function: Func,
    /// Each key above this level is split.
    pub level: u8,
    /// The difference between the halves of a key that is let stand.
    pub tolerance: u32,
    pub ghost is_deep: { depth ≤ 16 },
    pub ghost is_fit: { fits depth (function_of function) ≡ true },
}

impl Projecting {
    // The first cell of a key's box.
    fn first_cell(self, key: Key) -> u32
        requires { key.level ≤ self.depth }
        ensures value { result ≡ first_cell self.depth key }
        ensures below { result < 2 ^ self.depth }
    {
        key.at() << (self.depth - key.level())
    }

    // The function's value at the first cell of a key's box.
    fn value_at(self, key: Key) -> i64
        requires { key.level ≤ self.depth }
        ensures value { result ≡ value_at (function_of self.function) (first_cell self.depth key) }
        ensures bound { unsigned_abs result ≤ max_value }
    {
        self.function.value(self.first_cell(key))
    }

    // Whether the values at the first cells of the halves differ by more than the tolerance.
    fn differs(self, key: Key) -> bool
        requires { key.level < self.depth }
        ensures { let p = projection_of self.function self.level self.tolerance in
            result ≡ differs self.depth p key }
    {
        let left = self.value_at(key.child(false));
        let right = self.value_at(key.child(true));
        left.abs_diff(right) > u64::from(self.tolerance)
    }

    // Whether a key is split.
    fn is_split(self, key: Key) -> bool
        ensures { let p = projection_of self.function self.level self.tolerance in
            result ≡ is_split self.depth p key }
    {
        key.level() < self.depth && (key.level() < self.level || self.differs(key))
    }

    // The sum over the box of a leaf.
    fn leaf_sum(self, key: Key) -> i64
        requires { key.level ≤ self.depth }
        ensures { result
            ≡ pos (width self.depth key) *ℤ value_at (function_of self.function) (first_cell self.depth key) }
    {
        let width = i64::from(1u32 << (self.depth - key.level()));
        let value = self.value_at(key);
        width * value
    }

    // The next row of the tree's keys, from the row of a level; its keys that aren't split become leaves.
    fn next_row(
        self,
        alloc: Global,
        level: u8,
        row: &[Key],
        leaves: &mut Leaves,
    ) -> Result<Vec<Key>, AllocError>
        requires level { level ≤ self.depth }
        requires row { let p = projection_of self.function self.level self.tolerance in
            row.now ≡ row_of self.depth p level }
        requires above { let p = projection_of self.function self.level self.tolerance in
            leaves.old.entries ≡ leaf_sums_above (projected self.depth p) level }
        ensures next { let p = projection_of self.function self.level self.tolerance in
            IfOk result (λ next. next.items ≡ row_of self.depth p (level + 1)) }
        ensures leaves { let p = projection_of self.function self.level self.tolerance in
            OnOk result (leaves.new.entries ≡ leaf_sums_above (projected self.depth p) (level + 1)) }
    {
        let mut next = Vec::new(alloc);
        for key in row {
            if self.is_split(*key) {
                next.push(key.child(false))?;
                next.push(key.child(true))?;
            } else {
                leaves.insert(*key, self.leaf_sum(*key))?;
            }
        }
        Ok(next)
    }

    /// The leaves of the tree in key order, each with the sum over its box.
    pub fn leaves(self, alloc: Global) -> Result<Leaves, AllocError>
        ensures { let p = projection_of self.function self.level self.tolerance in
            IfOk result (λ leaves. leaves.entries ≡ leaf_sums (projected self.depth p)) }
    {
        let mut leaves = BTreeMap::new(alloc);
        let mut row = vec![in alloc; Key::root()]?;
        for level in 0..self.depth + 1 {
            row = self.next_row(alloc, level, &row, &mut leaves)?;
        }
        Ok(leaves)
    }
}

/// The leaves of a tree in key order, each with the sum over its box.
pub type Leaves = BTreeMap<Key, i64>;
