//! What the evaluator stores of a tree.

use crate::numbers::Numbers;

/// A tree in the compressed form.
#[derive(Drop)]
pub struct Compressed {
    /// The sum over all cells.
    pub sum: i64,
    /// The difference between the halves of each key that has children.
    pub differences: Numbers,
}

/// A tree in one of its two forms.
#[derive(Drop)]
pub enum StoredTree {
    /// The sum over the box of each leaf.
    Reconstructed(Numbers),
    /// The sum over all cells, and the differences.
    Compressed(Compressed),
}
