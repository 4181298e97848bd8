//! The two forms of a tree.
/// One of the two forms that a tree is kept in.
#[derive(Clone, Copy, Debug, PartialEq, Eq)]
pub enum TreeForm {
    /// Sums at the leaves.
    Reconstructed,
    /// The sum at the root, and differences below it.
    Compressed,
}
