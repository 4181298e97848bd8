//! The trees that the names of a job stand for.
ghost use Rattle.std.specs.Prelude.{◌≡◌, ℕ, List, Some, OnOk, if◌then◌else◌};
ghost use Rattle.std.specs.Option.{option_map};
ghost use Rattle.std.specs.Str.{bytes_eq};
ghost use Rattle.tree_model.specs.Nodes.Form.{Reconstructed, Compressed as CompressedForm};
ghost use Rattle.tree_model.specs.Versions.{Versions, read, read_two};
ghost use Rattle.tree_operations.specs.StoredTrees.{HasLeaves, HasDifferences, HaveLeaves, HaveDifferences};
ghost use Rattle.plain_tree.specs.Trees.{kept_at, HasVersions};

use std::collections::BTreeMap;
use tree_key::OutOfMemory;
use tree_operations::{Compressed, Numbers, StoredTree};

/// For each name the tree that it stands for.
pub type Trees<'a> = BTreeMap<&'a [u8], StoredTree>;

/// Gives a name a tree, in place of the one that it had.
pub fn put<'a>(trees: &mut Trees<'a>, name: &'a [u8], kept: StoredTree) -> Result<(), OutOfMemory>
    ensures { OnOk result ((other : List ℕ) → kept_at trees.new other
        ≡ (if bytes_eq other name.now then Some kept else kept_at trees.old other)) }
{
    trees.insert(name, kept)?;
    Ok(())
}

/// The tree of a name.
pub fn tree_of<'b>(trees: &'b Trees<'_>, name: &[u8]) -> Option<&'b StoredTree>
    ensures { option_map (λ kept. kept.now) result ≡ kept_at trees.now name.now }
{
    trees.get(name)
}

/// The leaves of the tree of a name, where it is in the reconstructed form.
pub fn leaves_of<'b>(trees: &'b Trees<'_>, name: &[u8]) -> Option<&'b Numbers>
    ensures { (depth : ℕ) (versions : Versions) → HasVersions depth versions trees.now →
        HasLeaves depth (option_map (λ leaves. leaves.now) result) (read versions Reconstructed name.now) }
{
    match tree_of(trees, name) {
        Some(StoredTree::Reconstructed(leaves)) => Some(leaves),
        Some(StoredTree::Compressed(_)) => None,
        None => None,
    }
}

/// The tree of a name, where it is in the compressed form.
pub fn compressed_of<'b>(trees: &'b Trees<'_>, name: &[u8]) -> Option<&'b Compressed>
    ensures { (depth : ℕ) (versions : Versions) → HasVersions depth versions trees.now →
        HasDifferences depth (option_map (λ tree. tree.now) result) (read versions CompressedForm name.now) }
{
    match tree_of(trees, name) {
        Some(StoredTree::Compressed(tree)) => Some(tree),
        Some(StoredTree::Reconstructed(_)) => None,
        None => None,
    }
}

/// The leaves of the trees of two names, where both are in the reconstructed form.
pub fn both_leaves<'b>(
    trees: &'b Trees<'_>,
    left: &[u8],
    right: &[u8],
) -> Option<(&'b Numbers, &'b Numbers)>
    ensures { (depth : ℕ) (versions : Versions) → HasVersions depth versions trees.now →
        HaveLeaves depth (option_map (λ pair. (pair.0.now, pair.1.now)) result)
        (read_two versions Reconstructed left.now right.now) }
{
    let left = leaves_of(trees, left)?;
    let right = leaves_of(trees, right)?;
    Some((left, right))
}

/// The trees of two names, where both are in the compressed form.
pub fn both_compressed<'b>(
    trees: &'b Trees<'_>,
    left: &[u8],
    right: &[u8],
) -> Option<(&'b Compressed, &'b Compressed)>
    ensures { (depth : ℕ) (versions : Versions) → HasVersions depth versions trees.now →
        HaveDifferences depth (option_map (λ pair. (pair.0.now, pair.1.now)) result)
        (read_two versions CompressedForm left.now right.now) }
{
    let left = compressed_of(trees, left)?;
    let right = compressed_of(trees, right)?;
    Some((left, right))
}
