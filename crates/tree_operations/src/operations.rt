//! The operations on whole trees: each makes what is stored of a tree from what is stored of others.
ghost use Rattle.std.specs.Prelude.{◌≡◌, ◌^◌, ◌≤◌, IfOk, Err, true, ℕ};
ghost use Rattle.std.specs.Int.RustNames.{unsigned_abs};
ghost use Rattle.tree_model.specs.Functions.{fits, max_depth};
ghost use Rattle.tree_model.specs.Operations.{refined, coarsened, weighted_sum, product, overflows};
ghost use Rattle.tree_model.specs.Products.{inner_product};
ghost use Rattle.tree_model.specs.Project.{projected};
ghost use Rattle.tree_model.specs.Shapes.{key_count};
ghost use Rattle.tree_model.specs.Trees.{Tree};
ghost use Rattle.tree_model.specs.Versions.{Version};
ghost use Rattle.haar_node.specs.Func.{function_of};
ghost use Rattle.tree_operations.specs.InnerProducts.{IsCompressed};
ghost use Rattle.tree_operations.specs.StoredTrees.{IsReconstructed, KeepsForm};
ghost use Rattle.tree_operations.specs.Projecting.{projection_of};

use crate::adding::{Addends, Pair};
use crate::coarsening::{coarsen_below, set_if_some};
use crate::command_error::CommandError;
use crate::compressing::compress_below;
use crate::inner_products::inner_of;
use crate::multiplying::multiply_below;
use crate::numbers::Numbers;
use crate::projecting::Projecting;
use crate::reconstructing::reconstruct_below;
use crate::refining::refine_below;
use crate::stored::{Compressed, StoredTree};
use haar_node::Func;
use std::alloc::Global;
use std::collections::BTreeMap;
use tree_key::{Key, OutOfMemory};

/// The leaves of the tree that `project` makes of a function.
pub fn project(
    alloc: Global,
    depth: u8,
    function: Func,
    level: u8,
    tolerance: u32,
) -> Result<Numbers, OutOfMemory>
    requires depth { depth ≤ max_depth }
    requires fits { fits depth (function_of function) ≡ true }
    ensures { IfOk result (λ leaves.
        IsReconstructed (projected depth (projection_of function level tolerance)) depth leaves) }
{
    let projecting = Projecting {
        depth,
        function,
        level,
        tolerance,
    };
    Ok(projecting.leaves(alloc)?)
}

/// The leaves of a tree with all keys down to a level.
pub fn refine(alloc: Global, leaves: &Numbers, level: u8) -> Result<Numbers, OutOfMemory>
    requires { (t : Tree) × (depth : ℕ) × IsReconstructed t depth leaves.now × (level ≤ depth) }
    ensures { IfOk result (λ finer. (t : Tree) (depth : ℕ) →
        IsReconstructed t depth leaves.now →
        level ≤ depth →
        IsReconstructed (refined level t) depth finer) }
{
    let mut sums = BTreeMap::new(alloc);
    refine_below(leaves, level, Key::root(), None, &mut sums)?;
    Ok(sums)
}

/// The leaves of a tree without the keys below those on whose box all values are the same.
pub fn coarsen(alloc: Global, leaves: &Numbers) -> Result<Numbers, OutOfMemory>
    requires { (t : Tree) × (depth : ℕ) × IsReconstructed t depth leaves.now }
    ensures { IfOk result (λ coarser. (t : Tree) (depth : ℕ) →
        IsReconstructed t depth leaves.now →
        IsReconstructed (coarsened t) depth coarser) }
{
    let mut sums = BTreeMap::new(alloc);
    let all = coarsen_below(leaves, Key::root(), &mut sums)?;
    set_if_some(&mut sums, Key::root(), all)?;
    Ok(sums)
}

/// A tree in the compressed form, from its leaves.
pub fn compress(alloc: Global, leaves: &Numbers) -> Result<Compressed, OutOfMemory>
    requires { (t : Tree) × (depth : ℕ) × IsReconstructed t depth leaves.now }
    ensures { IfOk result (λ compressed. (t : Tree) (depth : ℕ) →
        IsReconstructed t depth leaves.now →
        IsCompressed t depth compressed.sum compressed.differences) }
{
    let mut differences = BTreeMap::new(alloc);
    let sum = compress_below(leaves, Key::root(), &mut differences)?;
    Ok(Compressed { sum, differences })
}

/// The leaves of a compressed tree.
pub fn reconstruct(alloc: Global, tree: &Compressed) -> Result<Numbers, OutOfMemory>
    requires { (t : Tree) × (depth : ℕ) × IsCompressed t depth tree.now.sum tree.now.differences }
    ensures { IfOk result (λ leaves. (t : Tree) (depth : ℕ) →
        IsCompressed t depth tree.now.sum tree.now.differences →
        IsReconstructed t depth leaves) }
{
    let mut leaves = BTreeMap::new(alloc);
    reconstruct_below(&tree.differences, Key::root(), tree.sum, &mut leaves)?;
    Ok(leaves)
}

/// The sum of two compressed trees of a depth, each taken so many times.
///
/// # Errors
///
/// `Overflow` exactly where a value of the sum is more than a cell may have, unless memory runs out before.
pub fn add(
    alloc: Global,
    depth: u8,
    left_factor: i64,
    left: &Compressed,
    right_factor: i64,
    right: &Compressed,
) -> Result<Compressed, CommandError>
    requires depth { depth ≤ max_depth }
    requires left_factor { unsigned_abs left_factor ≤ 2 ^ 20 }
    requires right_factor { unsigned_abs right_factor ≤ 2 ^ 20 }
    requires trees { (f : Tree) × (g : Tree) ×
        IsCompressed f depth left.now.sum left.now.differences ×
        IsCompressed g depth right.now.sum right.now.differences }
    ensures sum { IfOk result (λ sum. (f g : Tree) →
        IsCompressed f depth left.now.sum left.now.differences →
        IsCompressed g depth right.now.sum right.now.differences →
        IsCompressed (weighted_sum left_factor f right_factor g) depth sum.sum sum.differences) }
    ensures over { result ≡ Err CommandError.Overflow → (f g : Tree) →
        IsCompressed f depth left.now.sum left.now.differences →
        IsCompressed g depth right.now.sum right.now.differences →
        overflows (weighted_sum left_factor f right_factor g) ≡ true }
{
    let addends = Addends {
        left: &left.differences,
        right: &right.differences,
        left_factor,
        right_factor,
        depth,
    };
    let sums = Pair {
        left: left.sum,
        right: right.sum,
    };
    let mut differences = BTreeMap::new(alloc);
    addends.add_below(Key::root(), sums, &mut differences)?;
    Ok(Compressed {
        sum: addends.weighted(sums),
        differences,
    })
}

/// The leaves of the product of two trees of a depth, from theirs.
///
/// # Errors
///
/// `Overflow` exactly where a value of the product is more than a cell may have, unless memory runs out before.
pub fn multiply(
    alloc: Global,
    depth: u8,
    left: &Numbers,
    right: &Numbers,
) -> Result<Numbers, CommandError>
    requires { (f : Tree) × (g : Tree) ×
        IsReconstructed f depth left.now × IsReconstructed g depth right.now }
    ensures product { IfOk result (λ leaves. (f g : Tree) →
        IsReconstructed f depth left.now →
        IsReconstructed g depth right.now →
        IsReconstructed (product f g) depth leaves) }
    ensures over { result ≡ Err CommandError.Overflow → (f g : Tree) →
        IsReconstructed f depth left.now →
        IsReconstructed g depth right.now →
        overflows (product f g) ≡ true }
{
    let mut sums = BTreeMap::new(alloc);
    multiply_below(left, right, depth, Key::root(), None, None, &mut sums)?;
    Ok(sums)
}

/// The number of the keys of a tree: one fewer than twice its leaves, or one more than twice its keys with children.
pub fn size(tree: &StoredTree) -> usize
    requires { (depth : ℕ) × (version : Version) × KeepsForm depth version.form version.tree tree.now }
    ensures { (depth : ℕ) (version : Version) → KeepsForm depth version.form version.tree tree.now →
        result ≡ key_count version.tree.depth version.tree.shape }
{
    match tree {
        StoredTree::Reconstructed(leaves) => 2 * leaves.len() - 1,
        StoredTree::Compressed(tree) => 2 * tree.differences.len() + 1,
    }
}

/// The inner product of two compressed trees of a depth.
pub fn inner(depth: u8, left: &Compressed, right: &Compressed) -> i128
    requires { (f : Tree) × (g : Tree) ×
        IsCompressed f depth left.now.sum left.now.differences ×
        IsCompressed g depth right.now.sum right.now.differences }
    ensures { (f g : Tree) →
        IsCompressed f depth left.now.sum left.now.differences →
        IsCompressed g depth right.now.sum right.now.differences →
        result ≡ inner_product f g }
{
    inner_of(
        left.sum,
        &left.differences,
        right.sum,
        &right.differences,
        depth,
    )
}
