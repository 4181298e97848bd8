//! What a command comes to, in messages and tasks, counted from the stored trees.
ghost use Rattle.std.specs.Prelude.{◌≡◌, ◌≤◌, ◌^◌, ℕ, Option};
ghost use Rattle.std.specs.Option.{option_map, option_map_or};
ghost use Rattle.tree_model.specs.Commands.Command.{Coarsen, Inner, Print};
ghost use Rattle.tree_model.specs.Totals.{command_total, nothing, over, visits_total};
ghost use Rattle.tree_model.specs.Versions.{Version, Versions, written};
ghost use Rattle.job_data.specs.Data.{data_of};
ghost use Rattle.tree_totals.specs.Counts.{Counts, distribution_of, total_of};
ghost use Rattle.tree_operations.specs.StoredTrees.{KeepsForm, Matches};
ghost use Rattle.plain_tree.specs.Trees.{HasVersions};

use crate::trees::{Trees, both_compressed, leaves_of, tree_of};
use job_data::Command;
use tree_operations::StoredTree;
use tree_totals::{Distribution, ShapeCount, Total};

// What is counted of a tree's keys.
fn count_of(distribution: Distribution, tree: &StoredTree) -> ShapeCount
    requires { (depth : ℕ) × (version : Version) × KeepsForm depth version.form version.tree tree.now }
    ensures { (depth : ℕ) (version : Version) → KeepsForm depth version.form version.tree tree.now →
        Counts (distribution_of distribution).owner depth version.tree.shape result }
{
    match tree {
        StoredTree::Reconstructed(leaves) => distribution.count_leaves(leaves),
        StoredTree::Compressed(tree) => distribution.count_interior(&tree.differences),
    }
}

// What a command comes to that visits the keys of a tree; nothing where there is no tree.
fn visits_total(distribution: Distribution, tree: Option<&StoredTree>) -> Total
    requires { (depth : ℕ) × (version : Option Version) × Matches depth (option_map (λ tree. tree.now) tree) version }
    ensures total { (depth : ℕ) (version : Option Version) → Matches depth (option_map (λ tree. tree.now) tree.entry) version →
        total_of result ≡ option_map_or (λ version. visits_total (distribution_of distribution) depth (over version.tree.shape)) version nothing }
    ensures messages { result.messages ≤ 2 ^ 20 }
    ensures tasks { result.tasks ≤ 2 ^ 20 }
{
    match tree {
        Some(tree) => Total::of_visits(count_of(distribution, tree)),
        None => Total::nothing(),
    }
}

// What `coarsen` comes to, whose tree is given.
fn coarsening_total(
    distribution: Distribution,
    trees: &Trees<'_>,
    name: &[u8],
    coarser: Option<&StoredTree>,
) -> Total
    requires { (depth : ℕ) × (versions : Versions) × HasVersions depth versions trees.now ×
        Matches depth (option_map (λ tree. tree.now) coarser) (written depth versions (Coarsen name.now)) }
    ensures total { (depth : ℕ) (versions : Versions) → HasVersions depth versions trees.now →
        Matches depth (option_map (λ tree. tree.now) coarser.entry) (written depth versions (Coarsen name.now)) →
        total_of result ≡ command_total (distribution_of distribution) depth versions (Coarsen name.now) }
    ensures messages { result.messages ≤ 2 ^ 20 }
    ensures tasks { result.tasks ≤ 2 ^ 20 }
{
    let Some(before) = leaves_of(trees, name) else {
        return Total::nothing();
    };
    let Some(after) = coarser else {
        return Total::nothing();
    };
    let (before, after) = (
        distribution.count_leaves(before),
        count_of(distribution, after),
    );
    Total::of_coarsening(before, after)
}

// What `inner` comes to.
fn inner_total(distribution: Distribution, trees: &Trees<'_>, left: &[u8], right: &[u8]) -> Total
    requires { (depth : ℕ) × (versions : Versions) × HasVersions depth versions trees.now }
    ensures total { (depth : ℕ) (versions : Versions) → HasVersions depth versions trees.now →
        total_of result ≡ command_total (distribution_of distribution) depth versions (Inner left.now right.now) }
    ensures messages { result.messages ≤ 2 ^ 20 }
    ensures tasks { result.tasks ≤ 2 ^ 20 }
{
    match both_compressed(trees, left, right) {
        Some((left, right)) => {
            Total::of_visits(distribution.count_common(&left.differences, &right.differences))
        }
        None => Total::nothing(),
    }
}

// What `print` comes to.
fn print_total(distribution: Distribution, trees: &Trees<'_>, name: &[u8]) -> Total
    requires { (depth : ℕ) × (versions : Versions) × HasVersions depth versions trees.now }
    ensures total { (depth : ℕ) (versions : Versions) → HasVersions depth versions trees.now →
        total_of result ≡ command_total (distribution_of distribution) depth versions (Print name.now) }
    ensures messages { result.messages ≤ 2 ^ 20 }
    ensures tasks { result.tasks ≤ 2 ^ 20 }
{
    visits_total(distribution, tree_of(trees, name))
}

/// What a command comes to, from the trees before it and the one that it wrote, if it wrote one. Each tree is gone over
/// once.
pub fn command_total(
    distribution: Distribution,
    command: &Command,
    trees: &Trees<'_>,
    tree: Option<&StoredTree>,
) -> Total
    requires { (depth : ℕ) × (versions : Versions) × HasVersions depth versions trees.now ×
        Matches depth (option_map (λ tree. tree.now) tree) (written depth versions (data_of command.now)) }
    ensures total { (depth : ℕ) (versions : Versions) → HasVersions depth versions trees.now →
        Matches depth (option_map (λ tree. tree.now) tree.entry) (written depth versions (data_of command.now)) →
        total_of result ≡ command_total (distribution_of distribution) depth versions (data_of command.now) }
    ensures messages { result.messages ≤ 2 ^ 20 }
    ensures tasks { result.tasks ≤ 2 ^ 20 }
{
    match command {
        Command::Project { .. }
        | Command::Refine { .. }
        | Command::Compress { .. }
        | Command::Reconstruct { .. }
        | Command::Add { .. }
        | Command::Mul { .. } => visits_total(distribution, tree),
        Command::Coarsen { name } => coarsening_total(distribution, trees, name.bytes(), tree),
        Command::Inner { left, right } => {
            inner_total(distribution, trees, left.bytes(), right.bytes())
        }
        Command::Print { name } => print_total(distribution, trees, name.bytes()),
        Command::Size { .. } => Total::of_size(distribution.ranks),
        Command::Fence => Total::nothing(),
    }
}
