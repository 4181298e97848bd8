//! What a command writes: a tree, or lines.
ghost use Rattle.std.specs.Prelude.{◌≡◌, ◌^◌, ◌≤◌, ◌++◌, ℕ, List, Some, None, IfOk, OnOk, Err, true};
ghost use Rattle.std.specs.Int.RustNames.{unsigned_abs};
ghost use Rattle.std.specs.Option.{option_map};
ghost use Rattle.job_words.specs.NameBytes.{bytes_of};
ghost use Rattle.tree_model.specs.Commands.Command.{Project, Refine, Coarsen, Compress, Reconstruct, Add, Mul, Inner, Print, Size};
ghost use Rattle.tree_model.specs.Functions.{fits, max_depth};
ghost use Rattle.tree_model.specs.Jobs.{command_lines};
ghost use Rattle.tree_model.specs.Signatures.{written_name};
ghost use Rattle.tree_model.specs.Versions.{Versions, written, command_overflows};
ghost use Rattle.haar_node.specs.Func.{function_of};
ghost use Rattle.job_data.specs.Checks.{is_within_limits};
ghost use Rattle.job_data.specs.Data.{data_of};
ghost use Rattle.tree_operations.specs.Projecting.{projection_of};
ghost use Rattle.tree_operations.specs.StoredTrees.{Matches};
ghost use Rattle.plain_tree.specs.Trees.{HasVersions};

use crate::lines::{add_inner, add_size, add_tree};
use crate::trees::{Trees, both_compressed, both_leaves, compressed_of, leaves_of, tree_of};
use haar_node::Func;
use job_data::Command;
use job_words::Name;
use std::alloc::Global;
use tree_key::{OutOfMemory, Text};
use tree_operations::{
    CommandError, StoredTree, add, coarsen, compress, inner, multiply, project, reconstruct,
    refine, size,
};

/// What a command wrote.
#[derive(Drop)]
pub struct Written<'a> {
    /// The name of the tree that the command writes.
    pub name: Option<&'a [u8]>,
    /// The tree. None where the command writes none, also where a tree that it reads isn't there in the form that it
    /// needs.
    pub tree: Option<StoredTree>,
}

// What a command wrote that writes a tree of this name.
fn named<'a>(name: &'a Name, tree: Option<StoredTree>) -> Written<'a>
    ensures name { option_map (λ name. name.now) result.name ≡ Some (bytes_of name.now) }
    ensures tree { result.tree ≡ tree }
{
    Written {
        name: Some(name.bytes()),
        tree,
    }
}

// What a command wrote that writes no tree.
fn nothing<'a>() -> Written<'a>
    ensures name { result.name ≡ None }
    ensures tree { result.tree ≡ None }
{
    Written {
        name: None,
        tree: None,
    }
}

// Carries `project` out: it writes the tree of the function.
fn write_projected<'a>(
    alloc: Global,
    depth: u8,
    name: &'a Name,
    function: Func,
    level: u8,
    tolerance: u32,
) -> Result<Written<'a>, OutOfMemory>
    requires depth { depth ≤ max_depth }
    requires fits { fits depth (function_of function) ≡ true }
    ensures name { IfOk result (λ done. option_map (λ name. name.now) done.name ≡ Some (bytes_of name.now)) }
    ensures tree { IfOk result (λ done. (versions : Versions) →
        Matches depth done.tree (written depth versions (Project (bytes_of name.now) (projection_of function level tolerance)))) }
{
    let leaves = project(alloc, depth, function, level, tolerance)?;
    Ok(named(name, Some(StoredTree::Reconstructed(leaves))))
}

// Carries `refine` out: it writes the tree of the name with all keys down to a level.
fn write_refined<'a>(
    alloc: Global,
    depth: u8,
    trees: &Trees<'_>,
    name: &'a Name,
    level: u8,
) -> Result<Written<'a>, OutOfMemory>
    requires level { level ≤ depth }
    requires versions { (versions : Versions) × HasVersions depth versions trees.now }
    ensures name { IfOk result (λ done. option_map (λ name. name.now) done.name ≡ Some (bytes_of name.now)) }
    ensures tree { IfOk result (λ done. (versions : Versions) → HasVersions depth versions trees.now →
        Matches depth done.tree (written depth versions (Refine (bytes_of name.now) level))) }
{
    match leaves_of(trees, name.bytes()) {
        Some(leaves) => {
            let finer = refine(alloc, leaves, level)?;
            Ok(named(name, Some(StoredTree::Reconstructed(finer))))
        }
        None => Ok(named(name, None)),
    }
}

// Carries `coarsen` out: it writes the tree of the name without the keys below those on whose box all values are the same.
fn write_coarsened<'a>(
    alloc: Global,
    depth: u8,
    trees: &Trees<'_>,
    name: &'a Name,
) -> Result<Written<'a>, OutOfMemory>
    requires { (versions : Versions) × HasVersions depth versions trees.now }
    ensures name { IfOk result (λ done. option_map (λ name. name.now) done.name ≡ Some (bytes_of name.now)) }
    ensures tree { IfOk result (λ done. (versions : Versions) → HasVersions depth versions trees.now →
        Matches depth done.tree (written depth versions (Coarsen (bytes_of name.now)))) }
{
    match leaves_of(trees, name.bytes()) {
        Some(leaves) => {
            let coarser = coarsen(alloc, leaves)?;
            Ok(named(name, Some(StoredTree::Reconstructed(coarser))))
        }
        None => Ok(named(name, None)),
    }
}

// Carries `compress` out: it writes the tree of the name, compressed.
fn write_compressed<'a>(
    alloc: Global,
    depth: u8,
    trees: &Trees<'_>,
    name: &'a Name,
) -> Result<Written<'a>, OutOfMemory>
    requires { (versions : Versions) × HasVersions depth versions trees.now }
    ensures name { IfOk result (λ done. option_map (λ name. name.now) done.name ≡ Some (bytes_of name.now)) }
    ensures tree { IfOk result (λ done. (versions : Versions) → HasVersions depth versions trees.now →
        Matches depth done.tree (written depth versions (Compress (bytes_of name.now)))) }
{
    match leaves_of(trees, name.bytes()) {
        Some(leaves) => {
            let differences = compress(alloc, leaves)?;
            Ok(named(name, Some(StoredTree::Compressed(differences))))
        }
        None => Ok(named(name, None)),
    }
}

// Carries `reconstruct` out: it writes the tree of the name, reconstructed.
fn write_reconstructed<'a>(
    alloc: Global,
    depth: u8,
    trees: &Trees<'_>,
    name: &'a Name,
) -> Result<Written<'a>, OutOfMemory>
    requires { (versions : Versions) × HasVersions depth versions trees.now }
    ensures name { IfOk result (λ done. option_map (λ name. name.now) done.name ≡ Some (bytes_of name.now)) }
    ensures tree { IfOk result (λ done. (versions : Versions) → HasVersions depth versions trees.now →
        Matches depth done.tree (written depth versions (Reconstruct (bytes_of name.now)))) }
{
    match compressed_of(trees, name.bytes()) {
        Some(tree) => {
            let leaves = reconstruct(alloc, tree)?;
            Ok(named(name, Some(StoredTree::Reconstructed(leaves))))
        }
        None => Ok(named(name, None)),
    }
}

// Carries `mul` out: it writes the product of the trees of two names.
fn write_product<'a>(
    alloc: Global,
    depth: u8,
    trees: &Trees<'_>,
    name: &'a Name,
    left: &Name,
    right: &Name,
) -> Result<Written<'a>, CommandError>
    requires { (versions : Versions) × HasVersions depth versions trees.now }
    ensures name { IfOk result (λ done. option_map (λ name. name.now) done.name ≡ Some (bytes_of name.now)) }
    ensures tree { IfOk result (λ done. (versions : Versions) → HasVersions depth versions trees.now →
        Matches depth done.tree (written depth versions (Mul (bytes_of name.now) (bytes_of left.now) (bytes_of right.now)))) }
    ensures over { result ≡ Err CommandError.Overflow → (versions : Versions) → HasVersions depth versions trees.now →
        command_overflows depth versions (Mul (bytes_of name.now) (bytes_of left.now) (bytes_of right.now)) ≡ true }
{
    match both_leaves(trees, left.bytes(), right.bytes()) {
        Some((left, right)) => {
            let product = multiply(alloc, depth, left, right)?;
            Ok(named(name, Some(StoredTree::Reconstructed(product))))
        }
        None => Ok(named(name, None)),
    }
}

// Carries `add` out: it writes the sum of the trees of two names, each times its factor.
fn write_sum<'a>(
    alloc: Global,
    depth: u8,
    trees: &Trees<'_>,
    name: &'a Name,
    left_factor: i64,
    left: &Name,
    right_factor: i64,
    right: &Name,
) -> Result<Written<'a>, CommandError>
    requires depth { depth ≤ max_depth }
    requires left_factor { unsigned_abs left_factor ≤ 2 ^ 20 }
    requires right_factor { unsigned_abs right_factor ≤ 2 ^ 20 }
    requires versions { (versions : Versions) × HasVersions depth versions trees.now }
    ensures name { IfOk result (λ done. option_map (λ name. name.now) done.name ≡ Some (bytes_of name.now)) }
    ensures tree { IfOk result (λ done. (versions : Versions) → HasVersions depth versions trees.now →
        Matches depth done.tree (written depth versions (Add (bytes_of name.now) left_factor (bytes_of left.now) right_factor (bytes_of right.now)))) }
    ensures over { result ≡ Err CommandError.Overflow → (versions : Versions) → HasVersions depth versions trees.now →
        command_overflows depth versions (Add (bytes_of name.now) left_factor (bytes_of left.now) right_factor (bytes_of right.now)) ≡ true }
{
    match both_compressed(trees, left.bytes(), right.bytes()) {
        Some((left, right)) => {
            let sum = add(alloc, depth, left_factor, left, right_factor, right)?;
            Ok(named(name, Some(StoredTree::Compressed(sum))))
        }
        None => Ok(named(name, None)),
    }
}

// Carries `inner` out: it adds the line of the inner product.
fn print_inner<'a>(
    depth: u8,
    trees: &Trees<'_>,
    left: &Name,
    right: &Name,
    text: &mut Text,
) -> Result<Written<'a>, OutOfMemory>
    requires { (versions : Versions) × HasVersions depth versions trees.now }
    ensures nothing { IfOk result (λ done. (done.name ≡ None) × (done.tree ≡ None)) }
    ensures text { OnOk result ((versions : Versions) → HasVersions depth versions trees.now →
        text.new ≡ text.old ++ command_lines versions (Inner (bytes_of left.now) (bytes_of right.now))) }
{
    let (left, right) = (left.bytes(), right.bytes());
    match both_compressed(trees, left, right) {
        Some((one, other)) => {
            add_inner(text, left, right, inner(depth, one, other))?;
            Ok(nothing())
        }
        None => Ok(nothing()),
    }
}

// Carries `print` out: it adds the lines of the tree.
fn print_tree<'a>(
    depth: u8,
    trees: &Trees<'_>,
    name: &Name,
    text: &mut Text,
) -> Result<Written<'a>, OutOfMemory>
    requires { (versions : Versions) × HasVersions depth versions trees.now }
    ensures nothing { IfOk result (λ done. (done.name ≡ None) × (done.tree ≡ None)) }
    ensures text { OnOk result ((versions : Versions) → HasVersions depth versions trees.now →
        text.new ≡ text.old ++ command_lines versions (Print (bytes_of name.now))) }
{
    let name = name.bytes();
    match tree_of(trees, name) {
        Some(kept) => add_tree(text, name, kept)?,
        None => {}
    }
    Ok(nothing())
}

// Carries `size` out: it adds the line of the number of the tree's keys.
fn print_size<'a>(
    depth: u8,
    trees: &Trees<'_>,
    name: &Name,
    text: &mut Text,
) -> Result<Written<'a>, OutOfMemory>
    requires { (versions : Versions) × HasVersions depth versions trees.now }
    ensures nothing { IfOk result (λ done. (done.name ≡ None) × (done.tree ≡ None)) }
    ensures text { OnOk result ((versions : Versions) → HasVersions depth versions trees.now →
        text.new ≡ text.old ++ command_lines versions (Size (bytes_of name.now))) }
{
    let name = name.bytes();
    match tree_of(trees, name) {
        Some(kept) => add_size(text, name, size(kept))?,
        None => {}
    }
    Ok(nothing())
}

/// Carries a command out: it makes the tree that the command writes, or adds its lines.
///
/// # Errors
///
/// `Overflow` where a value of the tree would be more than a cell may have; `OutOfMemory` where there is no memory left.
pub fn carry_out<'a>(
    alloc: Global,
    depth: u8,
    command: &'a Command,
    trees: &Trees<'_>,
    text: &mut Text,
) -> Result<Written<'a>, CommandError>
    requires depth { depth ≤ max_depth }
    requires limits { is_within_limits depth (data_of command.now) ≡ true }
    requires versions { (versions : Versions) × HasVersions depth versions trees.now }
    ensures name { IfOk result (λ done. option_map (λ name. name.now) done.name ≡ written_name (data_of command.now)) }
    ensures kept { IfOk result (λ done. (versions : Versions) → HasVersions depth versions trees.now →
        Matches depth done.tree (written depth versions (data_of command.now))) }
    ensures over { result ≡ Err CommandError.Overflow → (versions : Versions) → HasVersions depth versions trees.now →
        command_overflows depth versions (data_of command.now) ≡ true }
    ensures text { OnOk result ((versions : Versions) → HasVersions depth versions trees.now →
        text.new ≡ text.old ++ command_lines versions (data_of command.now)) }
    ensures text_kept { result ≡ Err CommandError.Overflow → text.new ≡ text.old }
{
    match command {
        Command::Project {
            name,
            function,
            level,
            tolerance,
        } => Ok(write_projected(alloc, depth, name, *function, *level, *tolerance)?),
        Command::Refine { name, level } => Ok(write_refined(alloc, depth, trees, name, *level)?),
        Command::Coarsen { name } => Ok(write_coarsened(alloc, depth, trees, name)?),
        Command::Compress { name } => Ok(write_compressed(alloc, depth, trees, name)?),
        Command::Reconstruct { name } => Ok(write_reconstructed(alloc, depth, trees, name)?),
        Command::Add {
            name,
            left_factor,
            left,
            right_factor,
            right,
        } => write_sum(
            alloc,
            depth,
            trees,
            name,
            *left_factor,
            left,
            *right_factor,
            right,
        ),
        Command::Mul { name, left, right } => write_product(alloc, depth, trees, name, left, right),
        Command::Inner { left, right } => Ok(print_inner(depth, trees, left, right, text)?),
        Command::Print { name } => Ok(print_tree(depth, trees, name, text)?),
        Command::Size { name } => Ok(print_size(depth, trees, name, text)?),
        Command::Fence => Ok(nothing()),
    }
}
