//! A job done serially, command by command.
ghost use Rattle.std.specs.Prelude.{◌≡◌, ◌+◌, ◌<◌, ◌≤◌, ◌++◌, ℕ, List, [], ◌∷◌, None, Some, Err, IfOk, OnOk, length, true, false};
ghost use Rattle.std.specs.Option.{option_map};
ghost use Rattle.tree_model.specs.Commands.{Command as CommandData};
ghost use Rattle.tree_model.specs.Functions.{max_depth};
ghost use Rattle.tree_model.specs.Jobs.{command_lines, first_overflow, job_text, lines_before};
ghost use Rattle.tree_model.specs.OperationTexts.{overflow_line};
ghost use Rattle.tree_model.specs.Receipts.{receipt, receipts_before, text_of};
ghost use Rattle.tree_model.specs.Signatures.{written_name};
ghost use Rattle.tree_model.specs.Versions.{Versions, written, after, command_overflows, versions_behind};
ghost use Rattle.job_data.specs.Checks.{is_within_limits, max_commands};
ghost use Rattle.job_data.specs.Data.{data_of};
ghost use Rattle.tree_totals.specs.Counts.{by_map, distribution_of};
ghost use Rattle.plain_tree.specs.Receipts.{HasCounted};
ghost use Rattle.tree_operations.specs.StoredTrees.{Matches};
ghost use Rattle.plain_tree.specs.Trees.{HasVersions};

use crate::counting::command_total;
use crate::receipts::Receipts;
use crate::serial_error::SerialError;
use crate::trees::{Trees, put};
use crate::writing::{Written, carry_out};
use job_data::{Command, Job};
use owner_map::OwnerMap;
use std::alloc::Global;
use std::collections::BTreeMap;
use tree_key::{OutOfMemory, Text};
use tree_operations::CommandError;
use tree_totals::Distribution;

// Gives the name that a command writes the tree that it wrote, if it wrote one.
fn put_written<'a>(done: Written<'a>, trees: &mut Trees<'a>) -> Result<(), OutOfMemory>
    ensures { OnOk result ((depth : ℕ) (versions : Versions) (command : CommandData) →
        option_map (λ name. name.now) done.entry.name ≡ written_name command →
        HasVersions depth versions trees.old →
        Matches depth done.entry.tree (written depth versions command) →
        HasVersions depth (after depth versions command) trees.new) }
{
    let Written { name, tree } = done;
    match tree {
        None => Ok(()),
        Some(kept) => match name {
            Some(name) => put(trees, name, kept),
            None => Ok(()),
        },
    }
}

// Carries a command out, and gives its tree to the name that it writes.
fn run_command<'a>(
    alloc: Global,
    depth: u8,
    command: &'a Command,
    trees: &mut Trees<'a>,
    text: &mut Text,
) -> Result<(), CommandError>
    requires depth { depth ≤ max_depth }
    requires limits { is_within_limits depth (data_of command.now) ≡ true }
    requires versions { (versions : Versions) × HasVersions depth versions trees.old }
    ensures trees { OnOk result ((versions : Versions) → HasVersions depth versions trees.old →
        HasVersions depth (after depth versions (data_of command.now)) trees.new) }
    ensures text { OnOk result ((versions : Versions) → HasVersions depth versions trees.old →
        text.new ≡ text.old ++ command_lines versions (data_of command.now)) }
    ensures within { OnOk result ((versions : Versions) → HasVersions depth versions trees.old →
        command_overflows depth versions (data_of command.now) ≡ false) }
    ensures over { result ≡ Err CommandError.Overflow → (versions : Versions) → HasVersions depth versions trees.old →
        command_overflows depth versions (data_of command.now) ≡ true }
    ensures kept { result ≡ Err CommandError.Overflow → text.new ≡ text.old }
{
    let done = carry_out(alloc, depth, command, trees, text)?;
    put_written(done, trees)?;
    Ok(())
}

// Carries a command out as `run_command` does, and adds its receipt.
fn run_with_receipt<'a>(
    alloc: Global,
    depth: u8,
    command: &'a Command,
    trees: &mut Trees<'a>,
    text: &mut Text,
    receipts: &mut Receipts,
) -> Result<(), CommandError>
    requires depth { depth ≤ max_depth }
    requires limits { is_within_limits depth (data_of command.now) ≡ true }
    requires before { (before : List CommandData) × (length before < max_commands) ×
        HasVersions depth (versions_behind depth before) trees.old × HasCounted depth before receipts.old }
    ensures trees { OnOk result ((versions : Versions) → HasVersions depth versions trees.old →
        HasVersions depth (after depth versions (data_of command.now)) trees.new) }
    ensures text { OnOk result ((before : List CommandData) →
        HasVersions depth (versions_behind depth before) trees.old → HasCounted depth before receipts.old →
        text.new ≡ text.old ++ command_lines (versions_behind depth before) (data_of command.now) ++
        receipt (distribution_of receipts.old.distribution) depth before (data_of command.now)) }
    ensures counted { OnOk result ((before : List CommandData) →
        HasVersions depth (versions_behind depth before) trees.old → HasCounted depth before receipts.old →
        HasCounted depth (before ++ data_of command.now ∷ []) receipts.new) }
    ensures distribution { receipts.new.distribution ≡ receipts.old.distribution }
    ensures within { OnOk result ((versions : Versions) → HasVersions depth versions trees.old →
        command_overflows depth versions (data_of command.now) ≡ false) }
    ensures over { result ≡ Err CommandError.Overflow → (versions : Versions) → HasVersions depth versions trees.old →
        command_overflows depth versions (data_of command.now) ≡ true }
    ensures kept { result ≡ Err CommandError.Overflow → text.new ≡ text.old }
{
    let done = carry_out(alloc, depth, command, trees, text)?;
    let total = command_total(receipts.distribution, command, trees, done.tree.as_ref());
    receipts.add(command, total, text)?;
    put_written(done, trees)?;
    Ok(())
}

// Why a job isn't done to its end, at a command, with the text of those before it.
fn stopped(error: CommandError, before: usize, text: Text) -> SerialError
    requires { before < max_commands }
    ensures overflow { error ≡ CommandError.Overflow → result ≡ SerialError.Overflow (before + 1) text }
    ensures out_of_memory { error ≡ CommandError.OutOfMemory → result ≡ SerialError.OutOfMemory }
{
    match error {
        CommandError::Overflow => SerialError::Overflow {
            command: before as u32 + 1,
            text,
        },
        CommandError::OutOfMemory => SerialError::OutOfMemory,
    }
}

// The text of a job without receipts.
fn without_receipts(alloc: Global, job: &Job) -> Result<Text, SerialError>
    ensures within { IfOk result (λ text. first_overflow job.now ≡ None) }
    ensures text { IfOk result (λ text. text ≡ job_text job.now) }
    ensures overflow { (command : ℕ) (before : List ℕ) →
        result ≡ Err (SerialError.Overflow command before) → first_overflow job.now ≡ Some command }
    ensures text_before { (command : ℕ) (before : List ℕ) →
        result ≡ Err (SerialError.Overflow command before) → before ≡ lines_before job.now command }
{
    let mut trees = BTreeMap::new(alloc);
    let mut text = Text::new(alloc);
    let depth = job.depth();
    for (index, command) in job.commands().iter().enumerate() {
        match run_command(alloc, depth, command, &mut trees, &mut text) {
            Ok(()) => {}
            Err(error) => return Err(stopped(error, index, text)),
        }
    }
    Ok(text)
}

// The text of a job with receipts.
fn with_receipts(alloc: Global, job: &Job, distribution: Distribution) -> Result<Text, SerialError>
    ensures within { IfOk result (λ text. first_overflow job.now ≡ None) }
    ensures text { IfOk result (λ text. text ≡ text_of (distribution_of distribution) true job.now) }
    ensures overflow { (command : ℕ) (before : List ℕ) →
        result ≡ Err (SerialError.Overflow command before) → first_overflow job.now ≡ Some command }
    ensures text_before { (command : ℕ) (before : List ℕ) →
        result ≡ Err (SerialError.Overflow command before) →
        before ≡ receipts_before (distribution_of distribution) job.now command }
{
    let mut trees = BTreeMap::new(alloc);
    let mut text = Text::new(alloc);
    let mut receipts = Receipts::new(distribution);
    let depth = job.depth();
    for (index, command) in job.commands().iter().enumerate() {
        match run_with_receipt(alloc, depth, command, &mut trees, &mut text, &mut receipts) {
            Ok(()) => {}
            Err(error) => return Err(stopped(error, index, text)),
        }
    }
    match receipts.add_end(&mut text) {
        Ok(()) => Ok(text),
        Err(_) => Err(SerialError::OutOfMemory),
    }
}

/// The text of a job, as its commands write it one after another. With `receipts`, the line of each fence and one at the
/// end tell how many messages and tasks the commands before it come to when an owner map distributes the keys over 1 to
/// 16 `ranks`. Without them, neither plays a part.
///
/// # Errors
///
/// `Overflow` exactly where a command overflows, with the first such command and the text of the commands before it;
/// `OutOfMemory` where there is no memory left.
pub fn serial(
    alloc: Global,
    job: &Job,
    map: OwnerMap,
    ranks: u32,
    receipts: bool,
) -> Result<Text, SerialError>
    requires some { 1 ≤ ranks }
    requires few { ranks ≤ 16 }
    ensures within { IfOk result (λ text. first_overflow job.now ≡ None) }
    ensures text { IfOk result (λ text. text ≡ text_of (by_map map ranks) receipts job.now) }
    ensures overflow { (command : ℕ) (before : List ℕ) →
        result ≡ Err (SerialError.Overflow command before) → first_overflow job.now ≡ Some command }
    ensures text_before { (command : ℕ) (before : List ℕ) →
        result ≡ Err (SerialError.Overflow command before) →
        before ++ overflow_line command ≡ text_of (by_map map ranks) receipts job.now }
{
    if receipts {
        with_receipts(alloc, job, Distribution { map, ranks })
    } else {
        without_receipts(alloc, job)
    }
}
