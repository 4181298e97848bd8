//! The lines of commands from the values of their results, and those of all commands.
ghost use Rattle.std.specs.Prelude.{◌≡◌, ◌↔◌, ◌≤◌, Err, Some, IfOk, length, map};
ghost use Rattle.haar_base.specs.declared.value.Value.TheVariants.{Bad};
ghost use Rattle.job_data.specs.Checks.{is_fence};
ghost use Rattle.job_data.specs.Data.{data_of};
ghost use Rattle.haar_results.specs.Results.{number_line, value_lines, work_of, made_of};
ghost use Rattle.haar_results.specs.Texts.{made_in, IsAddedTo};
ghost use Rattle.haar_results.specs.declared.result_error.ResultError.TheVariants.{Overflow};

use crate::result_error::ResultError;
use app_core::OutOfMemory;
use haar_base::Value;
use haar_lines::texts::{inner_line, size_line};
use job_data::Command;
use std::alloc::Global;
use tree_key::Text;

/// The lines of commands before the first that overflows, and the number of that command.
#[derive(Drop)]
pub struct JobLines {
    pub text: Text,
    pub overflow: Option<u32>,
}

// The line of a number that a command gives; empty where the command doesn't give the value.
fn number_text(alloc: Global, command: &Command, value: &Value) -> Result<Text, OutOfMemory>
    ensures { IfOk result (λ text. text ≡ number_line (data_of command.now) value.now) }
{
    match (command, value) {
        (Command::Inner { left, right }, Value::Product(product)) => {
            inner_line(alloc, left.bytes(), right.bytes(), *product)
        }
        (Command::Size { name }, Value::Count(count)) => size_line(alloc, name.bytes(), *count),
        _ => Ok(Text::new(alloc)),
    }
}

/// The lines of a command, from the value of its result.
///
/// # Errors
///
/// `Overflow` exactly where the value is `Bad`; `OutOfMemory` where there is no memory left.
pub fn result_text(alloc: Global, command: &Command, value: &Value) -> Result<Text, ResultError>
    ensures lines { IfOk result (λ text. value_lines (data_of command.now) value.now ≡ Some text) }
    ensures overflow { (result ≡ Err Overflow) ↔ (value.now ≡ Bad) }
{
    match value {
        Value::Bad => Err(ResultError::Overflow),
        Value::Lines(lines) => Ok(lines.text(alloc)?),
        _ => Ok(number_text(alloc, command, value)?),
    }
}

// Whether a command is a fence, which has no result.
fn is_fence(command: &Command) -> bool
    ensures { result ≡ is_fence (data_of command.now) }
{
    matches!(command, Command::Fence)
}

// Adds the lines of a command, from the value of its result. False where the command overflows.
fn add_lines(
    alloc: Global,
    text: &mut Text,
    command: &Command,
    value: &Value,
) -> Result<bool, OutOfMemory>
    ensures { IfOk result (λ added. IsAddedTo text.old (value_lines (data_of command.now) value.now) added text.new) }
{
    match result_text(alloc, command, value) {
        Ok(lines) => {
            text.add(lines.bytes())?;
            Ok(true)
        }
        Err(ResultError::Overflow) => Ok(false),
        Err(ResultError::OutOfMemory) => Err(OutOfMemory),
    }
}

/// The lines that the results of commands make, up to the first that overflows: one value for each command but fences, in
/// order. There are at most 512 commands.
pub fn lines_of_results(
    alloc: Global,
    commands: &[Command],
    values: &[Value],
) -> Result<JobLines, OutOfMemory>
    requires { length commands.now ≤ 512 }
    ensures { IfOk result (λ lines. made_in lines ≡ made_of (work_of (map data_of commands.now)) values.now) }
{
    let mut text = Text::new(alloc);
    let mut place = 0usize;
    for index in 0..commands.len() {
        let command = &commands[index];
        if is_fence(command) {
            continue;
        }
        if place >= values.len() {
            return Ok(JobLines {
                text,
                overflow: None,
            });
        }
        let value = &values[place];
        if !add_lines(alloc, &mut text, command, value)? {
            let overflow = Some(index as u32 + 1);
            return Ok(JobLines { text, overflow });
        }
        place += 1;
    }
    Ok(JobLines {
        text,
        overflow: None,
    })
}
