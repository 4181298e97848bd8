//! What the program answers to a job.
ghost use Rattle.std.specs.Prelude.{◌≡◌, ◌≤◌, ◌<◌, ◌++◌, IfOk, IfSome, OnOk, false, length, position};
ghost use Rattle.app_core.specs.Commands.{IsRankCount};
ghost use Rattle.job_data.specs.Data.{data_of};
ghost use Rattle.tree_model.specs.OperationTexts.{overflow_line};
ghost use Rattle.tree_totals.specs.Counts.{by_map};
ghost use Rattle.world_cli.specs.Answers.{check_answer, first_unbuilt, is_unbuilt, run_job_answer, serial_job_answer, unbuilt_answer};
ghost use Rattle.world_cli.specs.Status.{code_of};

use crate::answer::Answer;
use crate::parallel::parallel_job;
use crate::status::Status;
use app_core::Gate;
use crew::Config;
use job_lang::{Command, Job};
use owner_map::OwnerMap;
use plain_tree::{SerialError, serial};
use std::alloc::Global;
use std::sync::Wait;
use std::thread::Threads;
use tree_key::{OutOfMemory, Text};

/// Adds the line of the command that overflows.
pub fn add_overflow(alloc: Global, text: &mut Text, command: u32) -> Result<(), OutOfMemory>
    ensures { OnOk result (text.new ≡ text.old ++ overflow_line command) }
{
    let line = format!(in alloc; "overflow at command {command}\n")?;
    text.add(line.as_bytes())
}

/// The answer to a job that is done serially: its text, which ends with the command that overflows, if one does.
pub fn serial_job(
    alloc: Global,
    job: &Job,
    map: OwnerMap,
    ranks: u32,
    receipts: bool,
) -> Result<Answer, OutOfMemory>
    requires some { 1 ≤ ranks }
    requires few { ranks ≤ 16 }
    ensures status { IfOk result (λ answer. code_of answer.status ≡ (serial_job_answer (by_map map ranks) receipts job.now).status) }
    ensures text { IfOk result (λ answer. answer.text ≡ (serial_job_answer (by_map map ranks) receipts job.now).text) }
{
    match serial(alloc, job, map, ranks, receipts) {
        Ok(text) => Ok(Answer {
            status: Status::Done,
            text,
        }),
        Err(SerialError::Overflow { command, text }) => {
            let mut text = text;
            add_overflow(alloc, &mut text, command)?;
            Ok(Answer {
                status: Status::Overflow,
                text,
            })
        }
        Err(SerialError::OutOfMemory) => Err(OutOfMemory),
    }
}

// Whether `run` can't carry a command out yet.
fn is_unbuilt(command: &Command) -> bool
    ensures { result ≡ is_unbuilt (data_of command.now) }
{
    matches!(command, Command::Coarsen { .. } | Command::Size { .. })
}

// The place of the first of these commands that `run` can't carry out yet.
fn unbuilt_place(commands: &[Command]) -> Option<usize>
    ensures place { result ≡ position (λ command. is_unbuilt (data_of command)) commands.now }
    ensures within { IfSome result (λ place. place < length commands.now) }
{
    commands.iter().position(|command| is_unbuilt(command))
}

// The number of the first command that `run` can't carry out yet.
fn first_unbuilt(job: &Job) -> Option<usize>
    ensures { result ≡ first_unbuilt job.now }
{
    let place = unbuilt_place(job.commands())?;
    Some(place + 1)
}

// The answer to a job that has such a command.
fn unbuilt(alloc: Global, number: usize) -> Result<Answer, OutOfMemory>
    ensures status { IfOk result (λ answer. code_of answer.status ≡ (unbuilt_answer number).status) }
    ensures text { IfOk result (λ answer. answer.text ≡ (unbuilt_answer number).text) }
{
    let line = format!(in alloc; "fault command {number} unbuilt\n")?;
    Ok(Answer {
        status: Status::JobFault,
        text: Text::of_bytes(line.into_bytes()),
    })
}

/// The answer to a job that is run: the line of its first command that can't be carried out yet, or its text.
pub fn run_job<G: Gate, R: Wait + Threads + Sync>(
    rt: &R,
    alloc: Global,
    job: Job,
    map: OwnerMap,
    config: &Config,
    gate: &G,
) -> Result<Answer, OutOfMemory>
    requires ranks { IsRankCount config.now.ranks }
    requires workers { config.now.workers ≤ 4 }
    requires untraced { config.now.trace ≡ false }
    ensures status { IfOk result (λ answer. code_of answer.status ≡ (run_job_answer job).status) }
    ensures text { IfOk result (λ answer. answer.text ≡ (run_job_answer job).text) }
{
    match first_unbuilt(&job) {
        Some(number) => unbuilt(alloc, number),
        None => parallel_job(rt, alloc, job, map, config, gate),
    }
}

/// The answer to a job that is only read: how many commands and trees it has.
pub fn check_job(alloc: Global, job: &Job) -> Result<Answer, OutOfMemory>
    ensures status { IfOk result (λ answer. code_of answer.status ≡ (check_answer job.now).status) }
    ensures text { IfOk result (λ answer. answer.text ≡ (check_answer job.now).text) }
{
    let commands = job.command_count();
    let trees = job.trees();
    let line = format!(in alloc; "ok commands {commands} trees {trees}\n")?;
    Ok(Answer {
        status: Status::Done,
        text: Text::of_bytes(line.into_bytes()),
    })
}
