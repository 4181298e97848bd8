//! What the program answers to the bytes of an input, by each of its words; and the text of a generated job.
ghost use Rattle.std.specs.Prelude.{◌≡◌, ◌≤◌, IfOk, false};
ghost use Rattle.app_core.specs.Commands.{IsRankCount};
ghost use Rattle.big_job.specs.Generator.{big_job};
ghost use Rattle.job_lang.specs.Canonical.{canonical_text};
ghost use Rattle.tree_totals.specs.Counts.{by_map};
ghost use Rattle.world_cli.specs.Answers.{check_answer, input_answer, run_job_answer, serial_job_answer};
ghost use Rattle.world_cli.specs.Status.{code_of};

use crate::answer::Answer;
use crate::job_answers::{check_job, run_job, serial_job};
use crate::reading::{Unread, read_job};
use crate::status::Status;
use app_core::Gate;
use big_job::big_job;
use crew::Config;
use job_lang::print;
use owner_map::OwnerMap;
use std::alloc::Global;
use std::sync::Wait;
use std::thread::Threads;
use tree_key::{OutOfMemory, Text};

/// The answer to an input that is no job.
pub fn fault_answer(line: Text) -> Answer
    ensures status { code_of result.status ≡ 2 }
    ensures text { result.text ≡ line }
{
    Answer {
        status: Status::JobFault,
        text: line,
    }
}

/// What `serial` answers to the bytes of a job: its text with status 0, and with `receipts` what it comes to at each fence
/// when an owner map distributes the keys over 1 to 16 `ranks`; the text before the first command that overflows and a line
/// that names it with status 3; the line of the first fault with status 2, also for more than 1,048,576 bytes. `OutOfMemory`
/// when memory is refused.
pub fn serial_text(
    alloc: Global,
    bytes: &[u8],
    map: OwnerMap,
    ranks: u32,
    receipts: bool,
) -> Result<Answer, OutOfMemory>
    requires some { 1 ≤ ranks }
    requires few { ranks ≤ 16 }
    ensures status { IfOk result (λ answer.
        code_of answer.status ≡ (input_answer (serial_job_answer (by_map map ranks) receipts) bytes.now).status) }
    ensures text { IfOk result (λ answer. answer.text ≡ (input_answer (serial_job_answer (by_map map ranks) receipts) bytes.now).text) }
{
    match read_job(alloc, bytes) {
        Ok(job) => serial_job(alloc, &job, map, ranks, receipts),
        Err(Unread::Fault(line)) => Ok(fault_answer(line)),
        Err(Unread::OutOfMemory) => Err(OutOfMemory),
    }
}

/// What `run` answers to the bytes of a job: as `serial` without receipts, but status 2 and a line with its number for the
/// first `coarsen` or `size`, which can't be run yet. The job is done in parallel, on the ranks and workers of a `Config`,
/// with an owner map; each task enters and leaves the gate. `OutOfMemory` when memory is refused.
pub fn run_text<G: Gate, R: Wait + Threads + Sync>(
    rt: &R,
    alloc: Global,
    bytes: &[u8],
    map: OwnerMap,
    config: &Config,
    gate: &G,
) -> Result<Answer, OutOfMemory>
    requires ranks { IsRankCount config.now.ranks }
    requires workers { config.now.workers ≤ 4 }
    requires untraced { config.now.trace ≡ false }
    ensures status { IfOk result (λ answer. code_of answer.status ≡ (input_answer run_job_answer bytes.now).status) }
    ensures text { IfOk result (λ answer. answer.text ≡ (input_answer run_job_answer bytes.now).text) }
{
    match read_job(alloc, bytes) {
        Ok(job) => run_job(rt, alloc, job, map, config, gate),
        Err(Unread::Fault(line)) => Ok(fault_answer(line)),
        Err(Unread::OutOfMemory) => Err(OutOfMemory),
    }
}

/// What `check` answers to the bytes of a job: how many commands and trees it has with status 0; the line of the first fault
/// with status 2, also for more than 1,048,576 bytes. `OutOfMemory` when memory is refused.
pub fn check_text(alloc: Global, bytes: &[u8]) -> Result<Answer, OutOfMemory>
    ensures status { IfOk result (λ answer. code_of answer.status ≡ (input_answer check_answer bytes.now).status) }
    ensures text { IfOk result (λ answer. answer.text ≡ (input_answer check_answer bytes.now).text) }
{
    match read_job(alloc, bytes) {
        Ok(job) => check_job(alloc, &job),
        Err(Unread::Fault(line)) => Ok(fault_answer(line)),
        Err(Unread::OutOfMemory) => Err(OutOfMemory),
    }
}

/// The canonical text of the generated job of a number. `OutOfMemory` when memory is refused.
pub fn big_text(alloc: Global, number: u32) -> Result<Answer, OutOfMemory>
    ensures status { IfOk result (λ answer. code_of answer.status ≡ 0) }
    ensures text { IfOk result (λ answer. answer.text ≡ canonical_text (big_job number)) }
{
    let job = big_job(alloc, number)?;
    Ok(Answer {
        status: Status::Done,
        text: Text::of_bytes(print(alloc, &job)?),
    })
}
