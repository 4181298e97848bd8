//! The plan of a job, and whether a job may be traced.
ghost use Rattle.std.specs.Prelude.{◌≡◌, IfOk};
ghost use Rattle.job_data.specs.Versions.{plan_of, trace_fits};

use crate::steps::Plan;
use job_data::{Drops, History, Job, Step};
use std::alloc::Global;
use tree_key::OutOfMemory;

// For each command of a job the versions that it reads and writes, and the fence that ends it.
fn steps_of(alloc: Global, job: &Job) -> Result<Vec<Step>, OutOfMemory>
    ensures { IfOk result (λ steps. steps.items ≡ plan_of job.now) }
{
    // Called for its clause `job` alone: each command is accepted after those before it, and so is among the first 512,
    // which `step_of` and `add` ask.
    let _depth = job.depth();
    let commands = job.commands();
    let mut history = History::new();
    let mut steps = Vec::new(alloc);
    for at in 0..commands.len() {
        let before = &commands[..at];
        let command = &commands[at];
        steps.push(history.step_of(before, command))?;
        history.add(before, command);
    }
    Ok(steps)
}

/// For each command of a job the versions that it reads and writes, and the fence that ends it; and for each fence the
/// versions that are dropped there.
pub fn plan(alloc: Global, job: &Job) -> Result<Plan, OutOfMemory>
    ensures { IfOk result (λ plan. plan ≡ plan_of job.now) }
{
    let steps = steps_of(alloc, job)?;
    let drops = Drops::of_steps(alloc, &steps)?;
    Ok(Plan::new(steps, drops))
}

const MAX_TRACED_DEPTH: u8 = 10;

const MAX_TRACED_COMMANDS: usize = 64;

/// Whether a job may be traced: its depth is at most 10, and it has at most 64 commands.
pub fn trace_fits(job: &Job) -> bool
    ensures { result ≡ trace_fits job.now }
{
    job.depth() <= MAX_TRACED_DEPTH && job.commands().len() <= MAX_TRACED_COMMANDS
}
