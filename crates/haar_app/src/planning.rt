//! How an application is made of a job.
ghost use Rattle.std.specs.Prelude.{◌≡◌, ℕ, ◌≤◌, true, length, map, IfOk};
ghost use Rattle.std.specs.Option.{option_map};
ghost use Rattle.job_data.specs.Checks.{is_within_limits};
ghost use Rattle.job_data.specs.Data.{data_of, form_of};
ghost use Rattle.haar_base.specs.declared.operation.Operation.TheVariants as does;
ghost use Rattle.haar_base.specs.Operations.{is_within, are_within};
ghost use Rattle.app_core.specs.Commands.{IsRankCount};
ghost use Rattle.haar_app.specs.Planning.{first_of, second_of, code_at, written_at, tree_form, operation_for, reads_in};
ghost use Rattle.haar_app.specs.KeptPlans.{ArePlans};

use crate::haar_app::HaarApp;
use app_core::OutOfMemory;
use haar_base::Operation;
use haar_node::Func;
use haar_steps::Commands;
use job_data::{Command, Job, Sources, Step, TreeForm};
use job_lang::plan;
use job_words::Name;
use owner_map::OwnerMap;
use std::alloc::Global;

// The version that a command reads first, or 0.
fn first_version(reads: Sources) -> u32
    ensures { result ≡ first_of reads }
{
    match reads {
        Sources::Nothing => 0,
        Sources::One(version) => version,
        Sources::Two(left, _) => left,
    }
}

// The version that a command reads second, or 0.
fn second_version(reads: Sources) -> u32
    ensures { result ≡ second_of reads }
{
    match reads {
        Sources::Nothing => 0,
        Sources::One(_) => 0,
        Sources::Two(_, right) => right,
    }
}

/// The command of a number, from 1.
pub fn command_at(commands: &[Command], number: u32) -> Option<Command>
    ensures { result ≡ code_at commands.now number }
{
    match number.checked_sub(1) {
        Some(before) => commands.get(before as usize).copied(),
        None => None,
    }
}

// The form in which the command of a number writes its tree. None where it writes none.
fn written_at(commands: &[Command], version: u32) -> Option<TreeForm>
    ensures { option_map form_of result ≡ written_at (map data_of commands.now) version }
{
    match command_at(commands, version) {
        Some(command) => command.written_form(),
        None => None,
    }
}

// The form in which a version was written.
fn form_of(commands: &[Command], version: u32) -> TreeForm
    ensures { result ≡ tree_form (written_at (map data_of commands.now) version) }
{
    written_at(commands, version).unwrap_or(TreeForm::Reconstructed)
}

// The projection of a function.
fn project(function: Func, level: u8, tolerance: u32) -> Operation
    ensures { result ≡ does.Project function level tolerance }
{
    Operation::Project {
        function,
        level,
        tolerance,
    }
}

// The sum of two versions, each times its factor.
fn add(left_factor: i64, left: u32, right_factor: i64, right: u32) -> Operation
    ensures { result ≡ does.Add left_factor left right_factor right }
{
    Operation::Add {
        left_factor,
        left,
        right_factor,
        right,
    }
}

// The lines of a version, in the form in which it was written.
fn print(commands: &[Command], source: u32, name: Name) -> Operation
    ensures { result ≡ does.Print source (tree_form (written_at (map data_of commands.now) source)) name }
{
    let form = form_of(commands, source);
    Operation::Print { source, form, name }
}

// What a command does, by its step of the plan.
fn operation_of(commands: &[Command], command: &Command, reads: Sources) -> Operation
    ensures value { result ≡ operation_for command.now reads (tree_form (written_at (map data_of commands.now) (first_of reads))) }
    ensures within { (depth : ℕ) → is_within_limits depth (data_of command.now) ≡ true → is_within depth result ≡ true }
{
    let first = first_version(reads);
    let second = second_version(reads);
    match *command {
        Command::Project {
            name: _,
            function,
            level,
            tolerance,
        } => project(function, level, tolerance),
        Command::Refine { name: _, level } => Operation::Refine {
            level,
            source: first,
        },
        Command::Coarsen { .. } => Operation::Coarsen { source: first },
        Command::Compress { .. } => Operation::Compress { source: first },
        Command::Reconstruct { .. } => Operation::Reconstruct { source: first },
        Command::Add {
            left_factor,
            right_factor,
            ..
        } => add(left_factor, first, right_factor, second),
        Command::Mul { .. } => Operation::Mul {
            left: first,
            right: second,
        },
        Command::Inner { .. } => Operation::Inner {
            left: first,
            right: second,
        },
        Command::Print { name } => print(commands, first, name),
        Command::Size { .. } => Operation::Size { source: first },
        Command::Fence => Operation::Fence,
    }
}

// The versions that the command at a place reads.
fn reads_at(steps: &[Step], at: usize) -> Sources
    ensures { result ≡ reads_in steps.now at }
{
    match steps.get(at) {
        Some(step) => step.reads,
        None => Sources::Nothing,
    }
}

// What each command of a job does.
fn operations_of(alloc: Global, job: &Job) -> Result<Vec<Operation>, OutOfMemory>
    ensures within { IfOk result (λ v. are_within job.now.depth v.items ≡ true) }
    ensures few { IfOk result (λ v. length v.items ≤ 512) }
    ensures number { IfOk result (λ v. length v.items ≡ length job.now.commands) }
    ensures plans { IfOk result (λ v. ArePlans job.now.commands v.items) }
{
    // Called for its clause `job` alone: each command is accepted after those before it.
    let _depth = job.depth();
    let plan = plan(alloc, job)?;
    let steps = plan.steps();
    let commands = job.commands();
    let mut operations = Vec::with_capacity(alloc, commands.len())?;
    for (index, command) in commands.iter().enumerate() {
        operations.push(operation_of(commands, command, reads_at(steps, index)))?;
    }
    Ok(operations)
}

impl HaarApp {
    /// The application of a job, for an owner map and a number of ranks.
    pub fn new(alloc: Global, job: Job, map: OwnerMap, ranks: u32) -> Result<HaarApp, OutOfMemory>
        requires { IsRankCount ranks }
        ensures job { IfOk result (λ app. app.job ≡ job) }
        ensures map { IfOk result (λ app. app.map ≡ map) }
        ensures ranks { IfOk result (λ app. app.ranks ≡ ranks) }
    {
        let operations = operations_of(alloc, &job)?;
        let depth = job.depth();
        let commands = Commands { depth, operations };
        Ok(HaarApp {
            job,
            commands,
            map,
            ranks,
        })
    }
}
