//! Jobs: a depth, and commands that pass the checks.
ghost use Rattle.std.specs.Prelude.{◌≡◌, ◌↔◌, ℕ, [], IfSome, IsSome, length, true, map};
ghost use Rattle.job_data.specs.Checks.{IsJob, are_accepted, trees_behind};
ghost use Rattle.job_data.specs.Data.{data_of};

use crate::command::Command;
use crate::history::History;
use haar_node::MAX_DEPTH;
use std::marker::Model;

/// A job: its depth, from 0 to 16, and its commands, each accepted after those before it.
#[derive(Drop)]
pub struct Job {
    depth: u8,
    commands: Vec<Command>,
}

impl Model for Job {
    ghost use Rattle.std.specs.Prelude.{map};
    ghost use Rattle.tree_model.specs.Jobs.{JobData};
    ghost use Rattle.job_data.specs.Checks.{IsJob};
    ghost use Rattle.job_data.specs.Data.{data_of};

    ghost Value = { JobData };

    ghost view = { λ j. record { depth = j.depth; commands = map data_of j.commands.items } };

    ghost invariant = { λ j. IsJob (record { depth = j.depth; commands = map data_of j.commands.items }) };
}

// Whether each of the commands is accepted after those before it.
fn are_accepted(depth: u8, commands: &[Command]) -> bool
    ensures { result ≡ are_accepted depth [] (map data_of commands.now) }
{
    let mut history = History::new();
    for at in 0..commands.len() {
        let before = &commands[..at];
        let command = &commands[at];
        if !history.is_accepted(depth, before, command) {
            return false;
        }
        history.add(before, command);
    }
    true
}

// How many trees these commands write, each of which is accepted after those before it.
fn trees_of(commands: &[Command]) -> u32
    requires { (depth : ℕ) × (are_accepted depth [] (map data_of commands.now) ≡ true) }
    ensures { result ≡ trees_behind [] (map data_of commands.now) }
{
    let mut history = History::new();
    for at in 0..commands.len() {
        history.add(&commands[..at], &commands[at]);
    }
    history.trees(commands)
}

impl Job {
    /// A job of its parts, which are known to be one.
    pub fn new(depth: u8, commands: Vec<Command>) -> Job
        requires { IsJob (record { depth = depth; commands = map data_of commands.items }) }
        ensures { result ≡ record { depth = depth; commands = map data_of commands.items } }
    {
        Job { depth, commands }
    }

    /// A job of its parts. None exactly where they are no job: the depth is above 16, or a command isn't accepted after
    /// those before it. It takes no memory.
    pub fn of_commands(depth: u8, commands: Vec<Command>) -> Option<Job>
        ensures some { IsSome result ↔ IsJob (record { depth = depth; commands = map data_of commands.items }) }
        ensures job { IfSome result (λ job. job ≡ record { depth = depth; commands = map data_of commands.items }) }
    {
        if depth > MAX_DEPTH || !are_accepted(depth, &commands) {
            return None;
        }
        Some(Job::new(depth, commands))
    }

    /// The depth.
    pub fn depth(&self) -> u8
        ensures value { result ≡ self.now.depth }
        ensures job { IsJob self.now }
    {
        self.depth
    }

    /// The commands, in order.
    pub fn commands(&self) -> &[Command]
        ensures { map data_of result.now ≡ self.now.commands }
    {
        &self.commands
    }

    /// How many commands there are, fences among them.
    pub fn command_count(&self) -> usize
        ensures { result ≡ length self.now.commands }
    {
        self.commands.len()
    }

    /// How many trees the commands write, by their names.
    pub fn trees(&self) -> u32
        ensures { result ≡ trees_behind [] self.now.commands }
    {
        trees_of(&self.commands)
    }
}
