//! What the commands of a job do.
ghost use Rattle.std.specs.Prelude.{◌≡◌, ◌≤◌, Some, length, true};
ghost use Rattle.app_core.specs.Commands.{IsCommand, kind_of as kind_at};
ghost use Rattle.haar_base.specs.Operations.{operation_at, is_within, are_within};
ghost use Rattle.haar_steps.specs.Starts as starts;
ghost use Rattle.haar_steps.specs.Steps as steps;

use crate::names;
use app_core::{CommandKind, Label};
use haar_base::Operation;

/// What each command of a job does, in order, and the depth of the job. Commands are numbered from 1.
#[derive(Drop)]
pub struct Commands {
    pub depth: u8,
    pub operations: Vec<Operation>,
    pub ghost is_deep: { depth ≤ 16 },
    pub ghost is_within: { are_within depth operations.items ≡ true },
    pub ghost is_few: { length operations.items ≤ 512 },
}

impl Commands {
    /// What the command of a number does. None where there is no such command.
    pub fn operation(&self, command: u32) -> Option<Operation>
        ensures { result ≡ operation_at self.now.operations.items command }
    {
        match command.checked_sub(1) {
            Some(before) => self.operations.get(before as usize).copied(),
            None => None,
        }
    }

    /// How many commands there are. They are numbered from 1.
    pub fn number(&self) -> u32
        ensures { result ≡ length (starts.kinds_of self.now.operations.items) }
    {
        self.operations.len() as u32
    }

    /// Whether a command is work or a fence.
    pub fn kind(&self, command: u32) -> CommandKind
        requires { IsCommand (starts.kinds_of self.now.operations.items) command }
        ensures { kind_at (starts.kinds_of self.now.operations.items) command ≡ Some result }
    {
        match self.operation(command) {
            Some(Operation::Fence) => CommandKind::Fence,
            _ => CommandKind::Work,
        }
    }

    /// The future of a command's result. None exactly for a fence.
    pub fn result(&self, command: u32) -> Option<Label>
        requires { IsCommand (starts.kinds_of self.now.operations.items) command }
        ensures { result ≡ starts.result_of self.now.operations.items command }
    {
        match self.operation(command) {
            Some(Operation::Fence) => None,
            Some(_) => Some(names::result(command)),
            None => None,
        }
    }

    /// What a command does at a key that there is; elsewhere nothing.
    pub fn known(&self, command: u32, there: bool) -> Operation
        ensures value { result ≡ steps.known_by there (operation_at self.now.operations.items command) }
        ensures within { is_within self.now.depth result ≡ true }
    {
        match self.operation(command) {
            Some(operation) => { if there { operation } else { Operation::Fence } }
            None => Operation::Fence,
        }
    }
}
