//! The commands of a job's first lines, and the reading of one more line.
ghost use Rattle.std.specs.Prelude.{◌≡◌, ℕ, List, [], ◌∷◌, ◌++◌, ◌+◌, ◌≤◌, true, IfOk, OnOk, OnErr};
ghost use Rattle.tree_model.specs.Functions.{max_depth};
ghost use Rattle.job_lang.specs.declared.fault.JobFault.{JobFault as FaultData};
ghost use Rattle.job_data.specs.Checks.{is_accepted};
ghost use Rattle.job_words.specs.Lines.{words as line_words};
ghost use Rattle.job_lang.specs.Code.{form_data};
ghost use Rattle.job_data.specs.declared.fault_kind.FaultKind.TheVariants.{BeyondLimits};
ghost use Rattle.job_lang.specs.Grammar.{command_of_form};
ghost use Rattle.job_data.specs.CheckedCommands.{checked_command};
ghost use Rattle.job_lang.specs.Reading.{command_of_line, command_of_words, commands_from, read};
ghost use Rattle.job_lang.specs.Slices.{texts};

use crate::fault::JobFault;
use crate::form::Form;
use crate::parse_error::ParseError;
use crate::verb::Verb;
use job_data::{Command, FaultKind, History, Job};
use job_words::{has_allowed_bytes, is_passed_over, words_of};
use std::alloc::{AllocError, Global};
use std::marker::Model;

/// The commands of a job's first lines, each accepted after those before it.
#[derive(Drop)]
pub struct Accepted {
    depth: u8,
    commands: Vec<Command>,
    history: History,
}

impl Model for Accepted {
    ghost use Rattle.std.specs.Prelude.{map};
    ghost use Rattle.tree_model.specs.Jobs.{JobData};
    ghost use Rattle.job_lang.specs.Accepted.{IsRecalled};
    ghost use Rattle.job_data.specs.Data.{data_of};

    ghost Value = { JobData };

    ghost view = { λ a. record { depth = a.depth; commands = map data_of a.commands.items } };

    ghost invariant = { λ a. IsRecalled (record { depth = a.depth; commands = map data_of a.commands.items }) a.history };
}

impl Accepted {
    ghost use Rattle.job_data.specs.Data.{command_read, data_of};

    /// No commands, at a depth from 0 to 16.
    pub fn new(alloc: Global, depth: u8) -> Accepted
        requires { depth ≤ max_depth }
        ensures { result ≡ record { depth = depth; commands = [] } }
    {
        Accepted {
            depth,
            commands: Vec::new(alloc),
            history: History::new(),
        }
    }

    // Adds a command that is accepted after the others.
    fn push(&mut self, command: Command) -> Result<(), AllocError>
        requires { is_accepted self.old.depth self.old.commands (data_of command) ≡ true }
        ensures ok { OnOk result
            (self.new ≡ record self.old { commands = self.old.commands ++ data_of command ∷ [] }) }
        ensures err { OnErr result (self.new ≡ self.old) }
    {
        let mut history = self.history;
        history.add(&self.commands, &command);
        self.commands.push(command)?;
        self.history = history;
        Ok(())
    }

    // The command of a form, or the lowest kind of fault that it has after the others.
    fn command_of_form(&self, form: &Form) -> Result<Command, FaultKind>
        ensures command { command_read result
            ≡ read BeyondLimits (command_of_form (form_data form.now)) (checked_command self.now.depth self.now.commands) }
        ensures accepted { IfOk result (λ c. is_accepted self.now.depth self.now.commands (data_of c) ≡ true) }
    {
        let depth = self.depth;
        let Some(command) = form.to_command() else {
            return Err(FaultKind::BeyondLimits);
        };
        let fault = self.history.fault_of(depth, &self.commands, &command);
        match fault {
            Some(kind) => Err(kind),
            None => Ok(command),
        }
    }

    // The command that a line's words say, or the lowest kind of fault that it has after the others.
    fn command_of(&self, words: &[&[u8]]) -> Result<Command, FaultKind>
        ensures command { command_read result
            ≡ command_of_words self.now.depth self.now.commands (texts words.now) }
        ensures accepted { IfOk result (λ c. is_accepted self.now.depth self.now.commands (data_of c) ≡ true) }
    {
        let Some((first, rest)) = words.split_first() else {
            return Err(FaultKind::UnknownCommand);
        };
        let Some(verb) = Verb::of_word(first) else {
            return Err(FaultKind::UnknownCommand);
        };
        let Some(form) = Form::of_words(verb, rest) else {
            return Err(FaultKind::WrongWords);
        };
        self.command_of_form(&form)
    }

    // The command that a line says that isn't passed over, or the lowest kind of fault that it has after the others.
    fn command_of_line(&self, line: &[u8], words: &[&[u8]]) -> Result<Command, FaultKind>
        requires { texts words.now ≡ line_words line.now }
        ensures command { command_read result
            ≡ command_of_line self.now.depth self.now.commands line.now }
        ensures accepted { IfOk result (λ c. is_accepted self.now.depth self.now.commands (data_of c) ≡ true) }
    {
        if !has_allowed_bytes(line) {
            return Err(FaultKind::ForeignByte);
        }
        self.command_of(words)
    }

    /// Takes the line of a number: it is passed over, or its command is added. An error leaves the commands as they
    /// were.
    ///
    /// # Errors
    ///
    /// `Fault` where the line has a fault, with the lowest kind; `OutOfMemory` where there is no memory left.
    pub fn take_line(&mut self, alloc: Global, number: u64, line: &[u8]) -> Result<(), ParseError>
        ensures depth { self.new.depth ≡ self.old.depth }
        ensures ok { OnOk result ((rest : List (List ℕ)) →
            commands_from self.old.depth self.old.commands number (line.now ∷ rest)
            ≡ commands_from self.old.depth self.new.commands (number + 1) rest) }
        ensures err { OnErr result (self.new ≡ self.old) }
        ensures fault { (fault : FaultData) (rest : List (List ℕ)) → result ≡ Err (ParseError.Fault fault) →
            commands_from self.old.depth self.old.commands number (line.now ∷ rest) ≡ Err fault }
    {
        let words = words_of(alloc, line)?;
        if is_passed_over(&words) {
            return Ok(());
        }
        match self.command_of_line(line, &words) {
            Ok(command) => {
                self.push(command)?;
                Ok(())
            }
            Err(kind) => Err(ParseError::Fault(JobFault { line: number, kind })),
        }
    }

    /// The job of the commands.
    pub fn into_job(self) -> Job
        ensures { result ≡ self }
    {
        Job::new(self.depth, self.commands)
    }
}
