//! Receipts: a line at each fence, and one at the end, with what the commands before it come to.
ghost use Rattle.std.specs.Prelude.{◌≡◌, ◌<◌, ◌≤◌, ◌^◌, ◌++◌, ℕ, List, [], ◌∷◌, OnOk, codes, decimal, length};
ghost use Rattle.job_data.specs.Checks.{max_commands};
ghost use Rattle.job_data.specs.Data.{data_of};
ghost use Rattle.tree_model.specs.Commands.{Command as CommandData};
ghost use Rattle.tree_model.specs.Receipts.{end_line, fence_line, is_fence, receipt, total_text};
ghost use Rattle.tree_model.specs.Totals.{command_total};
ghost use Rattle.tree_model.specs.Versions.{versions_behind};
ghost use Rattle.tree_totals.specs.Counts.{distribution_of, total_of};
ghost use Rattle.plain_tree.specs.Receipts.{HasCounted};

use itoa::Buffer;
use job_data::Command;
use tree_key::{OutOfMemory, Text};
use tree_totals::{Distribution, Total};

/// What the commands so far come to.
#[derive(Clone, Copy, Debug, PartialEq, Eq)]
pub struct Receipts {
    /// How keys are distributed over ranks.
    pub distribution: Distribution,
    /// The number of the fences so far.
    pub fences: u32,
    /// The messages and tasks of the commands so far.
    pub total: Total,
}

// Whether a command is a fence.
fn is_fence(command: &Command) -> bool
    ensures { result ≡ is_fence (data_of command.now) }
{
    command.signature().fences
}

// Adds a number.
fn add_count(text: &mut Text, number: u64) -> Result<(), OutOfMemory>
    ensures { OnOk result (text.new ≡ text.old ++ decimal number) }
{
    let mut buffer = Buffer::new();
    text.add(buffer.format(number).as_bytes())
}

// Adds the numbers of a total, and ends the line.
fn add_total(text: &mut Text, total: Total) -> Result<(), OutOfMemory>
    ensures { OnOk result (text.new ≡ text.old ++ total_text (total_of total)) }
{
    text.add(b"messages ")?;
    add_count(text, total.messages)?;
    text.add(b" tasks ")?;
    add_count(text, total.tasks)?;
    text.add(b"\n")
}

// Adds the line of a fence.
fn add_fence(text: &mut Text, number: u32, total: Total) -> Result<(), OutOfMemory>
    ensures { OnOk result (text.new ≡ text.old ++ fence_line number (total_of total)) }
{
    text.add(b"fence ")?;
    add_count(text, u64::from(number))?;
    text.add(b" ")?;
    add_total(text, total)
}

impl Receipts {
    /// No command so far.
    pub fn new(distribution: Distribution) -> Receipts
        ensures distribution { result.distribution ≡ distribution }
        ensures counted { (depth : ℕ) → HasCounted depth [] result }
    {
        Receipts {
            distribution,
            fences: 0,
            total: Total::nothing(),
        }
    }

    /// Counts one more command: adds the line of a fence, if the command is one, and then what the command comes to.
    pub fn add(
        &mut self,
        command: &Command,
        total: Total,
        text: &mut Text,
    ) -> Result<(), OutOfMemory>
        requires few { (depth : ℕ) × (before : List CommandData) × HasCounted depth before self.old × (length before < max_commands) }
        requires messages { total.messages ≤ 2 ^ 20 }
        requires tasks { total.tasks ≤ 2 ^ 20 }
        ensures distribution { self.new.distribution ≡ self.old.distribution }
        ensures text { OnOk result ((depth : ℕ) (before : List CommandData) → HasCounted depth before self.old →
            text.new ≡ text.old ++ receipt (distribution_of self.old.distribution) depth before (data_of command.now)) }
        ensures counted { OnOk result ((depth : ℕ) (before : List CommandData) → HasCounted depth before self.old →
            total_of total ≡ command_total (distribution_of self.old.distribution) depth (versions_behind depth before) (data_of command.now) →
            HasCounted depth (before ++ data_of command.now ∷ []) self.new) }
    {
        if is_fence(command) {
            self.fences += 1;
            add_fence(text, self.fences, self.total)?;
        }
        self.total = self.total.plus(total);
        Ok(())
    }

    /// Adds the line at the end.
    pub fn add_end(&self, text: &mut Text) -> Result<(), OutOfMemory>
        ensures { OnOk result (text.new ≡ text.old ++ end_line (total_of self.now.total)) }
    {
        text.add(b"end ")?;
        add_total(text, self.total)
    }
}
