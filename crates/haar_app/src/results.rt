//! The lines of commands, from the values of their results.
ghost use Rattle.std.specs.Prelude.{◌≡◌, ◌↔◌, Err, Some, IfOk};
ghost use Rattle.app_core.specs.Commands.{IsCommand};
ghost use Rattle.app_core.specs.declared.Label.{Label as LabelData};
ghost use Rattle.haar_units.specs.ModelJobs.{command_at};
ghost use Rattle.haar_base.specs.declared.value.Value.TheVariants.{Bad};
ghost use Rattle.haar_meaning.specs.PlannedJobs.{standing};
ghost use Rattle.haar_meaning.specs.PlannedJobs.Standing.{Before, At};
ghost use Rattle.haar_meaning.specs.RightValues.{IsRightValue};
ghost use Rattle.haar_results.specs.declared.result_error.ResultError.TheVariants.{Overflow};
ghost use Rattle.haar_results.specs.Results.{lines_from_value, work_of, made_of};
ghost use Rattle.haar_results.specs.RightResults.{AreRightResults, IsJobText, lines_of};
ghost use Rattle.haar_results.specs.Texts.{made_in};
ghost use Rattle.haar_steps.specs.Starts.{kinds_of, result_of};
ghost use Rattle.haar_app.specs.PlannedApps.{job_in};

use crate::haar_app::HaarApp;
use app_core::OutOfMemory;
use haar_base::Value;
use haar_results::{JobLines, ResultError, lines_of_results, result_text};
use std::alloc::Global;
use tree_key::Text;

impl HaarApp {
    /// The lines of a command, from the value of its result: from a right value the lines that the command writes, which are
    /// none for a command that writes a tree. A number that isn't the command's gives none.
    ///
    /// # Errors
    ///
    /// `Overflow` exactly where the value is `Bad`, as a right value is at the first command that overflows; `OutOfMemory`
    /// where there is no memory left.
    pub fn result_text(
        &self,
        alloc: Global,
        command: u32,
        value: &Value,
    ) -> Result<Text, ResultError>
        requires { IsCommand (kinds_of self.now.commands.operations.items) command }
        ensures lines { IfOk result (λ text. lines_from_value (command_at self.now.job.commands command) value.now ≡ Some text) }
        ensures overflow { (result ≡ Err Overflow) ↔ (value.now ≡ Bad) }
        ensures right { (future : LabelData) → result_of self.now.commands.operations.items command ≡ Some future → IsRightValue (job_in self.now) future value.now
            → standing (job_in self.now) command ≡ Before → IfOk result (λ text. text ≡ lines_of self.now.job command) }
        ensures fine { (future : LabelData) → result_of self.now.commands.operations.items command ≡ Some future → IsRightValue (job_in self.now) future value.now
            → standing (job_in self.now) command ≡ Before → result ≡ Err Overflow → ⊥ }
        ensures first { (future : LabelData) → result_of self.now.commands.operations.items command ≡ Some future → IsRightValue (job_in self.now) future value.now
            → standing (job_in self.now) command ≡ At → result ≡ Err Overflow }
    {
        let commands = self.job.commands();
        result_text(alloc, &commands[command as usize - 1], value)
    }

    /// The lines that the results of all commands make, up to the first that overflows: one value for each command but
    /// fences, in order. From right values, this is the text of the job.
    pub fn lines_of_results(&self, alloc: Global, values: &[Value]) -> Result<JobLines, OutOfMemory>
        ensures lines { IfOk result (λ lines. made_in lines ≡ made_of (work_of self.now.job.commands) values.now) }
        ensures right { AreRightResults (job_in self.now) values.now → IfOk result (λ lines. IsJobText self.now.job (made_in lines)) }
    {
        lines_of_results(alloc, self.job.commands(), values)
    }
}
