//! Commands of forms, whose numbers need not be within their limits yet.
ghost use Rattle.std.specs.Prelude.{◌≡◌};
ghost use Rattle.std.specs.Option.{option_map};
ghost use Rattle.job_lang.specs.Code.{form_data};
ghost use Rattle.job_data.specs.Data.{data_of};
ghost use Rattle.job_lang.specs.Limits.{small_command};

use crate::form::Form;
use crate::function_form::{MAX_SIZE, size_up_to};
use job_data::Command;

const MAX_LEVEL: u64 = 255;

impl Form {
    /// The command of the form, where its numbers have the sizes that a command keeps. None only where they aren't within
    /// their limits at any depth.
    pub fn to_command(&self) -> Option<Command>
        ensures { option_map data_of result ≡ small_command (form_data self.now) }
    {
        match *self {
            Form::Project {
                name,
                function,
                level,
                tolerance,
            } => {
                let function = function.to_func()?;
                let level = size_up_to(MAX_LEVEL, level)? as u8;
                let tolerance = size_up_to(MAX_SIZE, tolerance)? as u32;
                Some(Command::Project {
                    name,
                    function,
                    level,
                    tolerance,
                })
            }
            Form::Refine { name, level } => {
                let level = size_up_to(MAX_LEVEL, level)? as u8;
                Some(Command::Refine { name, level })
            }
            Form::Command(command) => Some(command),
        }
    }
}
