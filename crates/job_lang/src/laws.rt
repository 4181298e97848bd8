//! What holds of the definitions of reading.
ghost use Rattle.job_lang.specs.FirstFaults.{FirstFaultsAreTold};
ghost use Rattle.job_lang.specs.Kinds.{LowestKindsAreAnswered};

pub use job_data::laws::commands_have_meaning;

/// Of a line that isn't passed over, the lowest of the kinds of fault that it has, each tested by itself, is the one that is
/// returned; and where it has none, the command that it says.
pub fn lowest_kinds_are_answered()
    ensures { LowestKindsAreAnswered }
{}

/// The fault that is reported is that of the first line that has one: each line before it has none, neither as the header's
/// nor after the commands that the lines before it say. Of the header's line a foreign byte is reported before its form. And
/// a job is read where no line has a fault.
pub fn first_faults_are_told()
    ensures { FirstFaultsAreTold }
{}
