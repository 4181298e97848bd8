//! What holds of the definitions of jobs.
ghost use Rattle.job_data.specs.Drops.{VersionsAreDroppedOnce};
ghost use Rattle.job_data.specs.Meaning.{CommandsHaveMeaning};

/// Each command of a job has a meaning: the trees that it reads are there, in the form that it needs, and the model has a
/// version for what it writes, in the form that the checks say, or lines. Whatever the names stand for, the model has those
/// exactly where these trees are there.
pub fn commands_have_meaning()
    ensures { CommandsHaveMeaning }
{}

/// The versions that are dropped at a fence were written before it, and no command after it reads them. Each is dropped at
/// one fence, once; and each version of a job that is read no more after a fence is dropped there, or was before.
pub fn versions_are_dropped_once()
    ensures { VersionsAreDroppedOnce }
{}
