//! The job that an input is, or the line that says why it is none.
ghost use Rattle.std.specs.Prelude.{◌≡◌, ◌++◌, ℕ, List, Err, Ok, IfOk, codes};
ghost use Rattle.job_lang.specs.Faults.{fault_line};
ghost use Rattle.world_cli.specs.Answers.{input_reading};

use job_lang::{Job, JobFault, ParseError, parse};
use std::alloc::Global;
use tree_key::{OutOfMemory, Text};

/// Why the bytes of an input are no job.
#[derive(Drop)]
pub enum Unread {
    /// The line of their fault.
    Fault(Text),
    /// Memory was refused.
    OutOfMemory,
}

impl From<OutOfMemory> for Unread {
    ghost use Rattle.world_cli.specs.declared.reading.Unread.TheVariants.{OutOfMemory as NoMemory};

    ghost from_gives = { λ _ e. e ≡ NoMemory };

    fn from(_error: OutOfMemory) -> Unread {
        Unread::OutOfMemory
    }
}

/// The most bytes that an input may have.
pub const MAX_INPUT: usize = 1_048_576;

/// The line of an input that has too many bytes.
pub fn too_long(alloc: Global) -> Result<Text, OutOfMemory>
    ensures { IfOk result (λ text. text ≡ codes "fault too long\n") }
{
    Ok(Text::of_bytes(Vec::from_slice(alloc, b"fault too long\n")?))
}

// The line of a fault.
fn fault_text(alloc: Global, fault: JobFault) -> Result<Text, OutOfMemory>
    ensures { IfOk result (λ text. text ≡ fault_line fault ++ codes "\n") }
{
    let line = format!(in alloc; "{fault}\n")?;
    Ok(Text::of_bytes(line.into_bytes()))
}

/// The job that the bytes of an input are. `Fault` exactly where they are none, or more than 1,048,576.
pub fn read_job(alloc: Global, bytes: &[u8]) -> Result<Job, Unread>
    ensures job { IfOk result (λ job. input_reading bytes.now ≡ Ok job) }
    ensures fault { (line : List ℕ) → result ≡ Err (Unread.Fault line) → input_reading bytes.now ≡ Err line }
{
    if bytes.len() > MAX_INPUT {
        return Err(Unread::Fault(too_long(alloc)?));
    }
    match parse(alloc, bytes) {
        Ok(job) => Ok(job),
        Err(ParseError::Fault(fault)) => Err(Unread::Fault(fault_text(alloc, fault)?)),
        Err(ParseError::OutOfMemory) => Err(Unread::OutOfMemory),
    }
}
