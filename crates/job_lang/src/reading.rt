//! The reading of a whole text: the header, and a command for each line after it.
ghost use Rattle.std.specs.Prelude.{◌≡◌, ◌+◌, ◌<◌, ◌≤◌, ◌^◌, ℕ, List, [], length, IfOk};
ghost use Rattle.std.specs.Str.Lines.{lines};
ghost use Rattle.tree_model.specs.Functions.{max_depth};
ghost use Rattle.job_lang.specs.declared.fault.JobFault.{JobFault as FaultData};
ghost use Rattle.job_words.specs.Lines.{words as line_words};
ghost use Rattle.job_lang.specs.Reading.{header_from, commands_from, depth_of_line, reading_of};
ghost use Rattle.job_lang.specs.Slices.{texts};

use crate::accepted::Accepted;
use crate::fault::JobFault;
use crate::form::header_of;
use crate::parse_error::ParseError;
use job_data::{FaultKind, Job};
use job_words::{has_allowed_bytes, is_passed_over, next_line, words_of};
use std::alloc::Global;

/// What the header says, and the text after it.
#[derive(Clone, Copy)]
struct Header<'a> {
    depth: u8,
    number: u64,
    rest: &'a [u8],
}

// The depth that a line has as the header, or the lowest kind of fault that it has.
fn depth_of_line(line: &[u8], words: &[&[u8]]) -> Result<u8, FaultKind>
    requires { texts words.now ≡ line_words line.now }
    ensures value { result ≡ depth_of_line line.now }
    ensures small { IfOk result (λ depth. depth ≤ max_depth) }
{
    if !has_allowed_bytes(line) {
        return Err(FaultKind::ForeignByte);
    }
    match header_of(words) {
        Some(depth) => Ok(depth),
        None => Err(FaultKind::NoHeader),
    }
}

// The first line that isn't passed over has to be the header.
fn header_from(alloc: Global, text: &[u8]) -> Result<Header, ParseError>
    ensures ok { IfOk result (λ h. header_from 1 (lines text.now)
        ≡ Ok (record { depth = h.depth; number = h.number; rest = lines h.rest.now })) }
    ensures depth { IfOk result (λ h. h.depth ≤ max_depth) }
    ensures number { IfOk result (λ h. h.number + length h.rest.now ≤ length text.now + 1) }
    ensures fault { (fault : FaultData) → result ≡ Err (ParseError.Fault fault) →
        header_from 1 (lines text.now) ≡ Err fault }
{
    let mut rest = text;
    let mut number = 1;
    while let Some((line, behind)) = next_line(rest) {
        let words = words_of(alloc, line)?;
        if !is_passed_over(&words) {
            return match depth_of_line(line, &words) {
                Ok(depth) => Ok(Header {
                    depth,
                    number: number + 1,
                    rest: behind,
                }),
                Err(kind) => Err(ParseError::Fault(JobFault { line: number, kind })),
            };
        }
        rest = behind;
        number += 1;
    }
    Err(ParseError::Fault(JobFault {
        line: number,
        kind: FaultKind::NoHeader,
    }))
}

// The commands of all lines, of which the first has this number.
fn commands_from(alloc: Global, depth: u8, number: u64, text: &[u8]) -> Result<Accepted, ParseError>
    requires depth { depth ≤ max_depth }
    requires number { number + length text.now < 2 ^ 64 }
    ensures depth { IfOk result (λ a. a.depth ≡ depth) }
    ensures ok { IfOk result (λ a. commands_from depth [] number (lines text.now) ≡ Ok a.commands) }
    ensures fault { (fault : FaultData) → result ≡ Err (ParseError.Fault fault) →
        commands_from depth [] number (lines text.now) ≡ Err fault }
{
    let mut accepted = Accepted::new(alloc, depth);
    let mut rest = text;
    let mut number = number;
    while let Some((line, behind)) = next_line(rest) {
        accepted.take_line(alloc, number, line)?;
        rest = behind;
        number += 1;
    }
    Ok(accepted)
}

/// The job that a text is.
///
/// # Errors
///
/// `Fault` where the text isn't a job, with the first line that has a fault and its lowest kind; `OutOfMemory` where there is no memory left.
pub fn parse(alloc: Global, bytes: &[u8]) -> Result<Job, ParseError>
    ensures job { IfOk result (λ job. reading_of bytes.now ≡ Ok job) }
    ensures fault { (fault : FaultData) → result ≡ Err (ParseError.Fault fault) →
        reading_of bytes.now ≡ Err fault }
{
    let header = header_from(alloc, bytes)?;
    let accepted = commands_from(alloc, header.depth, header.number, header.rest)?;
    Ok(accepted.into_job())
}
