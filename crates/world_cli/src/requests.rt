//! What the program answers to a request.
ghost use Rattle.std.specs.Prelude.{◌≡◌, ◌≤◌, IfOk, IsErrOf, false, true};
ghost use Rattle.outside.specs.Causes.{Rose};
ghost use Rattle.command_line.specs.Requests.{HasRanks, HasWorkers};
ghost use Rattle.world_cli.specs.Answers.{Answers, answer_to, has_input};
ghost use Rattle.world_cli.specs.Status.{code_of};

use crate::answer::{Answer, Refusal};
use crate::reading::{MAX_INPUT, too_long};
use crate::texts::{big_text, check_text, fault_answer, run_text, serial_text};
use app_core::Gate;
use command_line::Request;
use crew::Config;
use outside::{ReadAllError, Source, read_all};
use std::alloc::Global;
use std::sync::Wait;
use std::thread::Threads;
use tree_key::OutOfMemory;

// Whether a request has an input.
fn has_input(request: Request) -> bool
    ensures { result ≡ has_input request }
{
    !matches!(request, Request::BigJob { .. })
}

// The answer to a request on the bytes of an input.
fn answer_bytes<G: Gate, R: Wait + Threads + Sync>(
    rt: &R,
    alloc: Global,
    request: Request,
    bytes: &[u8],
    gate: &G,
) -> Result<Answer, OutOfMemory>
    requires ranks { HasRanks request }
    requires workers { HasWorkers request }
    ensures status { IfOk result (λ answer. code_of answer.status ≡ (answer_to request bytes.now).status) }
    ensures text { IfOk result (λ answer. answer.text ≡ (answer_to request bytes.now).text) }
{
    match request {
        Request::Run {
            ranks,
            workers,
            map,
        } => {
            let config = Config {
                ranks,
                workers,
                trace: false,
            };
            run_text(rt, alloc, bytes, map, &config, gate)
        }
        Request::Serial {
            ranks,
            map,
            receipts,
        } => serial_text(alloc, bytes, map, ranks, receipts),
        Request::Check => check_text(alloc, bytes),
        Request::BigJob { number } => big_text(alloc, number),
    }
}

// The answer to a request on what a source gives, which is read to its end.
fn answer_input<S: Source, G: Gate, R: Wait + Threads + Sync>(
    rt: &R,
    alloc: Global,
    request: Request,
    source: &mut S,
    gate: &G,
) -> Result<Answer, Refusal>
    requires ranks { HasRanks request }
    requires workers { HasWorkers request }
    requires input { has_input request ≡ true }
    ensures answer { IfOk result (λ answer. Answers request (S.left source.old) (code_of answer.status) answer.text) }
    ensures read_fault { IsErrOf result Refusal.ReadFault → Rose (S.faults source.old) (S.faults source.new) }
    ensures later { S.faults source.old ≤ S.faults source.new }
{
    match read_all(alloc, source, MAX_INPUT) {
        Ok(bytes) => Ok(answer_bytes(rt, alloc, request, &bytes, gate)?),
        Err(ReadAllError::TooLong) => Ok(fault_answer(too_long(alloc)?)),
        Err(ReadAllError::ReadFault) => Err(Refusal::ReadFault),
        Err(ReadAllError::OutOfMemory) => Err(Refusal::OutOfMemory),
    }
}

/// The answer to a request. The source is read to its end where the request has an input, and else stays as it is.
pub fn answer_request<S: Source, G: Gate, R: Wait + Threads + Sync>(
    rt: &R,
    alloc: Global,
    request: Request,
    source: &mut S,
    gate: &G,
) -> Result<Answer, Refusal>
    requires ranks { HasRanks request }
    requires workers { HasWorkers request }
    ensures answer { IfOk result (λ answer. Answers request (S.left source.old) (code_of answer.status) answer.text) }
    ensures read_fault { IsErrOf result Refusal.ReadFault → Rose (S.faults source.old) (S.faults source.new) }
    ensures later { S.faults source.old ≤ S.faults source.new }
    ensures unread { has_input request ≡ false → source.new ≡ source.old }
    ensures needless { has_input request ≡ false → ¬ IsErrOf result Refusal.ReadFault }
{
    if has_input(request) {
        answer_input(rt, alloc, request, source, gate)
    } else {
        Ok(answer_bytes(rt, alloc, request, &[], gate)?)
    }
}
