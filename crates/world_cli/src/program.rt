//! The program as one call.
ghost use Rattle.std.specs.Prelude.{◌≡◌, ◌≤◌, ◌⊎◌, ℕ, List, map, string_bytes, IsSome, None, Some, false};
ghost use Rattle.std.specs.Io.KnownBytes.{Appends};
ghost use Rattle.outside.specs.Causes.{Rose};
ghost use Rattle.world_cli.specs.Answers.{answer_to, has_input, usage_text, IsAnswered, IsCut, IsCutAnswer, IsFinished, IsStatus};
ghost use Rattle.command_line.specs.Requests.{request_of as requested};
ghost use Rattle.world_cli.specs.Status.{code_of};
ghost use Rattle.command_line.specs.declared.request.Request.{Request as Asked};

use crate::answer::Refusal;
use crate::requests::answer_request;
use crate::status::Status;
use app_core::Gate;
use command_line::request_of;
use outside::{Sink, Source, write_all};
use std::alloc::Global;
use std::sync::Wait;
use std::thread::Threads;

const USAGE: &[u8] = b"usage: world run, serial, check, audit or big N, with options\n";

// Writes a text, and returns the status that goes with it, or that the sink failed.
fn finish<K: Sink>(sink: &mut K, status: Status, text: &[u8]) -> u8
    requires { (piece : List ℕ) → K.fits sink.old piece }
    ensures end { IsFinished result (code_of status) text.now
        (K.taken sink.old) (K.taken sink.new) (K.faults sink.old) (K.faults sink.new) }
    ensures later { K.faults sink.old ≤ K.faults sink.new }
    ensures always { (piece : List ℕ) → K.fits sink.new piece }
    ensures made { K.made sink.new ≡ K.made sink.old }
{
    match write_all(sink, text) {
        Ok(()) => status as u8,
        Err(_) => Status::WriteFault as u8,
    }
}

/// The program `world`: carries out what the words ask for, and returns its exit status.
///
/// `words` are those after the program's name; `command_line::request_of` has their forms. With `run`, `serial` and `check`
/// the source is read to its end. `run` and `serial` do its job and write the text of the job to the sink: `run` in parallel,
/// on ranks and workers that are threads, and `serial` one command after another, also with receipts. `check` only reads the
/// job, and writes a line that tells how many commands and trees it has. `big` with `--job` reads nothing, and writes the
/// text of a generated job. All is computed before the first byte is written.
///
/// With `run`, each task enters and leaves the gate, and the call may wait for other threads: what is said of it holds if it
/// returns. With the other words nothing waits.
///
/// # Statuses
///
/// - 0: the text of the job was written, or what there is to tell of it.
/// - 1: the words are in none of the forms; the usage line was written.
/// - 2: the input isn't a job, or has more than 1,048,576 bytes, or it is run and has a command that can't be run yet; the
///   line of its first fault, or of that command, was written.
/// - 3: a command of the job overflows; the text before it was written, and a line that names it.
/// - 4: memory was refused; nothing was written.
/// - 5: the source failed; nothing was written.
/// - 6: the sink failed; a prefix of what was to be written was written.
pub fn world_main<S: Source, K: Sink, G: Gate, R: Wait + Threads + Sync>(
    rt: &R,
    alloc: Global,
    words: &[String],
    source: &mut S,
    sink: &mut K,
    gate: &G,
) -> u8
    requires { (piece : List ℕ) → K.fits sink.old piece }

    // Words that ask for nothing give the usage line, unless memory runs out.
    ensures usage { requested (map string_bytes words.now) ≡ None → (result ≡ 4) ⊎ IsFinished result 1 usage_text
        (K.taken sink.old) (K.taken sink.new) (K.faults sink.old) (K.faults sink.new) }
    ensures usage_only { result ≡ 1 → requested (map string_bytes words.now) ≡ None }

    // They leave the source as it is, and so does a request without an input.
    ensures usage_unread { requested (map string_bytes words.now) ≡ None → source.new ≡ source.old }
    ensures unread { (request : Asked) → requested (map string_bytes words.now) ≡ Some request →
        has_input request ≡ false → source.new ≡ source.old }

    // What each other status says: the bytes are those that the source told as left.
    ensures done { result ≡ 0 →
        IsAnswered (map string_bytes words.now) 0 (S.left source.old) (K.taken sink.old) (K.taken sink.new) }
    ensures job_fault { result ≡ 2 →
        IsAnswered (map string_bytes words.now) 2 (S.left source.old) (K.taken sink.old) (K.taken sink.new) }
    ensures overflow { result ≡ 3 →
        IsAnswered (map string_bytes words.now) 3 (S.left source.old) (K.taken sink.old) (K.taken sink.new) }
    ensures out_of_memory { result ≡ 4 → sink.new ≡ sink.old }
    ensures read_fault { result ≡ 5 →
        Rose (S.faults source.old) (S.faults source.new) × (sink.new ≡ sink.old) }
    ensures write_fault { result ≡ 6 → Rose (K.faults sink.old) (K.faults sink.new) }
    ensures write_cut { result ≡ 6 → IsSome (requested (map string_bytes words.now)) →
        IsCutAnswer (map string_bytes words.now) (S.left source.old) (K.taken sink.old) (K.taken sink.new) }
    ensures known { IsStatus result }

    // Without a fault of source or sink a told input has its status, unless memory runs out.
    ensures complete { (request : Asked) (bytes : List ℕ) →
        requested (map string_bytes words.now) ≡ Some request →
        S.left source.old ≡ Some bytes →
        ¬ Rose (S.faults source.old) (S.faults source.new) →
        ¬ Rose (K.faults sink.old) (K.faults sink.new) →
        (result ≡ (answer_to request bytes).status) ⊎ (result ≡ 4) }

    // A request without an input has its status whatever the source does.
    ensures complete_without_input { (request : Asked) (bytes : List ℕ) →
        requested (map string_bytes words.now) ≡ Some request →
        has_input request ≡ false →
        ¬ Rose (K.faults sink.old) (K.faults sink.new) →
        (result ≡ (answer_to request bytes).status) ⊎ (result ≡ 4) }

    // What stays whatever the answer.
    ensures source_faults { S.faults source.old ≤ S.faults source.new }
    ensures sink_faults { K.faults sink.old ≤ K.faults sink.new }
    ensures sink_fits { (piece : List ℕ) → K.fits sink.new piece }
    ensures sink_made { K.made sink.new ≡ K.made sink.old }
{
    let request = match request_of(alloc, words) {
        Ok(Some(request)) => request,
        Ok(None) => return finish(sink, Status::Usage, USAGE),
        Err(_) => return Status::OutOfMemory as u8,
    };
    match answer_request(rt, alloc, request, source, gate) {
        Ok(answer) => finish(sink, answer.status, answer.text.bytes()),
        Err(Refusal::ReadFault) => Status::ReadFault as u8,
        Err(Refusal::OutOfMemory) => Status::OutOfMemory as u8,
    }
}
