//! The program over sources and sinks in memory.
ghost use Rattle.std.specs.Prelude.{◌≡◌, []};
ghost use Rattle.outside.specs.Causes.{Rose};

use crate::world_main;
use app_core::NoGate;
use job_lang::{parse, print};
use outside::{MemSink, MemSource};
use std::alloc::{AllocError, Global};
use std::sync::Wait;
use std::test::Fail;
use std::thread::Threads;

pub(crate) const USAGE: &[u8] = b"usage: world run, serial, check, audit or big N, with options\n";

// The job of a ramp at depth 2, printed, and its text.
pub(crate) const RAMP: &[u8] = b"job 1 depth 2\nproject f ramp 0 1 level 0 tol 0\nprint f\n";

pub(crate) const RAMP_TEXT: &[u8] = b"tree f reconstructed\n2 0 0\n2 1 1\n2 2 2\n2 3 3\n";

// The words of a command line.
fn words_of(alloc: Global, words: &[&str]) -> Result<Vec<String>, AllocError> {
    let mut all = Vec::new(alloc);
    for word in words {
        all.push(String::from_str(alloc, *word)?)?;
    }
    Ok(all)
}

// A status, and what was written.
#[derive(Drop)]
pub(crate) struct Outcome {
    pub(crate) status: u8,
    pub(crate) written: Vec<u8>,
}

// Runs the program over memory.
pub(crate) fn run_over_memory<R: Wait + Threads + Sync>(
    rt: &R,
    alloc: Global,
    words: &[&str],
    input: &[u8],
) -> Result<Outcome, AllocError> {
    let words = words_of(alloc, words)?;
    let mut source = MemSource::new(Vec::from_slice(alloc, input)?, 4096, Vec::new(alloc));
    let mut sink = MemSink::new(alloc, 4096, Vec::new(alloc));
    let status = world_main(rt, alloc, &words, &mut source, &mut sink, &NoGate);
    Ok(Outcome {
        status,
        written: Vec::from_slice(alloc, sink.bytes())?,
    })
}

#[test]
fn jobs_and_faults(rt: HostRuntime) -> Result<(), Fail> {
    let cases: [(&[u8], u8, &[u8]); 9] = [
        (b"", 2, b"fault line 1 F2 header\n"),
        (
            b"job 1 depth 0\nproject f const 5 level 0 tol 0\nprint f\n",
            0,
            b"tree f reconstructed\n0 0 5\n",
        ),
        (RAMP, 0, RAMP_TEXT),
        // A difference that equals the tolerance is left unsplit.
        (
            b"job 1 depth 2\nproject f ramp 0 1 level 0 tol 2\nprint f\n",
            0,
            b"tree f reconstructed\n0 0 0\n",
        ),
        (b"job 1 depth 2\n", 0, b""),
        // The last projection of a name is the one that is printed.
        (
            b"job 1 depth 1\nproject f const 1 level 0 tol 0\nproject g const 9 level 0 tol 0\nproject f const -2 level 1 tol 0\nprint f\nprint g\n",
            0,
            b"tree f reconstructed\n1 0 -2\n1 1 -2\ntree g reconstructed\n0 0 18\n",
        ),
        (
            b"job 1 depth 1\n\n# f isn't written\nprint f\n",
            2,
            b"fault line 4 F6 unknown tree\n",
        ),
        (
            b"job 1 depth 1\nproject f ramp 0 16777216 level 0 tol 0\n",
            0,
            b"",
        ),
        (
            b"job 1 depth 1\nproject f ramp 0 16777217 level 0 tol 0\n",
            2,
            b"fault line 2 F5 limit\n",
        ),
    ];
    for (input, status, text) in cases {
        let outcome = run_over_memory(&rt, rt.alloc(), &["run"], input)?;
        assert_eq!(rt; outcome.status, status);
        assert!(rt; outcome.written.as_slice() == text);
    }
    Ok(())
}

// The first two lines of jobs on a ramp over four cells.
pub(crate) const RAMP_LINES: &[u8] = b"job 1 depth 2\nproject f ramp 0 1 level 0 tol 0\n";

// The ramp's tree in its compressed form.
const COMPRESSED_TEXT: &[u8] = b"tree f compressed 6\n0 0 -4\n1 0 -1\n1 1 -1\n";

// The job of a ramp is its own canonical text, and reads as the same job again.
#[test]
fn canonical_job(rt: HostRuntime) -> Result<(), Fail> {
    let alloc = rt.alloc();
    let job = parse(alloc, RAMP)?;
    let text = print(alloc, &job)?;
    assert!(rt; text.as_slice() == RAMP);
    let again = parse(alloc, &text)?;
    assert_eq!(rt; again.depth(), job.depth());
    assert_eq!(rt; again.command_count(), job.command_count());
    assert!(rt; print(alloc, &again)?.as_slice() == RAMP);
    Ok(())
}

// Runs the program over memory that has these parts.
pub(crate) fn run_over_parts<R: Wait + Threads + Sync>(
    rt: &R,
    alloc: Global,
    words: &[&str],
    parts: &[&[u8]],
) -> Result<Outcome, AllocError> {
    let mut input = Vec::new(alloc);
    for part in parts {
        input.extend_from_slice(*part)?;
    }
    run_over_memory(rt, alloc, words, &input)
}

// The same with the word `serial`.
fn serial_of<R: Wait + Threads + Sync>(
    rt: &R,
    alloc: Global,
    parts: &[&[u8]],
) -> Result<Outcome, AllocError> {
    run_over_parts(rt, alloc, &["serial"], parts)
}

// Whether `serial` and `run` both answer so.
fn both_answer<R: Wait + Threads + Sync>(
    rt: &R,
    alloc: Global,
    parts: &[&[u8]],
    status: u8,
    text: &[u8],
) -> Result<bool, AllocError> {
    let serial = serial_of(rt, alloc, parts)?;
    let run = run_over_parts(rt, alloc, &["run"], parts)?;
    let is_serial = serial.status == status && serial.written.as_slice() == text;
    Ok(is_serial && run.status == status && run.written.as_slice() == text)
}

#[test]
fn forms_of_a_ramp(rt: HostRuntime) -> Result<(), Fail> {
    let cases: [(&[u8], u8, &[u8]); 5] = [
        (b"compress f\nprint f\n", 0, COMPRESSED_TEXT),
        (b"compress f\ninner f f\n", 0, b"inner f f 14\n"),
        (
            b"compress f\nreconstruct f\nprint f\n",
            0,
            b"tree f reconstructed\n2 0 0\n2 1 1\n2 2 2\n2 3 3\n",
        ),
        (
            b"project g const 5 level 0 tol 0\ncompress f\ncompress g\nfence\nadd h = 1 g + -1 f\nprint h\n",
            0,
            b"tree h compressed 14\n0 0 4\n1 0 1\n1 1 1\n",
        ),
        (
            b"fence\nrefine f 2\nmul f = f * f\ncompress f\ninner f f\n",
            0,
            b"inner f f 98\n",
        ),
    ];
    for (commands, status, text) in cases {
        let same = both_answer(&rt, rt.alloc(), &[RAMP_LINES, commands], status, text)?;
        assert!(rt; same, "after {commands:?}");
    }
    Ok(())
}

// A tree that is refined to all cells and coarsened is its root again, and is counted only after a fence.
#[test]
fn coarsened_trees_are_counted_after_a_fence(rt: HostRuntime) -> Result<(), Fail> {
    let head =
        b"job 1 depth 3\nproject f const 5 level 0 tol 0\nrefine f 3\ncoarsen f\n".as_slice();
    let cases: [(&[u8], u8, &[u8]); 4] = [
        (b"fence\nsize f\n", 0, b"size f 1\n"),
        (b"size f\n", 2, b"fault line 5 F9 size before a fence\n"),
        (b"print f\n", 0, b"tree f reconstructed\n0 0 40\n"),
        (b"refine f 1\ncompress f\nfence\nsize f\n", 0, b"size f 3\n"),
    ];
    for (commands, status, text) in cases {
        let outcome = serial_of(&rt, rt.alloc(), &[head, commands])?;
        assert_eq!(rt; outcome.status, status);
        assert!(rt; outcome.written.as_slice() == text, "after {commands:?}");
    }
    Ok(())
}

#[test]
fn overflows_and_limits(rt: HostRuntime) -> Result<(), Fail> {
    let cases: [(&[u8], u8, &[u8]); 7] = [
        // The text before the first command that overflows is kept, and nothing of those after it.
        (
            b"job 1 depth 0\nproject f const 16777216 level 0 tol 0\nprint f\ncompress f\nadd h = 2 f + 0 f\nadd k = 3 f + 0 f\nprint h\n",
            3,
            b"tree f reconstructed\n0 0 16777216\noverflow at command 4\n",
        ),
        (
            b"job 1 depth 0\nproject f const 4096 level 0 tol 0\nproject g const -4096 level 0 tol 0\nmul h = f * g\nprint h\n",
            0,
            b"tree h reconstructed\n0 0 -16777216\n",
        ),
        (
            b"job 1 depth 0\nproject f const 4097 level 0 tol 0\nproject g const -4097 level 0 tol 0\nmul h = f * g\nprint h\n",
            3,
            b"overflow at command 3\n",
        ),
        (
            b"job 1 depth 0\nproject f const 1 level 0 tol 0\ncompress f\ncompress f\n",
            2,
            b"fault line 4 F7 wrong form\n",
        ),
        (
            b"job 1 depth 0\nproject f hash 0 1000 level 0 tol 0\nprint f\n",
            0,
            b"tree f reconstructed\n0 0 535\n",
        ),
        (
            b"job 1 depth 0\ncoarsen f\n",
            2,
            b"fault line 2 F6 unknown tree\n",
        ),
        (
            b"job 1 depth 0\nsize f\n",
            2,
            b"fault line 2 F6 unknown tree\n",
        ),
    ];
    for (input, status, text) in cases {
        let same = both_answer(&rt, rt.alloc(), &[input], status, text)?;
        assert!(rt; same, "for {input:?}");
    }
    Ok(())
}

#[test]
fn the_three_words(rt: HostRuntime) -> Result<(), Fail> {
    let alloc = rt.alloc();
    for word in ["run", "serial"] {
        let outcome = run_over_memory(&rt, alloc, &[word], RAMP)?;
        assert_eq!(rt; outcome.status, 0);
        assert!(rt; outcome.written.as_slice() == RAMP_TEXT);
    }
    let checked = run_over_memory(&rt, alloc, &["check"], RAMP)?;
    assert_eq!(rt; checked.status, 0);
    assert!(rt; checked.written.as_slice() == b"ok commands 2 trees 1\n".as_slice());
    // A job that overflows is a job.
    let large = b"job 1 depth 0\nproject f const 16777216 level 0 tol 0\nmul f = f * f\nfence\n";
    let overflowing = run_over_memory(&rt, alloc, &["check"], large)?;
    assert_eq!(rt; overflowing.status, 0);
    assert!(rt; overflowing.written.as_slice() == b"ok commands 3 trees 1\n".as_slice());
    let faulty = run_over_memory(&rt, alloc, &["check"], b"job 1 depth 0\nprint f\n")?;
    assert_eq!(rt; faulty.status, 2);
    assert!(rt; faulty.written.as_slice() == b"fault line 2 F6 unknown tree\n".as_slice());
    Ok(())
}

#[test]
fn too_much_input(rt: HostRuntime) -> Result<(), Fail> {
    let most = vec![in rt.alloc(); b'#'; 1_048_576]?;
    let one_line = run_over_memory(&rt, rt.alloc(), &["run"], &most)?;
    assert_eq!(rt; one_line.status, 2);
    assert!(rt; one_line.written.as_slice() == b"fault line 2 F2 header\n".as_slice());
    let more = vec![in rt.alloc(); b'#'; 1_048_577]?;
    let too_long = run_over_memory(&rt, rt.alloc(), &["run"], &more)?;
    assert_eq!(rt; too_long.status, 2);
    assert!(rt; too_long.written.as_slice() == b"fault too long\n".as_slice());
    Ok(())
}

#[test]
fn other_words(rt: HostRuntime) -> Result<(), Fail> {
    let cases: [&[&str]; 24] = [
        &[],
        &["walk"],
        &["run", "--ranks", "17"],
        &["run", "--ranks", "2", "--ranks", "2"],
        &["run", "--workers=5"],
        &["run", "--map", "blocks"],
        &["run", "--receipts"],
        &["run", "--ranks=2", "--trace"],
        &["run", "--", "--ranks=2"],
        &["serial", "--ranks", "17"],
        &["serial", "--ranks=2", "--ranks", "2"],
        &["serial", "--receipts", "--receipts"],
        &["serial", "--map", "blocks"],
        &["serial", "--help"],
        &["serial", "--"],
        &["big", "7"],
        &["big", "7", "--receipts", "--ranks=2"],
        &["big", "4294967296", "--job"],
        &["run", "run"],
        &["Run"],
        &["run "],
        &["serial", "check"],
        &["check", ""],
        &["audit"],
    ];
    for words in cases {
        let outcome = run_over_memory(&rt, rt.alloc(), words, RAMP)?;
        assert_eq!(rt; outcome.status, 1);
        assert!(rt; outcome.written.as_slice() == USAGE);
    }
    Ok(())
}

#[test]
fn failing_source(rt: HostRuntime) -> Result<(), Fail> {
    let alloc = rt.alloc();
    let words = words_of(alloc, &["run"])?;
    let failing = vec![in alloc; 1u64]?;
    let mut source = MemSource::new(Vec::from_slice(alloc, RAMP)?, 16, failing);
    let mut sink = MemSink::new(alloc, 8, Vec::new(alloc));
    assert_eq!(rt;
        world_main(&rt, alloc, &words, &mut source, &mut sink, &NoGate),
        5
    );
    assert!(rt; sink.bytes().is_empty());
    Ok(())
}

#[test]
fn failing_sink(rt: HostRuntime) -> Result<(), Fail> {
    let alloc = rt.alloc();
    let words = words_of(alloc, &["run"])?;
    let mut source = MemSource::new(Vec::from_slice(alloc, RAMP)?, 4096, Vec::new(alloc));
    let failing = vec![in alloc; 2u64]?;
    let mut sink = MemSink::new(alloc, 8, failing);
    assert_eq!(rt;
        world_main(&rt, alloc, &words, &mut source, &mut sink, &NoGate),
        6
    );
    assert!(rt; sink.bytes() == b"tree f reconstru".as_slice());
    assert_eq!(rt; sink.starved(), 0);
    Ok(())
}

// Over a sink in memory with no call made to fail, a write fails only when the sink is refused memory.
fn write_fault_is_out_of_memory<R: Wait + Threads + Sync>(
    rt: &R,
    alloc: Global,
    words: &[String],
    source: &mut MemSource,
    sink: &mut MemSink,
) -> u8
    requires fresh { (sink.old.faults ≡ 0) × (sink.old.starved ≡ 0) }
    requires planned { sink.old.failing ≡ [] }
    ensures { result ≡ 6 → Rose sink.old.starved sink.new.starved }
{
    let status = world_main(rt, alloc, words, source, sink, &NoGate);
    let _ = sink.starved();
    status
}

#[test]
fn no_write_fault_with_memory(rt: HostRuntime) -> Result<(), Fail> {
    let alloc = rt.alloc();
    let words = words_of(alloc, &["run"])?;
    let mut source = MemSource::new(Vec::from_slice(alloc, RAMP)?, 1, Vec::new(alloc));
    let mut sink = MemSink::new(alloc, 1, Vec::new(alloc));
    assert_eq!(rt;
        write_fault_is_out_of_memory(&rt, alloc, &words, &mut source, &mut sink),
        0
    );
    assert!(rt; sink.bytes() == RAMP_TEXT);
    Ok(())
}
