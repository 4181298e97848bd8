//! The options of `serial`, the commands that `run` can't carry out yet, and generated jobs.
use crate::tests::{RAMP, RAMP_LINES, RAMP_TEXT, run_over_memory, run_over_parts};
use app_core::NoGate;
use big_job::big_job;
use job_lang::{parse, print};
use outside::{MemSink, MemSource};
use std::test::Fail;

// A tree that is refined to all cells and coarsened is its root again.
const COARSENED_LINES: &[u8] =
    b"job 1 depth 3\nproject f const 5 level 0 tol 0\nrefine f 3\ncoarsen f\n";

#[test]
fn receipts_of_ranks_and_maps(rt: HostRuntime) -> Result<(), Fail> {
    let cases: [(&[&str], &[u8], &[u8], &[u8]); 9] = [
        // Two messages for the one edge between the two ranks, when the tree is projected, compressed and printed.
        (
            &["serial", "--ranks", "2", "--receipts"],
            RAMP_LINES,
            b"fence\ncompress f\nprint f\n",
            b"fence 1 messages 2 tasks 10\ntree f compressed 6\n0 0 -4\n1 0 -1\n1 1 -1\nend messages 6 tasks 30\n",
        ),
        (
            &["serial", "--receipts"],
            RAMP_LINES,
            b"fence\ncompress f\nprint f\n",
            b"fence 1 messages 0 tasks 10\ntree f compressed 6\n0 0 -4\n1 0 -1\n1 1 -1\nend messages 0 tasks 30\n",
        ),
        // Each of the six edges goes to another rank.
        (
            &["serial", "--ranks", "3", "--map", "spread", "--receipts"],
            RAMP_LINES,
            b"fence\n",
            b"fence 1 messages 12 tasks 10\nend messages 12 tasks 10\n",
        ),
        (
            &["serial", "--map=level", "--receipts", "--ranks=16"],
            RAMP_LINES,
            b"compress f\ninner f f\n",
            b"inner f f 14\nend messages 36 tasks 30\n",
        ),
        (
            &["serial", "--ranks", "2", "--receipts"],
            COARSENED_LINES,
            b"fence\nsize f\n",
            b"fence 1 messages 5 tasks 59\nsize f 1\nend messages 7 tasks 62\n",
        ),
        (
            &["serial", "--receipts"],
            b"job 1 depth 2\n",
            b"",
            b"end messages 0 tasks 0\n",
        ),
        (
            &["serial", "--receipts"],
            b"job 1 depth 2\n",
            b"fence\nfence\n",
            b"fence 1 messages 0 tasks 0\nfence 2 messages 0 tasks 0\nend messages 0 tasks 0\n",
        ),
        // Without receipts, ranks and maps play no part.
        (
            &["serial", "--map", "spread", "--ranks", "16"],
            RAMP_LINES,
            b"print f\n",
            RAMP_TEXT,
        ),
        (
            &["serial", "--ranks", "2"],
            COARSENED_LINES,
            b"fence\nsize f\n",
            b"size f 1\n",
        ),
    ];
    for (words, head, commands, text) in cases {
        let outcome = run_over_parts(&rt, rt.alloc(), words, &[head, commands])?;
        assert_eq!(rt; outcome.status, 0);
        assert!(rt;
            outcome.written.as_slice() == text,
            "{words:?}, {commands:?}"
        );
    }
    Ok(())
}

// A fault is answered the same by each word, and an overflow as without receipts but for the fences before it.
#[test]
fn receipts_of_jobs_that_end_early(rt: HostRuntime) -> Result<(), Fail> {
    let words = ["serial", "--ranks=2", "--receipts"];
    let forms: [&[&str]; 3] = [&words, &["run"], &["check"]];
    for form in forms {
        let fault = run_over_parts(&rt, rt.alloc(), form, &[COARSENED_LINES, b"size f\n"])?;
        assert_eq!(rt; fault.status, 2);
        assert!(rt;
            fault.written.as_slice() == b"fault line 5 F9 size before a fence\n".as_slice()
        );
    }
    let large =
        b"job 1 depth 0\nproject f const 16777216 level 0 tol 0\nfence\nmul f = f * f\nfence\n";
    let overflow = run_over_memory(&rt, rt.alloc(), &words, large)?;
    assert_eq!(rt; overflow.status, 3);
    assert!(rt;
        overflow.written.as_slice()
            == b"fence 1 messages 0 tasks 1\noverflow at command 3\n".as_slice()
    );
    Ok(())
}

#[test]
fn commands_that_cannot_be_run_yet(rt: HostRuntime) -> Result<(), Fail> {
    let cases: [(&[u8], u8, &[u8]); 5] = [
        (
            b"coarsen f\nfence\nsize f\n",
            2,
            b"fault command 2 unbuilt\n",
        ),
        (
            b"print f\nfence\nsize f\ncoarsen f\n",
            2,
            b"fault command 4 unbuilt\n",
        ),
        // A fault of the job comes first.
        (
            b"coarsen f\nprint g\n",
            2,
            b"fault line 4 F6 unknown tree\n",
        ),
        // It comes before an overflow.
        (
            b"project g const 16777216 level 0 tol 0\nmul g = g * g\nfence\nsize g\n",
            2,
            b"fault command 5 unbuilt\n",
        ),
        (b"print f\n", 0, RAMP_TEXT),
    ];
    for (commands, status, text) in cases {
        let outcome = run_over_parts(&rt, rt.alloc(), &["run"], &[RAMP_LINES, commands])?;
        assert_eq!(rt; outcome.status, status);
        assert!(rt; outcome.written.as_slice() == text, "{commands:?}");
    }
    Ok(())
}

// The generated job of 7.
const BIG: &[u8] =
    b"job 1 depth 12\nproject f hash 7 1000 level 4 tol 500\nproject g ramp 7 1 level 2 tol 16\nproject h box 7 4096 7 level 6 tol 0\nfence\ncompress f\ncompress g\ncompress h\nadd p = 2 f + -1 g\ninner f g\ninner p h\nfence\nreconstruct p\nreconstruct h\nmul q = p * h\nfence\ncoarsen q\nfence\nsize q\n";

#[test]
fn generated_jobs(rt: HostRuntime) -> Result<(), Fail> {
    let alloc = rt.alloc();
    let cases: [&[&str]; 3] = [
        &["big", "7", "--job"],
        &["big", "--job", "0000000007"],
        &[
            "big",
            "--ranks",
            "16",
            "7",
            "--job",
            "--workers=4",
            "--map=spread",
            "--receipts",
        ],
    ];
    for words in cases {
        let outcome = run_over_memory(&rt, alloc, words, RAMP)?;
        assert_eq!(rt; outcome.status, 0);
        assert!(rt; outcome.written.as_slice() == BIG, "{words:?}");
    }
    let checked = run_over_memory(&rt, alloc, &["check"], BIG)?;
    assert_eq!(rt; checked.status, 0);
    assert!(rt; checked.written.as_slice() == b"ok commands 18 trees 5\n".as_slice());
    let unbuilt = run_over_memory(&rt, alloc, &["run"], BIG)?;
    assert_eq!(rt; unbuilt.status, 2);
    assert!(rt; unbuilt.written.as_slice() == b"fault command 16 unbuilt\n".as_slice());
    let largest = run_over_memory(&rt, alloc, &["big", "4294967295", "--job"], b"")?;
    let read = parse(alloc, &largest.written)?;
    let same = print(alloc, &read)? == print(alloc, &big_job(alloc, u32::MAX)?)?;
    assert!(rt; same);
    Ok(())
}

// A generated job is written although no read can succeed, and none is tried.
#[test]
fn generated_jobs_read_nothing(rt: HostRuntime) -> Result<(), Fail> {
    let alloc = rt.alloc();
    let mut words = Vec::new(alloc);
    for word in ["big", "7", "--job"] {
        words.push(String::from_str(alloc, word)?)?;
    }
    let mut source = MemSource::new(Vec::new(alloc), 1, vec![in alloc; 0u64]?);
    let mut sink = MemSink::new(alloc, 4096, Vec::new(alloc));
    assert_eq!(rt;
        crate::world_main(&rt, alloc, &words, &mut source, &mut sink, &NoGate),
        0
    );
    assert!(rt; sink.bytes() == BIG);
    Ok(())
}

// Three functions and their product.
const PRODUCT: &[u8] =
    b"job 1 depth 12\n# three functions, one product\nproject f ramp 0 1 level 0 tol 0\nproject g const 2 level 3 tol 0\nproject h step 1024 5 9 level 0 tol 0\ncompress f\ncompress g\ncompress h\nadd p = 3 f + 1 h\ninner f g\ninner p g\nreconstruct p\nreconstruct h\nmul q = p * h\nfence\ncompress q\ninner q g\nprint g\nfence\nsize q\n";

const PRODUCT_TEXT: &[u8] =
    b"inner f g 16773120\ninner p g 50384896\ninner q g 440852480\ntree g compressed 8192\n0 0 0\n1 0 0\n1 1 0\n2 0 0\n2 1 0\n2 2 0\n2 3 0\nsize q 8191\n";

#[test]
fn product_of_three_functions(rt: HostRuntime) -> Result<(), Fail> {
    let cases: [(&[&str], u8, &[u8]); 3] = [
        (&["serial"], 0, PRODUCT_TEXT),
        (&["serial", "--ranks", "4"], 0, PRODUCT_TEXT),
        (&["run"], 2, b"fault command 18 unbuilt\n"),
    ];
    for (words, status, text) in cases {
        let outcome = run_over_memory(&rt, rt.alloc(), words, PRODUCT)?;
        assert_eq!(rt; outcome.status, status);
        assert!(rt; outcome.written.as_slice() == text, "{words:?}");
    }
    Ok(())
}
