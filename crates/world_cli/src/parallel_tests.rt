//! Jobs on ranks and workers: each has the text that it has when it is done serially.
use crate::tests::{RAMP, RAMP_TEXT, run_over_memory};
use crate::world_main;
use app_core::Gate;
use outside::{MemSink, MemSource};
use std::alloc::{AllocError, Global};
use std::sync::{Mutex, Wait};
use std::test::Fail;
use std::thread;
use std::thread::Threads;

// How many ranks and workers a run has.
const SIZES: [(u32, u32); 9] = [
    (1, 0),
    (1, 4),
    (2, 0),
    (2, 2),
    (3, 1),
    (4, 0),
    (4, 2),
    (16, 0),
    (16, 4),
];

const MAPS: [&str; 3] = ["block", "spread", "level"];

// Both forms of a ramp's tree, and what two trees give.
const FORMS: &[u8] =
    b"job 1 depth 2\nproject f ramp 0 1 level 0 tol 0\ncompress f\ninner f f\nprint f\nreconstruct f\nprint f\n";

const FORMS_TEXT: &[u8] =
    b"inner f f 14\ntree f compressed 6\n0 0 -4\n1 0 -1\n1 1 -1\ntree f reconstructed\n2 0 0\n2 1 1\n2 2 2\n2 3 3\n";

// A difference and a product of trees with other keys, over a fence.
const SUMS: &[u8] =
    b"job 1 depth 2\nproject f const 5 level 0 tol 0\nproject g ramp 0 1 level 0 tol 0\nmul m = f * g\nprint m\nfence\ncompress f\ncompress g\nadd h = 1 f + -1 g\nprint h\n";

const SUMS_TEXT: &[u8] =
    b"tree m reconstructed\n2 0 0\n2 1 5\n2 2 10\n2 3 15\ntree h compressed 14\n0 0 4\n1 0 1\n1 1 1\n";

// The second of two sums that overflow may fail first in time, but it is the first that is named.
const OVERFLOW: &[u8] =
    b"job 1 depth 0\nproject f const 16777216 level 0 tol 0\nprint f\ncompress f\nadd h = 2 f + 0 f\nadd k = 3 f + 0 f\nprint h\n";

const OVERFLOW_TEXT: &[u8] = b"tree f reconstructed\n0 0 16777216\noverflow at command 4\n";

// A job on so many ranks and workers, with a map.
fn run_on<R: Wait + Threads + Sync>(
    rt: &R,
    alloc: Global,
    map: &str,
    size: (u32, u32),
    job: &[u8],
    status: u8,
    text: &[u8],
) -> Result<bool, AllocError> {
    let (ranks, workers) = size;
    let ranks = format!(in alloc; "--ranks={ranks}")?;
    let workers = format!(in alloc; "--workers={workers}")?;
    let words = ["run", "--map", map, ranks.as_str(), workers.as_str()];
    let outcome = run_over_memory(rt, alloc, &words, job)?;
    Ok(outcome.status == status && outcome.written.as_slice() == text)
}

#[test]
fn each_job_has_its_serial_text(rt: HostRuntime) -> Result<(), Fail> {
    let jobs: [(&[u8], u8, &[u8]); 4] = [
        (FORMS, 0, FORMS_TEXT),
        (SUMS, 0, SUMS_TEXT),
        (OVERFLOW, 3, OVERFLOW_TEXT),
        (b"job 1 depth 3\n", 0, b""),
    ];
    for (job, status, text) in jobs {
        for map in MAPS {
            for size in SIZES {
                let same = run_on(&rt, rt.alloc(), map, size, job, status, text)?;
                assert!(rt; same, "{job:?}, {map}, {size:?}");
            }
        }
    }
    Ok(())
}

// Three functions, their inner products and a product: some 4,000 tasks.
const PRODUCT: &[u8] =
    b"job 1 depth 8\nproject f ramp 0 1 level 0 tol 0\nproject g const 2 level 3 tol 0\nproject h step 64 5 9 level 0 tol 0\ncompress f\ncompress g\ncompress h\nadd p = 3 f + 1 h\ninner f g\ninner p g\nreconstruct p\nreconstruct h\nmul q = p * h\nfence\ncompress q\ninner q g\nprint g\n";

const PRODUCT_TEXT: &[u8] =
    b"inner f g 65280\ninner p g 199936\ninner q g 1748480\ntree g compressed 512\n0 0 0\n1 0 0\n1 1 0\n2 0 0\n2 1 0\n2 2 0\n2 3 0\n";

#[test]
fn product_of_three_functions_in_parallel(rt: HostRuntime) -> Result<(), Fail> {
    let cases = [("block", (1, 0)), ("spread", (4, 2)), ("level", (2, 1))];
    for (map, size) in cases {
        let same = run_on(&rt, rt.alloc(), map, size, PRODUCT, 0, PRODUCT_TEXT)?;
        assert!(rt; same, "{map}, {size:?}");
    }
    Ok(())
}

// Many runs under one schedule after another: always the first command that overflows, and the lines before it.
#[test]
fn overflow_is_the_same_each_time(rt: HostRuntime) -> Result<(), Fail> {
    for _ in 0..50u32 {
        let same = run_on(&rt, rt.alloc(), "block", (4, 2), OVERFLOW, 3, OVERFLOW_TEXT)?;
        assert!(rt; same);
    }
    Ok(())
}

// How often a rank waits for the other one before it goes on.
const MOST_TURNS: u32 = 10_000_000;

// Which of two ranks came to where they meet, and which of them saw the other there.
#[derive(Drop)]
struct Arrivals {
    entered: u32,
    came: [bool; 2],
    saw: [bool; 2],
}

// A gate at which the second task of rank 0 and the first task of rank 1 wait for each other.
#[derive(Drop)]
struct Meeting {
    arrivals: Mutex<Arrivals>,
}

impl Meeting {
    fn new() -> Meeting {
        Meeting {
            arrivals: Mutex::new(Arrivals {
                entered: 0,
                came: [false; 2],
                saw: [false; 2],
            }),
        }
    }

    // A task of a rank enters. Whether it has to wait for the other rank.
    fn arrive<R: Wait>(&self, rt: &R, rank: u32) -> bool {
        let mut guard = self.arrivals.lock(rt);
        let arrivals = &mut *guard;
        if rank == 0 {
            arrivals.entered = arrivals.entered.saturating_add(1);
            if arrivals.entered == 2 {
                arrivals.came[0] = true;
                return true;
            }
        } else if !arrivals.came[1] {
            arrivals.came[1] = true;
            return true;
        }
        false
    }

    // Whether the rank sees that the other one has come.
    fn sees<R: Wait>(&self, rt: &R, rank: u32) -> bool {
        let mut guard = self.arrivals.lock(rt);
        let arrivals = &mut *guard;
        if rank == 0 {
            arrivals.saw[0] = arrivals.came[1];
            arrivals.saw[0]
        } else {
            arrivals.saw[1] = arrivals.came[0];
            arrivals.saw[1]
        }
    }

    // Whether each saw the other.
    fn took_place<R: Wait>(&self, rt: &R) -> bool {
        let arrivals = self.arrivals.lock(rt);
        arrivals.saw[0] && arrivals.saw[1]
    }
}

impl Gate for Meeting {
    fn enter<R: Wait>(&self, rt: &R, rank: u32, _command: u32) {
        if self.arrive(rt, rank) {
            for _ in 0..MOST_TURNS {
                if self.sees(rt, rank) {
                    return;
                }
                thread::yield_now();
            }
        }
    }

    fn leave<R: Wait>(&self, _rt: &R, _rank: u32, _command: u32) {}
}

// Two ranks are inside a task at the same time, each waiting there for the other. On one thread neither sees the other,
// and both go on after a number of turns.
#[test]
fn two_ranks_run_at_the_same_time(rt: HostRuntime) -> Result<(), Fail> {
    let alloc = rt.alloc();
    let mut words = Vec::new(alloc);
    for word in ["run", "--ranks", "2"] {
        words.push(String::from_str(alloc, word)?)?;
    }
    let gate = Meeting::new();
    let mut source = MemSource::new(Vec::from_slice(alloc, RAMP)?, 4096, Vec::new(alloc));
    let mut sink = MemSink::new(alloc, 4096, Vec::new(alloc));
    assert_eq!(rt;
        world_main(&rt, alloc, &words, &mut source, &mut sink, &gate),
        0
    );
    assert!(rt; sink.bytes() == RAMP_TEXT);
    assert!(rt; gate.took_place(&rt));
    Ok(())
}
