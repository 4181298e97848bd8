//! What no clause says: that memory suffices for a run, that it ends, and that each of its tasks enters the gate and leaves
//! it once.
ghost use Rattle.app_core.specs.Commands.{IsRankCount};
ghost use Rattle.std.specs.Prelude.{◌≤◌};

use crate::meeting::Meeting;
use crate::runs::run_on;
use crate::tally::{Counts, Tally};
use app_core::App;
use haar_app::{HaarApp, Value};
use job_lang::parse;
use owner_map::OwnerMap;
use std::alloc::Global;
use std::sync::Wait;
use std::test::Fail;
use std::thread::Threads;

const MAPS: [OwnerMap; 3] = [OwnerMap::Block, OwnerMap::Spread, OwnerMap::Level];

// Three inner products of a ramp and a constant, the last of them after a fence. `world serial --receipts` counts 34 tasks.
const PRODUCTS: &[u8] =
    b"job 1 depth 2\nproject f ramp 0 1 level 0 tol 0\nproject g const 2 level 0 tol 0\ncompress f\ncompress g\ninner f f\ninner f g\nfence\ninner g g\n";

// Both sums overflow, and the last command reads one of them.
const OVERFLOW: &[u8] =
    b"job 1 depth 0\nproject f const 16777216 level 0 tol 0\nprint f\ncompress f\nadd h = 2 f + 0 f\nadd k = 3 f + 0 f\nprint h\n";

// What is looked at of a value.
#[derive(Clone, Copy, Debug, PartialEq, Eq)]
enum Seen {
    Product(i128),
    Bad,
    Other,
}

fn see(value: &Value) -> Seen {
    match value {
        Value::Product(product) => Seen::Product(*product),
        Value::Bad => Seen::Bad,
        _ => Seen::Other,
    }
}

// The values of a job's results, by a run on ranks and workers, and what its gate counted.
fn run_job<R: Threads + Wait + Sync>(
    rt: &R,
    alloc: Global,
    source: &[u8],
    map: OwnerMap,
    ranks: u32,
    workers: u32,
) -> Result<(Vec<Seen>, Counts), Fail>
    requires ranks { IsRankCount ranks }
    requires workers { workers ≤ 4 }
{
    let job = match parse(alloc, source) {
        Ok(job) => job,
        Err(_) => return Err(Fail::from("no job")),
    };
    let app = HaarApp::new(alloc, job, map, ranks)?;
    let gate = Tally::new(ranks, app.commands());
    let values = run_on(rt, alloc, &app, ranks, workers, &gate)?;
    let mut seen = Vec::new(alloc);
    for value in values.as_slice() {
        seen.push(see(value))?;
    }
    Ok((seen, gate.counts(rt)))
}

// By hand: a ramp 0, 1, 2, 3 and the constant 2, on four cells.
const PRODUCTS_SEEN: [Seen; 7] = [
    Seen::Other,
    Seen::Other,
    Seen::Other,
    Seen::Other,
    Seen::Product(14),
    Seen::Product(12),
    Seen::Product(16),
];

#[test]
fn values_are_in_the_order_of_the_commands(rt: HostRuntime) -> Result<(), Fail> {
    for map in MAPS {
        for ranks in [1u32, 2, 3, 16] {
            for workers in [0u32, 1, 4] {
                let (seen, _) = run_job(&rt, rt.alloc(), PRODUCTS, map, ranks, workers)?;
                assert!(rt;
                    seen.as_slice() == PRODUCTS_SEEN.as_slice(),
                    "{ranks} ranks, {workers} workers"
                );
            }
        }
    }
    Ok(())
}

#[test]
fn each_task_enters_and_leaves_once(rt: HostRuntime) -> Result<(), Fail> {
    let once = Counts {
        entered: 34,
        left: 34,
        amiss: 0,
    };
    for (ranks, workers) in [(1u32, 0u32), (1, 2), (2, 0), (2, 1), (3, 2), (16, 4)] {
        let (_, counts) = run_job(&rt, rt.alloc(), PRODUCTS, OwnerMap::Spread, ranks, workers)?;
        assert!(rt;
            counts == once,
            "{ranks} ranks, {workers} workers: {counts:?}"
        );
    }
    Ok(())
}

#[test]
fn commands_that_overflow_have_no_value(rt: HostRuntime) -> Result<(), Fail> {
    let expected = [
        Seen::Other,
        Seen::Other,
        Seen::Other,
        Seen::Bad,
        Seen::Bad,
        Seen::Bad,
    ];
    for ranks in 1..4u32 {
        for workers in 0..3u32 {
            let (seen, _) = run_job(&rt, rt.alloc(), OVERFLOW, OwnerMap::Block, ranks, workers)?;
            assert!(rt;
                seen.as_slice() == expected.as_slice(),
                "{ranks} ranks, {workers} workers"
            );
        }
    }
    Ok(())
}

#[test]
fn without_commands_no_task_runs(rt: HostRuntime) -> Result<(), Fail> {
    let none = Counts {
        entered: 0,
        left: 0,
        amiss: 0,
    };
    for (ranks, workers) in [(1u32, 0u32), (3, 2), (16, 4)] {
        let (seen, counts) = run_job(
            &rt,
            rt.alloc(),
            b"job 1 depth 3\n",
            OwnerMap::Level,
            ranks,
            workers,
        )?;
        assert!(rt;
            seen.is_empty() && counts == none,
            "{ranks} ranks, {workers} workers"
        );
    }
    Ok(())
}

// A full tree of 1,024 leaves.
const FULL_TREE: &[u8] = b"job 1 depth 10\nproject f ramp 0 1 level 10 tol 0\n";

// As many tasks of one rank are inside the gate at the same time as it has hands, and never more. On fewer threads tasks
// wait in vain, and go on after a number of turns.
#[test]
fn all_hands_of_a_rank_run_at_the_same_time(rt: HostRuntime) -> Result<(), Fail> {
    let alloc = rt.alloc();
    for workers in [1u32, 3] {
        let job = match parse(alloc, FULL_TREE) {
            Ok(job) => job,
            Err(_) => return Err(Fail::from("no job")),
        };
        let app = HaarApp::new(alloc, job, OwnerMap::Block, 1)?;
        let gate = Meeting::new(workers + 1);
        run_on(&rt, alloc, &app, 1, workers, &gate)?;
        assert_eq!(rt; gate.most(&rt), workers + 1);
    }
    Ok(())
}
