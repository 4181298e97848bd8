//! Goes through a small run whose calls of lanes aren't inlined, so that their instructions can be counted. It prints the
//! events that the three lanes may still append. Then, to be timed, so many messages go to each of four ranks, whose mains take
//! them on this many threads.
//!
//! usage: words_bench [MESSAGES [THREADS]], with 2 and 4 if left out; with 0 threads the messages are only sent.
#![tactic(auto)]

ghost use Rattle.std.specs.Prelude.{◌≡◌, ◌≤◌, ◌^◌, []};
ghost use Rattle.words_tests.specs.Turns.{AreOutside};
ghost use Rattle.words_tests.specs.Visits.{program};

mod calls;
mod many;
mod turns;

use crate::many::{Many, four_shares, serve_all, serve_four};
use crate::turns::{run_unit, serve_unit, share, start_unit};
use anyhow::{Result, anyhow, ensure};
use app_core::{Effects, Label};
use std::env;
use std::thread::Threads;
use words_tests::turns::{attempt, enter, three_mains};
use words_tests::visits::{Visit, Visits};
use world_words::{Lane, Words};

const FIRST: Label = Label {
    command: 1,
    part: 0,
    place: 1,
};

/// The most messages for each of four ranks.
const MOST: u32 = 1 << 28;

// Rank 0's main starts a unit at rank 1, whose main enters a fence, takes and submits the unit, runs its task, reads its
// counts in a pass, and tells rank 0's main what it knows.
fn visit(
    words: &Words<Visits>,
    zero: &mut Lane,
    one: &mut Lane,
    two: &mut Lane,
    effects: &Effects<Visit, u64, u32>,
) -> bool
    requires program { words.now.program ≡ program }
    requires outside { AreOutside words.now 0 zero.old one.old two.old }
    requires new { (zero.old.mine ≡ []) × (one.old.mine ≡ []) × (two.old.mine ≡ []) }
    requires room { (30 ≤ zero.old.spare) × (30 ≤ one.old.spare) × (30 ≤ two.old.spare) }
    requires effects { effects.now ≡ [] }
{
    let carrier = start_unit(words, zero, 1, FIRST);
    enter(words, one, 0);
    enter(words, two, 0);
    let task = serve_unit(words, one, carrier, FIRST, 1, 1);
    run_unit(words, one, task, FIRST, effects, 1, 1);
    share(words, one, two, 1, 1);
    attempt(words, one, 1, 1).is_some()
}

// The visit, and what it left of the room of each lane.
fn visit_once(rt: &(impl AllocGlobal + Print)) -> Result<()> {
    let (words, mut root) = Words::with_root(rt.alloc(), &Visits, 3, 0, false)?;
    let Ok((mut zero, mut one, mut two)) = three_mains(&words, &mut root) else {
        return Err(anyhow!("no room for the events of a lane"));
    };
    let effects = Effects::new(rt.alloc());
    let complete = visit(&words, &mut zero, &mut one, &mut two, &effects);
    println!(rt; "complete {complete}")?;
    println!(rt; "spare {} {} {}", zero.spare(), one.spare(), two.spare())?;
    Ok(())
}

// So many messages to each of four ranks, which take them on this many threads, 1 or 4, or leave them.
fn serve_many(
    rt: &(impl AllocGlobal + Print + Threads + Sync),
    count: u32,
    threads: u32,
) -> Result<()>
    requires few { count ≤ 2 ^ 28 }
{
    let (words, mut root) = Words::with_root(rt.alloc(), &Many { count }, 5, 0, false)?;
    let (one, two, three, four) = four_shares(&words, &mut root, rt.alloc(), count)?;
    match threads {
        0 => {}
        1 => {
            let first = (serve_all(&words, one), serve_all(&words, two));
            let second = (serve_all(&words, three), serve_all(&words, four));
            println!(rt; "spare {} {} {} {}", first.0, first.1, second.0, second.1)?;
        }
        _ => {
            let spare = serve_four(rt, &words, one, two, three, four);
            println!(rt; "spare {} {} {} {}", spare.0, spare.1, spare.2, spare.3)?;
        }
    }
    Ok(())
}

// The number that is written in an argument, if it is there.
fn number(words: &[String], index: usize, otherwise: u32) -> Result<u32> {
    match words.get(index) {
        Some(word) => Ok(word.parse::<u32>()?),
        None => Ok(otherwise),
    }
}

fn main(rt: HostRuntime) -> Result<()> {
    visit_once(&rt)?;
    let words: Vec<String> = env::args(&rt)?.skip(1).collect(rt.alloc())?;
    let count = number(&words, 0, 2)?;
    let threads = number(&words, 1, 4)?;
    ensure!(count <= MOST, "more than {MOST} messages");
    serve_many(&rt, count, threads)
}
