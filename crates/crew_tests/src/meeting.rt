//! A gate at which all hands of a rank meet.
use app_core::Gate;
use std::sync::{Mutex, Wait};
use std::thread;

// How often a task looks whether the others have come, before it goes on.
const TURNS_OF_A_TASK: u32 = 10_000;

// How often all tasks look, before none waits any more.
const MOST_TURNS: u32 = 2_000_000;

// How many tasks are inside, how many were so at most, and how often tasks looked for others.
#[derive(Drop)]
struct Inside {
    now: u32,
    most: u32,
    turns: u32,
}

/// The gate of a rank with so many hands. Tasks wait there until as many are inside, once, or a number of turns is over.
#[derive(Drop)]
pub struct Meeting {
    hands: u32,
    inside: Mutex<Inside>,
}

impl Meeting {
    pub fn new(hands: u32) -> Meeting {
        let none = Inside {
            now: 0,
            most: 0,
            turns: 0,
        };
        Meeting {
            hands,
            inside: Mutex::new(none),
        }
    }

    /// The most tasks that were inside at the same time.
    pub fn most<R: Wait>(&self, rt: &R) -> u32 {
        let inside = self.inside.lock(rt);
        inside.most
    }

    // A task comes in.
    fn arrive<R: Wait>(&self, rt: &R) {
        let mut guard = self.inside.lock(rt);
        let inside = &mut *guard;
        inside.now = inside.now.saturating_add(1);
        inside.most = inside.most.max(inside.now);
    }

    // Whether a task inside has to wait for others: one turn is over then.
    fn has_to_wait<R: Wait>(&self, rt: &R) -> bool {
        let mut guard = self.inside.lock(rt);
        let inside = &mut *guard;
        inside.turns = inside.turns.saturating_add(1);
        inside.most < self.hands && inside.turns < MOST_TURNS
    }
}

impl Gate for Meeting {
    fn enter<R: Wait>(&self, rt: &R, _rank: u32, _command: u32) {
        self.arrive(rt);
        for _ in 0..TURNS_OF_A_TASK {
            if !self.has_to_wait(rt) {
                return;
            }
            thread::yield_now();
        }
    }

    fn leave<R: Wait>(&self, rt: &R, _rank: u32, _command: u32) {
        let mut guard = self.inside.lock(rt);
        let inside = &mut *guard;
        inside.now = inside.now.saturating_sub(1);
    }
}
