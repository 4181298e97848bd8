//! A gate that counts.
use app_core::Gate;
use std::sync::{Mutex, Wait};

/// How often tasks entered and left, and how often one of them was on no rank of the run or of no command, or left before
/// it had entered.
#[derive(Clone, Copy, Debug, PartialEq, Eq)]
pub struct Counts {
    pub entered: u64,
    pub left: u64,
    pub amiss: u64,
}

/// The gate of a run on so many ranks, of an application with so many commands.
#[derive(Drop)]
pub struct Tally {
    ranks: u32,
    commands: u32,
    counts: Mutex<Counts>,
}

impl Tally {
    pub fn new(ranks: u32, commands: u32) -> Tally {
        let none = Counts {
            entered: 0,
            left: 0,
            amiss: 0,
        };
        Tally {
            ranks,
            commands,
            counts: Mutex::new(none),
        }
    }

    /// What was counted so far.
    pub fn counts<R: Wait>(&self, rt: &R) -> Counts {
        let counts = self.counts.lock(rt);
        *counts
    }

    // Whether the run has such a rank, and its application such a command.
    fn has(&self, rank: u32, command: u32) -> bool {
        rank < self.ranks && command != 0 && command <= self.commands
    }
}

impl Gate for Tally {
    fn enter<R: Wait>(&self, rt: &R, rank: u32, command: u32) {
        let mut guard = self.counts.lock(rt);
        let counts = &mut *guard;
        counts.entered = counts.entered.saturating_add(1);
        if !self.has(rank, command) {
            counts.amiss = counts.amiss.saturating_add(1);
        }
    }

    fn leave<R: Wait>(&self, rt: &R, rank: u32, command: u32) {
        let mut guard = self.counts.lock(rt);
        let counts = &mut *guard;
        counts.left = counts.left.saturating_add(1);
        if !self.has(rank, command) || counts.left > counts.entered {
            counts.amiss = counts.amiss.saturating_add(1);
        }
    }
}
