//! What the hands of all ranks tell one another: whether the run is over.

use crossbeam_utils::CachePadded;
use std::sync::atomic::{AtomicBool, Ordering};
use std::sync::{Mutex, Wait};

/// What the hands of all ranks tell one another: how many ranks lack some of the results that they keep, and whether
/// memory was refused to a hand. They share it by reference.
#[derive(Drop)]
pub struct Signals {
    shared: CachePadded<Shared>,
}

// Both, and whether the run is over: written with the lock alone, and read without it, so that a hand takes no lock
// before the end.
#[derive(Drop)]
struct Shared {
    state: Mutex<State>,
    is_over: AtomicBool,
}

#[derive(Drop)]
struct State {
    unfinished: u32,
    stopped: bool,
}

/// What a hand reads of the signals.
#[derive(Clone, Copy)]
pub(crate) enum Signal {
    GoOn,
    Finished,
    Stopped,
}

impl Signals {
    /// The signals of a run of so many ranks, none of which has all the results that it keeps. It takes no memory.
    pub fn new(ranks: u32) -> Signals {
        let shared = Shared {
            state: Mutex::new(State {
                unfinished: ranks,
                stopped: false,
            }),
            is_over: AtomicBool::new(false),
        };
        Signals {
            shared: CachePadded::new(shared),
        }
    }

    // One more rank has the results that it keeps.
    pub(crate) fn finish_rank<R: Wait>(&self, rt: &R) {
        let mut state = self.shared.state.lock(rt);
        state.unfinished = state.unfinished.saturating_sub(1);
        if state.unfinished == 0 {
            self.shared.is_over.store(true, Ordering::SeqCst);
        }
    }

    // Memory was refused.
    pub(crate) fn stop<R: Wait>(&self, rt: &R) {
        let mut state = self.shared.state.lock(rt);
        state.stopped = true;
        self.shared.is_over.store(true, Ordering::SeqCst);
    }

    // Whether the run is over, and why. A refusal comes before results.
    pub(crate) fn look<R: Wait>(&self, rt: &R) -> Signal {
        if !self.shared.is_over.load(Ordering::SeqCst) {
            return Signal::GoOn;
        }
        let state = self.shared.state.lock(rt);
        if state.stopped {
            Signal::Stopped
        } else if state.unfinished == 0 {
            Signal::Finished
        } else {
            Signal::GoOn
        }
    }
}
