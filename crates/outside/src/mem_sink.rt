//! A sink in memory whose calls fail as planned.
ghost use Rattle.std.specs.Prelude.{◌≡◌, ◌≤◌, ◌<◌, ⊤, Some, [], length, min, IfOk, IsErr, OnErr, OnOk};
ghost use Rattle.std.specs.Io.KnownBytes.{WriteAppends};
ghost use Rattle.outside.specs.Causes.{HasCause, next_count};
ghost use Rattle.outside.specs.Memory.{IsWriteToFail};

use crate::sink::Sink;
use crate::source::Failed;
use std::alloc::Global;
use std::marker::Model;

/// A sink in memory that takes few bytes a call, whose calls of given numbers fail, and which fails
/// too when memory is refused. It fits every piece.
#[derive(Drop)]
pub struct MemSink {
    bytes: Vec<u8>,
    piece: usize,
    failing: Vec<u64>,
    calls: u64,
    faults: u64,
    starved: u64,
}

impl Model for MemSink {
    ghost use Rattle.std.specs.Prelude.{◌≡◌, ◌≤◌, []};
    ghost use Rattle.outside.specs.Memory.{MemSinkState};

    ghost Value = { MemSinkState };

    ghost view = { λ s. record { taken = s.bytes.items; piece = s.piece; failing = s.failing.items; calls = s.calls; faults = s.faults; starved = s.starved } };

    ghost invariant = { λ s. (1 ≤ s.piece) × (s.failing.items ≡ [] → s.faults ≡ s.starved) };
}

impl MemSink {
    /// An empty sink that takes at most `piece` bytes a call. Call number k, from 0, fails where k
    /// is in `failing`, and else only when memory is refused; calls past 2^64 - 1 go by that
    /// number.
    pub fn new(alloc: Global, piece: usize, failing: Vec<u64>) -> MemSink
        requires { 1 ≤ piece }
        ensures { result ≡ record { taken = []; piece = piece; failing = failing.items; calls = 0; faults = 0; starved = 0 } }
    {
        MemSink {
            bytes: Vec::new(alloc),
            piece,
            failing,
            calls: 0,
            faults: 0,
            starved: 0,
        }
    }

    /// All that it took.
    pub fn bytes(&self) -> &[u8]
        ensures { result.now ≡ self.now.taken }
    {
        self.bytes.as_slice()
    }

    /// How many writes were refused memory. With no call made to fail, these are all of its faults.
    pub fn starved(&self) -> u64
        ensures value { result ≡ self.now.starved }
        ensures alone { self.now.failing ≡ [] → self.now.faults ≡ result }
    {
        self.starved
    }
}

impl Sink for MemSink {
    ghost taken = { λ s. Some s.taken };

    ghost faults = { λ s. s.faults };

    ghost made = { λ s. s.failing };

    ghost fits = { λ _ _. ⊤ };

    fn write(&mut self, bytes: &[u8]) -> Result<usize, Failed>
        ensures bound { IfOk result (λ n. n ≤ length bytes.now) }
        ensures some { IfOk result (λ n. 0 < length bytes.now → 0 < n) }
        ensures bytes { WriteAppends (Some self.old.taken) (Some self.new.taken) result bytes.now }
        ensures cause { HasCause self.old.faults self.new.faults result }
        ensures made { self.new.failing ≡ self.old.failing }

        // How much it takes, and when it fails.
        ensures count { IfOk result (λ n. n ≡ min (length bytes.now) self.old.piece) }
        ensures planned { IsWriteToFail self.old → IsErr result }
        ensures err_taken { OnErr result (self.new.taken ≡ self.old.taken) }

        // Every failure is counted, and those that were not planned as refusals of memory.
        ensures ok_faults { OnOk result (self.new.faults ≡ self.old.faults) }
        ensures err_faults { OnErr result (self.new.faults ≡ next_count self.old.faults) }
        ensures ok_starved { OnOk result (self.new.starved ≡ self.old.starved) }
        ensures planned_starved { IsWriteToFail self.old → self.new.starved ≡ self.old.starved }
        ensures err_starved { OnErr result (¬ IsWriteToFail self.old → self.new.starved ≡ next_count self.old.starved) }

        // The rest of its state.
        ensures calls { self.new.calls ≡ next_count self.old.calls }
        ensures piece { self.new.piece ≡ self.old.piece }
    {
        let call = self.calls;
        self.calls = call.saturating_add(1);
        if self.failing.contains(&call) {
            self.faults = self.faults.saturating_add(1);
            return Err(Failed);
        }
        let count = bytes.len().min(self.piece);
        if self.bytes.extend_from_slice(&bytes[..count]).is_err() {
            self.faults = self.faults.saturating_add(1);
            self.starved = self.starved.saturating_add(1);
            return Err(Failed);
        }
        Ok(count)
    }
}
