//! A source in memory whose calls fail as planned.
ghost use Rattle.std.specs.Prelude.{◌≡◌, ◌≤◌, ◌↔◌, min, length, Some, IsErr, OnErr, OnOk, IfOk};
ghost use Rattle.std.specs.Io.{ReadsAtMost};
ghost use Rattle.std.specs.Io.KnownBytes.{ReadConsumes};
ghost use Rattle.outside.specs.Causes.{HasCause, next_count};
ghost use Rattle.outside.specs.Memory.{IsReadToFail};

use crate::source::{Failed, Source};
use crate::sure_source::SureSource;
use std::marker::Model;

/// A source in memory that gives few bytes a call, and whose calls of given numbers fail.
#[derive(Drop)]
pub struct MemSource {
    source: SureSource,
    piece: usize,
    failing: Vec<u64>,
    calls: u64,
    faults: u64,
}

impl Model for MemSource {
    ghost use Rattle.std.specs.Prelude.{◌≤◌};
    ghost use Rattle.outside.specs.Memory.{MemSourceState};

    ghost Value = { MemSourceState };

    ghost view = { λ s. record { left = s.source; piece = s.piece; failing = s.failing.items; calls = s.calls; faults = s.faults } };

    ghost invariant = { λ s. 1 ≤ s.piece };
}

impl MemSource {
    /// A source of `bytes` that gives at most `piece` of them a call. Call number k, from 0, fails
    /// exactly where k is in `failing`; calls past 2^64 - 1 go by that number.
    pub fn new(bytes: Vec<u8>, piece: usize, failing: Vec<u64>) -> MemSource
        requires { 1 ≤ piece }
        ensures { result ≡ record { left = bytes.items; piece = piece; failing = failing.items; calls = 0; faults = 0 } }
    {
        MemSource {
            source: SureSource::new(bytes),
            piece,
            failing,
            calls: 0,
            faults: 0,
        }
    }
}

impl Source for MemSource {
    ghost left = { λ s. Some s.left };

    ghost faults = { λ s. s.faults };

    fn read(&mut self, buf: &mut [u8]) -> Result<usize, Failed>
        ensures bound { ReadsAtMost result buf.new }
        ensures bytes { ReadConsumes (Some self.old.left) (Some self.new.left) result buf.new }
        ensures cause { HasCause self.old.faults self.new.faults result }

        // When it fails, and how much it gives.
        ensures failed { IsErr result ↔ IsReadToFail self.old }
        ensures count { IfOk result (λ n. n ≡ min (length buf.old) (min self.old.piece (length self.old.left))) }

        // The state after it.
        ensures ok_faults { OnOk result (self.new.faults ≡ self.old.faults) }
        ensures err_faults { OnErr result (self.new.faults ≡ next_count self.old.faults) }
        ensures calls { self.new.calls ≡ next_count self.old.calls }
        ensures piece { self.new.piece ≡ self.old.piece }
        ensures failing { self.new.failing ≡ self.old.failing }
    {
        let call = self.calls;
        self.calls = call.saturating_add(1);
        if self.failing.contains(&call) {
            self.faults = self.faults.saturating_add(1);
            return Err(Failed);
        }
        let room = buf.len().min(self.piece);
        self.source.read(&mut buf[..room])
    }
}
