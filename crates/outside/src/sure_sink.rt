//! A sink in memory that never fails.
ghost use Rattle.std.specs.Prelude.{◌≡◌, ℕ, ◌-◌, ◌<◌, ◌≤◌, ◌++◌, List, [], length, drop, Some, Ok, IfOk};
ghost use Rattle.std.specs.Io.KnownBytes.{WriteAppends};
ghost use Rattle.outside.specs.Causes.{HasCause};

use crate::OutOfMemory;
use crate::sink::Sink;
use crate::source::Failed;
use std::alloc::Global;
use std::marker::Model;

/// A sink in memory that never fails: its count of faults is always 0. It fits the pieces that are
/// no longer than the room left, for which it has the memory.
#[derive(Drop)]
pub struct SureSink {
    bytes: Vec<u8>,
    room: usize,
}

impl Model for SureSink {
    ghost use Rattle.std.specs.Prelude.{◌+◌, ◌≤◌, vec_len, vec_capacity};
    ghost use Rattle.outside.specs.Memory.{SureSinkState};

    ghost Value = { SureSinkState };

    ghost view = { λ s. record { taken = s.bytes.items; room = s.room } };

    ghost invariant = { λ s. vec_len s.bytes + s.room ≤ vec_capacity s.bytes };
}

impl SureSink {
    /// An empty sink that takes `room` bytes in all.
    ///
    /// # Errors
    ///
    /// `OutOfMemory` when memory is refused for `room` bytes. No later call takes memory.
    pub fn with_room(alloc: Global, room: usize) -> Result<SureSink, OutOfMemory>
        ensures { IfOk result (λ sink. sink ≡ record { taken = []; room = room }) }
    {
        let bytes = Vec::with_capacity(alloc, room).map_err(|_| OutOfMemory)?;
        Ok(SureSink { bytes, room })
    }

    /// All that it took.
    pub fn bytes(&self) -> &[u8]
        ensures { result.now ≡ self.now.taken }
    {
        self.bytes.as_slice()
    }
}

impl Sink for SureSink {
    ghost taken = { λ s. Some s.taken };

    ghost faults = { λ _. 0 };

    ghost made = { λ _. [] };

    ghost fits = { λ s piece. length piece ≤ s.room };

    fn write(&mut self, bytes: &[u8]) -> Result<usize, Failed>
        requires { length bytes.now ≤ self.old.room }
        ensures bound { IfOk result (λ n. n ≤ length bytes.now) }
        ensures some { IfOk result (λ n. 0 < length bytes.now → 0 < n) }
        ensures bytes { WriteAppends (Some self.old.taken) (Some self.new.taken) result bytes.now }
        ensures rest { IfOk result (λ n. length (drop n bytes.now) ≤ self.new.room) }
        ensures always { ((piece : List ℕ) → length piece ≤ self.old.room) → (piece : List ℕ) → length piece ≤ self.new.room }
        ensures cause { HasCause 0 0 result }

        // It takes the whole piece, and its room.
        ensures count { result ≡ Ok (length bytes.now) }
        ensures taken { self.new.taken ≡ self.old.taken ++ bytes.now }
        ensures room { self.new.room ≡ self.old.room - length bytes.now }
    {
        self.bytes.extend_from_slice(bytes).unwrap();
        self.room -= bytes.len();
        Ok(bytes.len())
    }
}
