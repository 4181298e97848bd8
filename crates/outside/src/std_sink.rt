//! A writer of std as a sink.
ghost use Rattle.std.specs.Prelude.{◌≡◌, ◌<◌, ◌≤◌, ⊤, [], length, None, IfOk, OnErr, OnOk};
ghost use Rattle.std.specs.Io.KnownBytes.{WriteAppends};
ghost use Rattle.outside.specs.Causes.{HasCause, next_count};

use crate::sink::Sink;
use crate::source::Failed;
use std::io;
use std::marker::Model;

/// A writer of std as a sink, with a count of its faults. It tells no content and fits any piece.
///
/// It never flushes, so give it a writer that keeps nothing back, as `io::writer(&rt)`.
#[derive(Drop)]
pub struct StdSink<W> {
    writer: W,
    faults: u64,
}

impl<W> Model for StdSink<W> {
    ghost use Rattle.outside.specs.Adapters.{Adapter};

    ghost Value = { Adapter W };

    ghost view = { λ s. record { inner = s.writer; faults = s.faults } };
}

impl<W: io::Write> StdSink<W> {
    /// A sink that writes to `writer`.
    pub fn new(writer: W) -> StdSink<W>
        ensures { result ≡ record { inner = writer; faults = 0 } }
    {
        StdSink { writer, faults: 0 }
    }
}

impl<W: io::Write> Sink for StdSink<W> {
    ghost taken = { λ _. None };

    ghost faults = { λ s. s.faults };

    ghost made = { λ _. [] };

    ghost fits = { λ _ _. ⊤ };

    fn write(&mut self, bytes: &[u8]) -> Result<usize, Failed>
        ensures bound { IfOk result (λ n. n ≤ length bytes.now) }
        // A write that takes nothing of a piece with a byte is a fault.
        ensures some { IfOk result (λ n. 0 < length bytes.now → 0 < n) }
        ensures cause { HasCause self.old.faults self.new.faults result }

        // What it takes is what the writer takes.
        ensures passed { WriteAppends (W.contents self.old.inner) (W.contents self.new.inner) result bytes.now }
        ensures ok_faults { OnOk result (self.new.faults ≡ self.old.faults) }
        ensures err_faults { OnErr result (self.new.faults ≡ next_count self.old.faults) }
    {
        match self.writer.write(bytes) {
            Ok(count) if 0 < count || bytes.is_empty() => Ok(count),
            _ => {
                self.faults = self.faults.saturating_add(1);
                Err(Failed)
            }
        }
    }
}
