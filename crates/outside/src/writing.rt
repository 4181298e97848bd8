//! Writing bytes whole.
ghost use Rattle.std.specs.Prelude.{◌≡◌, ℕ, ◌≤◌, List, take, length, OnOk, OnErr};
ghost use Rattle.std.specs.Io.KnownBytes.{Appends};
ghost use Rattle.outside.specs.Causes.{Rose};

use crate::sink::Sink;
use thiserror::Error;

/// A write failed, so that a prefix of the bytes was written and no more.
#[derive(Clone, Copy, Debug, PartialEq, Eq, Error)]
#[error("a write failed")]
pub struct WriteFault;

/// Writes all of `bytes`, which have to fit the sink. It takes no memory of its own.
///
/// # Errors
///
/// `WriteFault` only where the sink's count of faults rose, or was at 2^64 - 1. The sink then
/// took a prefix of the bytes.
pub fn write_all<K: Sink>(sink: &mut K, bytes: &[u8]) -> Result<(), WriteFault>
    requires { K.fits sink.old bytes.now }
    ensures all { OnOk result (Appends (K.taken sink.old) (K.taken sink.new) bytes.now) }
    ensures prefix { (n : ℕ) × (n ≤ length bytes.now) × Appends (K.taken sink.old) (K.taken sink.new) (take n bytes.now) }
    ensures fault { OnErr result (Rose (K.faults sink.old) (K.faults sink.new)) }
    ensures later { K.faults sink.old ≤ K.faults sink.new }
    // A sink that fits every piece goes on to fit every piece.
    ensures always { ((piece : List ℕ) → K.fits sink.old piece) → (piece : List ℕ) → K.fits sink.new piece }
    ensures made { K.made sink.new ≡ K.made sink.old }
{
    let mut at = 0;
    while at < bytes.len() {
        match sink.write(&bytes[at..]) {
            Ok(count) => at += count,
            Err(_) => return Err(WriteFault),
        }
    }
    Ok(())
}
