//! Reading a source to its end.
ghost use Rattle.std.specs.Prelude.{◌≡◌, ℕ, ◌+◌, ◌≤◌, List, length, vec_len, Err, IfOk, OnErr, IsErrOf};
ghost use Rattle.std.specs.Io.KnownBytes.{Consumes, IsAtEnd};
ghost use Rattle.outside.specs.Causes.{Rose};

use crate::source::Source;
use std::alloc::Global;
use thiserror::Error;

/// Why a source was not read to its end.
#[derive(Clone, Copy, Debug, PartialEq, Eq, Error)]
pub enum ReadAllError {
    /// The source failed.
    #[error("a read failed")]
    ReadFault,
    /// The source gave more bytes than the limit.
    #[error("the input is too long")]
    TooLong,
    /// Memory was refused for the bytes.
    #[error("out of memory")]
    OutOfMemory,
}

/// How many bytes one read asks for at most.
const PIECE: usize = 65536;

/// Reads all bytes of `source` up to its end, where they are at most `limit`.
///
/// What was read stays read, whatever the answer, and that is at most one byte more than `limit`.
///
/// # Errors
///
/// - `ReadFault` only where the source's count of faults rose, or was at 2^64 - 1, and the source gave at most `limit`
///   bytes.
/// - `TooLong` only where the source gave `limit + 1` bytes, and no other error but `OutOfMemory` comes then.
/// - `OutOfMemory` when memory is refused for the bytes or the buffer.
pub fn read_all<S: Source>(
    alloc: Global,
    source: &mut S,
    limit: usize,
) -> Result<Vec<u8>, ReadAllError>
    ensures all { IfOk result (λ v. Consumes (S.left source.old) (S.left source.new) v.items × IsAtEnd (S.left source.new)) }
    ensures within { IfOk result (λ v. vec_len v ≤ limit) }

    // When each error comes.
    ensures fault { IsErrOf result ReadAllError.ReadFault → Rose (S.faults source.old) (S.faults source.new) }
    ensures fault_within { IsErrOf result ReadAllError.ReadFault → (given : List ℕ) × (length given ≤ limit) × Consumes (S.left source.old) (S.left source.new) given }
    ensures too_long { IsErrOf result ReadAllError.TooLong → (given : List ℕ) × (length given ≡ limit + 1) × Consumes (S.left source.old) (S.left source.new) given }

    // What holds of every answer.
    ensures gone { (given : List ℕ) × (length given ≤ limit + 1) × Consumes (S.left source.old) (S.left source.new) given }
    ensures later { S.faults source.old ≤ S.faults source.new }
{
    let mut out: Vec<u8> = Vec::new(alloc);
    let mut buffer = zeros(alloc, PIECE)?;
    let buf = buffer.as_mut_slice();
    while out.len() <= limit {
        let room = buf.len().min((limit - out.len()).saturating_add(1));
        match source.read(&mut buf[..room]) {
            Err(_) => return Err(ReadAllError::ReadFault),
            Ok(0) => return Ok(out),
            Ok(count) => {
                if out.extend_from_slice(&buf[..count]).is_err() {
                    return Err(ReadAllError::OutOfMemory);
                }
            }
        }
    }
    Err(ReadAllError::TooLong)
}

/// A buffer of `len` zeros.
fn zeros(alloc: Global, len: usize) -> Result<Vec<u8>, ReadAllError>
    ensures len { IfOk result (λ v. vec_len v ≡ len) }
    ensures err { OnErr result (result ≡ Err ReadAllError.OutOfMemory) }
{
    vec![in alloc; 0u8; len].map_err(|_| ReadAllError::OutOfMemory)
}
