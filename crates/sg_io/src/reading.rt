ghost use Rattle.std.specs.Prelude.{◌≡◌, ◌+◌, ◌<◌, ◌≤◌, List, ℕ, length, vec_len, IfOk, IfSome, IsErrOf, OnOk};
ghost use Rattle.std.specs.Io.KnownBytes.{Consumes, IsAtEnd};
ghost use Rattle.sg_io.specs.Causes.{Rose};

use crate::sources::Source;
use std::alloc::Global;
use thiserror::Error;

/// The most bytes that are read in one go: 64 MiB.
pub const READ_LIMIT: usize = 67_108_864;

/// The room for the bytes of one read.
const PIECE: usize = 8_192;

/// Why not all of a source could be read.
#[derive(Clone, Copy, Debug, PartialEq, Eq, Error)]
pub enum ReadEnd {
    /// The source failed.
    #[error("reading failed")]
    Fault,
    /// The source gave more than [`READ_LIMIT`] bytes.
    #[error("more than 67108864 bytes")]
    TooLong,
    /// There is no memory for the bytes.
    #[error("out of memory")]
    OutOfMemory,
}

/// Reads all that is left of a source, at most [`READ_LIMIT`] bytes.
///
/// It stops at the first fault, and at the first byte past the limit: so a source with more bytes
/// than that never ends in `Ok`. What was read until then is gone, also where there is no memory
/// for it: it is the front of what was left.
pub fn read_all<S: Source>(alloc: Global, source: &mut S) -> Result<Vec<u8>, ReadEnd>
    // All that was left, to the end.
    ensures all { IfOk result (λ bytes. Consumes (S.left source.old) (S.left source.new) bytes.items) }
    ensures end { IfOk result (λ _. IsAtEnd (S.left source.new)) }
    ensures within { IfOk result (λ bytes. vec_len bytes ≤ READ_LIMIT) }
    ensures few { OnOk result (IfSome (S.left source.old) (λ bytes. length bytes ≤ READ_LIMIT)) }

    // Why it stopped before the end.
    ensures fault { IsErrOf result ReadEnd.Fault → Rose (S.faults source.old) (S.faults source.new) }
    ensures too_long { IsErrOf result ReadEnd.TooLong → IfSome (S.left source.old) (λ bytes. READ_LIMIT < length bytes) }
    ensures past { IsErrOf result ReadEnd.TooLong → (bytes : List ℕ) × Consumes (S.left source.old) (S.left source.new) bytes × (length bytes ≡ READ_LIMIT + 1) }

    // In every case.
    ensures later { S.faults source.old ≤ S.faults source.new }
    ensures prefix { (bytes : List ℕ) × Consumes (S.left source.old) (S.left source.new) bytes × (length bytes ≤ READ_LIMIT + 1) }
{
    let mut bytes = Vec::new(alloc);
    let mut piece = [0; PIECE];
    'pieces: loop {
        let room = PIECE.min(READ_LIMIT + 1 - bytes.len());
        let Ok(count) = source.read(&mut piece[..room]) else {
            return Err(ReadEnd::Fault);
        };
        if count == 0 {
            return Ok(bytes);
        }
        bytes
            .extend_from_slice(&piece[..count])
            .map_err(|_| ReadEnd::OutOfMemory)?;
        if bytes.len() > READ_LIMIT {
            return Err(ReadEnd::TooLong);
        }
    }
}
