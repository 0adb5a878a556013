ghost use Rattle.std.specs.Prelude.{◌≡◌, ℕ, ◌+◌, ◌<◌, ◌≤◌, length, vec_len, IfOk, IsErrOf, OnErr};
ghost use Rattle.std.specs.Io.KnownBytes.{IsAtEnd};
ghost use Rattle.cu_io.specs.Streams.{TakesAll, TakesInto, TakesSome, EndsLong, ReadFails};

use crate::Source;
use cu_base::{Blob, Failed, NoMemory};
use std::alloc::Global;
use thiserror::Error;

/// Why a source was not read whole.
#[derive(Clone, Copy, Debug, PartialEq, Eq, Error)]
pub enum ReadFault {
    #[error("a read failed")]
    Read,
    #[error("the input is longer than its limit")]
    TooLong,
    #[error("out of memory")]
    Memory,
}

/// The most bytes that one read asks for.
pub(crate) const PIECE_BYTES: usize = 65_536;

/// All that is left. Read comes only where the source's count rose, TooLong exactly where more than
/// `limit` bytes are left, after `limit + 1` bytes were taken. After Read and Memory a part was
/// taken.
pub fn read_whole<S: Source>(alloc: Global, source: &mut S, limit: u32) -> Result<Blob, ReadFault>
    ensures ok { IfOk result (λ bytes. TakesAll limit bytes (S.seen source.old) (S.seen source.new)) }
    ensures refused { EndsLong limit (S.seen source.old) (S.seen source.new) result }
    ensures err { OnErr result (TakesSome (limit + 1) (S.seen source.old) (S.seen source.new)) }
    ensures cause { ReadFails ReadFault.Read (S.seen source.old) (S.seen source.new) result }
{
    let limit = limit as usize;
    let mut all = Blob::new(alloc);
    let expected = source.expected_len().min(limit as u64 + 1) as usize;
    let _ = all.reserve(expected);
    let Ok(mut piece) = piece(alloc) else {
        return Err(ReadFault::Memory);
    };
    while all.len() <= limit {
        let room = (limit - all.len() + 1).min(PIECE_BYTES);
        match take_piece(source, &mut piece[..room], &mut all) {
            Ok(0) => return Ok(all),
            Ok(_) => {}
            Err(fault) => return Err(fault),
        }
    }
    Err(ReadFault::TooLong)
}

/// Reads once, and appends what came. It tells how much that was.
fn take_piece<S: Source>(
    source: &mut S,
    piece: &mut [u8],
    all: &mut Blob,
) -> Result<usize, ReadFault>
    ensures bound { IfOk result (λ n. n ≤ length piece.old) }
    ensures ok { IfOk result (TakesInto all.old all.new (S.seen source.old) (S.seen source.new)) }
    ensures end { IfOk result (λ n. n ≡ 0 → 0 < length piece.old
        → IsAtEnd (S.seen source.new).left) }
    ensures err { OnErr result (TakesSome (length piece.old) (S.seen source.old) (S.seen source.new)) }
    ensures refused { ¬ IsErrOf result ReadFault.TooLong }
    ensures cause { ReadFails ReadFault.Read (S.seen source.old) (S.seen source.new) result }
{
    match source.read(piece) {
        Ok(n) => match all.push_slice(&piece[..n]) {
            Ok(()) => Ok(n),
            Err(NoMemory) => Err(ReadFault::Memory),
        },
        Err(Failed) => Err(ReadFault::Read),
    }
}

/// Room for one read.
pub(crate) fn piece(alloc: Global) -> Result<Vec<u8>, NoMemory>
    ensures { IfOk result (λ piece. vec_len piece ≡ PIECE_BYTES) }
{
    match Vec::from_elem(alloc, 0, PIECE_BYTES) {
        Ok(piece) => Ok(piece),
        Err(_) => Err(NoMemory),
    }
}
