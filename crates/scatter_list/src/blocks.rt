//! The bytes of a scatter list.

ghost use Rattle.std.specs.Prelude.{◌≡◌, ◌+◌, ◌^◌, ◌<◌, ◌≤◌, ◌++◌, true, length, Some, Ok, IfOk};
ghost use Rattle.cu_base.specs.Refusals.{AnswersBy};
ghost use Rattle.scatter_list.specs.Coalesced.{coalesced, coalesce_refusal, told_fault};
ghost use Rattle.scatter_list.specs.Coalesced.{IsPiece};
ghost use Rattle.scatter_list.specs.Reads.{is_whole, bytes_from};
ghost use Rattle.scatter_list.specs.Walk.{walk};

use crate::descriptor::{behind, read_descriptor};
use crate::{CoalesceFault, Shape};
use bench_model::PhysMem;
use cu_base::{Blob, NoMemory};
use std::alloc::Global;

/// The bytes that are read of a data block at once.
const PIECE_BYTES: usize = 4_096;

/// Joins the data blocks of a list in order. It answers TooMuch exactly where they have more bytes
/// than the limit, else BlockUnreadable exactly at the first descriptor whose block is not wholly
/// there. Room is made once, for all bytes.
pub fn coalesce<M: PhysMem>(
    alloc: Global,
    memory: &M,
    shape: &Shape,
    limit: u32,
) -> Result<Blob, CoalesceFault>
    requires walked { walk (M.segments memory.now) shape.now.root ≡ Some (Ok shape.now) }
    ensures value { IfOk result (λ blob. blob ≡ coalesced (M.segments memory.now) shape.now) }
    ensures refused { AnswersBy told_fault result
        (coalesce_refusal (M.segments memory.now) shape.now limit) }
{
    if shape.total > limit as u128 {
        return Err(CoalesceFault::TooMuch);
    }
    let mut out = Blob::new(alloc);
    out.reserve(shape.total as usize)?;
    let mut piece = [0; PIECE_BYTES];
    let mut at = shape.root;
    for _index in 0..shape.descriptors {
        let Some(descriptor) = read_descriptor(memory, at) else {
            unreachable!()
        };
        if !push_block(
            &mut out,
            memory,
            descriptor.pointer,
            descriptor.length,
            &mut piece,
        )? {
            return Err(CoalesceFault::BlockUnreadable { descriptor: at });
        }
        at = behind(descriptor, at);
    }
    Ok(out)
}

/// Appends so many bytes of memory from an address on, and answers whether they are all there.
fn push_block<M: PhysMem>(
    out: &mut Blob,
    memory: &M,
    at: u64,
    size: u64,
    piece: &mut [u8; PIECE_BYTES],
) -> Result<bool, NoMemory>
    ensures value { IfOk result (λ whole. whole ≡ is_whole (M.segments memory.now) at size) }
    ensures ok { IfOk result (λ whole. whole ≡ true
        → out.new ≡ out.old ++ bytes_from (M.segments memory.now) at size) }
{
    let mut done: u64 = 0;
    while done < size {
        let count = (size - done).min(PIECE_BYTES as u64) as usize;
        if !push_piece(out, memory, at + done, &mut piece[..count])? {
            return Ok(false);
        }
        done += count as u64;
    }
    Ok(true)
}

/// Appends as many bytes of memory as the piece has, and answers whether they are all there.
fn push_piece<M: PhysMem>(
    out: &mut Blob,
    memory: &M,
    at: u64,
    piece: &mut [u8],
) -> Result<bool, NoMemory>
    ensures value { IfOk result (IsPiece (M.segments memory.now) at (length piece.old)
        out.old out.new) }
{
    if !memory.read(at, piece) {
        return Ok(false);
    }
    out.push_slice(piece)?;
    Ok(true)
}
