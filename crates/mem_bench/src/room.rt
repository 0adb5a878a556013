ghost use Rattle.std.specs.Prelude.{◌≡◌, ◌≢◌, ◌+◌, ◌*◌, ◌/◌, ◌%◌, ◌<◌, ◌≤◌, ◌^◌, ◌⊎◌, ℕ, false};
ghost use Rattle.std.specs.Prelude.{get_or, length, IfOk, if◌then◌else◌};
ghost use Rattle.cu_base.specs.Fields.{field};
ghost use Rattle.mem_bench.specs.Regions.{IsCut, IsRegion, byte_after, lengthened, no_region};
ghost use Rattle.mem_bench.specs.Regions.{stable_region, written};
ghost use Rattle.mem_bench.specs.Rooms.{mark_at, marks_by, synced_at, synced_by};

use crate::last_sync::{BlockState, LastSync};
use crate::lists::{append, lengthen, put, with_room};
use bench_model::Choice;
use cu_base::NoMemory;
use std::alloc::Global;
use std::marker::Model;

/// What a place reads as that was never written.
pub const BLANK: u8 = 0xFF;

/// How many places a block of a region has.
pub const BLOCK: usize = 4096;

/// Room for the blocks of a region that were written. Its memory is asked for once, when it is
/// made; the system gives the pages of it as they are first touched. Contracts see what it keeps,
/// and how many places it has room for.
#[derive(Drop)]
pub struct Room {
    bytes: Vec<u8>,
    last: LastSync,
}

impl Model for Room {
    ghost use Rattle.std.specs.Prelude.{◌≡◌, ◌≤◌, ◌*◌, length, vec_capacity};
    ghost use Rattle.mem_bench.specs.Regions.{RoomValue};
    ghost use Rattle.mem_bench.specs.Rooms.{marks_by, synced_by};
    ghost use Rattle.mem_bench.specs.declared.room.TheConstants.{BLOCK};

    ghost Value = { RoomValue };

    ghost view = { λ r. record {
      kept = record {
        bytes = r.bytes.items;
        synced = synced_by r.last.states.items r.last.saved.items r.bytes.items;
        marks = marks_by r.last.states.items r.last.marks.items (length r.bytes.items);
      };
      most = r.last.most * BLOCK;
    } };

    ghost invariant = { λ r. (length r.bytes.items ≡ length r.last.states.items * BLOCK)
        × (r.last.most * BLOCK ≤ vec_capacity r.bytes) };
}

impl Room {
    /// Room for so many blocks, none of which is kept yet.
    pub fn new(alloc: Global, blocks: usize) -> Result<Room, NoMemory>
        requires { blocks * BLOCK < 2 ^ 64 }
        ensures { IfOk result (λ r. r ≡ record { kept = no_region; most = blocks * BLOCK }) }
    {
        Ok(Room {
            bytes: with_room(alloc, blocks * BLOCK)?,
            last: LastSync::new(alloc, blocks)?,
        })
    }

    /// Reads bytes from a place on.
    pub fn read(&self, at: usize, out: &mut [u8])
        requires { at + length out.old ≤ length self.now.kept.bytes }
        ensures { out.new ≡ field self.now.kept.bytes at (length out.old) }
    {
        out.copy_from_slice(&self.bytes[at..at + out.len()]);
    }

    /// Keeps one block more, whose places are blank. It takes no memory.
    pub fn lengthen(&mut self)
        requires { length self.old.kept.bytes + BLOCK ≤ self.old.most }
        ensures value { self.new ≡ record self.old { kept = lengthened BLOCK self.old.kept } }
        ensures rule { IsRegion self.old.kept }
    {
        let size = self.bytes.len() + BLOCK;
        lengthen(&mut self.bytes, size, BLANK);
        self.last.push(BlockState::Clean);
    }

    /// Keeps one block more, which was blank and is written whole. It takes no memory.
    pub fn append(&mut self, block: &[u8])
        requires room { length self.old.kept.bytes + BLOCK ≤ self.old.most }
        requires whole { length block.now ≡ BLOCK }
        ensures value { self.new ≡ record self.old {
          kept = written (length self.old.kept.bytes) block.now (lengthened BLOCK self.old.kept);
        } }
        ensures rule { IsRegion self.old.kept }
    {
        append(&mut self.bytes, block);
        self.last.push(BlockState::Fresh);
    }

    /// Writes bytes of one block from a place on, which makes their places dirty.
    pub fn write(&mut self, at: usize, bytes: &[u8])
        requires there { at < length self.old.kept.bytes }
        requires inside { at % BLOCK + length bytes.now ≤ BLOCK }
        ensures value { self.new ≡ record self.old { kept = written at bytes.now self.old.kept } }
        ensures rule { IsRegion self.old.kept }
    {
        self.last.dirty(&self.bytes, at, bytes.len());
        put(&mut self.bytes, at, bytes);
    }

    /// Makes the bytes as read last: no place is dirty then.
    pub fn sync(&mut self)
        ensures { self.new ≡ record self.old { kept = stable_region self.old.kept.bytes } }
    {
        self.last.sync();
    }

    /// Leaves what a power cut with this choice leaves.
    pub fn cut(&mut self, choice: Choice)
        ensures stable { self.new ≡ record self.old
            { kept = stable_region self.new.kept.bytes } }
        ensures cut { IsCut choice self.old.kept self.new.kept.bytes }
        ensures rule { IsRegion self.old.kept }
    {
        choose(choice, &self.last, &mut self.bytes);
        self.sync();
    }
}

/// Makes of each dirty byte what a power cut with this choice leaves of it.
fn choose(choice: Choice, last: &LastSync, bytes: &mut [u8])
    requires { length bytes.old ≡ length last.now.states.items * BLOCK }
    ensures { IsCut choice (record {
      bytes = bytes.old;
      synced = synced_by last.now.states.items last.now.saved.items bytes.old;
      marks = marks_by last.now.states.items last.now.marks.items (length bytes.old);
    }) bytes.new }
{
    for block in 0..last.blocks() {
        if !last.is_clean(block) {
            choose_block(choice, last, block, bytes);
        }
    }
}

/// Makes of each dirty byte of a block what a power cut with this choice leaves of it.
fn choose_block(choice: Choice, last: &LastSync, block: usize, bytes: &mut [u8])
    requires long { length bytes.old ≡ length last.now.states.items * BLOCK }
    requires there { block < length last.now.states.items }
    ensures long { length bytes.new ≡ length bytes.old }
    ensures chosen { (k : ℕ) → block * BLOCK ≤ k → k < (block + 1) * BLOCK → get_or bytes.new k 0
        ≡ (if mark_at last.now.states.items last.now.marks.items k
        then byte_after choice k
        (synced_at last.now.states.items last.now.saved.items bytes.old k)
        (get_or bytes.old k 0) else get_or bytes.old k 0) }
    ensures frame { (k : ℕ) → (k < block * BLOCK) ⊎ ((block + 1) * BLOCK ≤ k)
        → get_or bytes.new k 0 ≡ get_or bytes.old k 0 }
{
    for k in block * BLOCK..(block + 1) * BLOCK {
        if last.is_dirty(k) {
            bytes[k] = byte_after(choice, k, last.byte(k, bytes[k]), bytes[k]);
        }
    }
}

/// What a power cut leaves of the dirty byte at a place.
fn byte_after(choice: Choice, place: usize, synced: u8, read: u8) -> u8
    ensures { result ≡ byte_after choice place synced read }
{
    match choice {
        Choice::New => read,
        Choice::Old => synced,
        Choice::Mix if place % 2 == 0 => synced,
        Choice::Mix => read,
        Choice::Fill(byte) => byte,
    }
}
