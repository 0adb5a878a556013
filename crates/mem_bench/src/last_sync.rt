ghost use Rattle.std.specs.Prelude.{◌≡◌, ◌≢◌, ◌+◌, ◌*◌, ◌/◌, ◌%◌, ◌<◌, ◌≤◌, ◌^◌, [], ◌∷◌, ◌++◌};
ghost use Rattle.std.specs.Prelude.{get_or, length, replicate, true, false, IfOk, vec_capacity};
ghost use Rattle.mem_bench.specs.Regions.{overlaid};
ghost use Rattle.mem_bench.specs.Rooms.{IsSaved, is_clean, mark_at, marks_by, state_at, synced_by, synced_in};
ghost use Rattle.mem_bench.specs.declared.room.TheConstants.{BLOCK};
ghost use Rattle.mem_bench.specs.declared.last_sync.BlockState.TheVariants.{Clean, Changed};

use crate::lists::{lengthen, mark, put, with_room};
use crate::room::{BLANK, BLOCK};
use cu_base::NoMemory;
use std::alloc::Global;

/// What a block is since the last sync of its region.
#[derive(Clone, Copy)]
pub enum BlockState {
    /// None of its places is dirty.
    Clean,
    /// It is new, and all its places are dirty.
    Fresh,
    /// Its bytes at the last sync are saved, and its marks say which places are dirty.
    Changed,
}

/// What is known of the last sync, block by block. Bytes are saved where a block is first changed,
/// so a block that is written whole when it is new, or not at all, takes no more than its state.
#[derive(Drop)]
pub struct LastSync {
    states: Vec<BlockState>,
    /// The bytes at the last sync, at the places of blocks that are changed.
    saved: Vec<u8>,
    /// The dirty places of blocks that are changed.
    marks: Vec<bool>,
    /// How many blocks there is room for.
    most: usize,
    ghost rule: { IsSaved states.items saved.items marks.items },
    ghost small: { most * BLOCK < 2 ^ 64 },
    ghost states_room: { most ≤ vec_capacity states },
    ghost saved_room: { most * BLOCK ≤ vec_capacity saved },
    ghost marks_room: { most * BLOCK ≤ vec_capacity marks },
    ghost within: { length states.items ≤ most },
}

impl LastSync {
    /// That of no blocks, with room for so many.
    pub fn new(alloc: Global, most: usize) -> Result<LastSync, NoMemory>
        requires { most * BLOCK < 2 ^ 64 }
        ensures states { IfOk result (λ l. l.states.items ≡ []) }
        ensures most { IfOk result (λ l. l.most ≡ most) }
    {
        Ok(LastSync {
            states: with_room(alloc, most)?,
            saved: with_room(alloc, most * BLOCK)?,
            marks: with_room(alloc, most * BLOCK)?,
            most,
        })
    }

    /// How many blocks there are.
    pub fn blocks(&self) -> usize
        ensures { result ≡ length self.now.states.items }
    {
        self.states.len()
    }

    /// One block more, that is clean or new.
    pub fn push(&mut self, state: BlockState)
        requires room { length self.old.states.items < self.old.most }
        requires unchanged { state ≢ Changed }
        ensures states { self.new.states.items ≡ self.old.states.items ++ state ∷ [] }
        ensures saved { self.new.saved.items ≡ self.old.saved.items }
        ensures marks { self.new.marks.items ≡ self.old.marks.items }
        ensures most { self.new.most ≡ self.old.most }
    {
        let blocks = self.states.len() + 1;
        lengthen(&mut self.states, blocks, state);
    }

    /// Makes so many places from a place on dirty. They lie in one block; `bytes` are those of all
    /// blocks before they are written.
    pub fn dirty(&mut self, bytes: &[u8], at: usize, n: usize)
        requires long { length bytes.now ≡ length self.old.states.items * BLOCK }
        requires there { at < length bytes.now }
        requires inside { at % BLOCK + n ≤ BLOCK }
        ensures synced { synced_by self.new.states.items self.new.saved.items bytes.now
            ≡ synced_by self.old.states.items self.old.saved.items bytes.now }
        ensures marks { marks_by self.new.states.items self.new.marks.items (length bytes.now)
            ≡ overlaid at (replicate n true)
            (marks_by self.old.states.items self.old.marks.items (length bytes.now)) }
        ensures dirty { state_at self.new.states.items at ≢ Clean }
        ensures states { length self.new.states.items ≡ length self.old.states.items }
        ensures most { self.new.most ≡ self.old.most }
    {
        match self.states[at / BLOCK] {
            BlockState::Clean => {
                self.save(bytes, at / BLOCK);
                mark(&mut self.marks, at, n, true);
            }
            BlockState::Changed => mark(&mut self.marks, at, n, true),
            BlockState::Fresh => {}
        }
    }

    /// Saves the bytes of a block that is clean.
    fn save(&mut self, bytes: &[u8], block: usize)
        requires long { length bytes.now ≡ length self.old.states.items * BLOCK }
        requires clean { get_or self.old.states.items block Clean ≡ Clean }
        requires there { block < length self.old.states.items }
        ensures synced { synced_by self.new.states.items self.new.saved.items bytes.now
            ≡ synced_by self.old.states.items self.old.saved.items bytes.now }
        ensures marks { marks_by self.new.states.items self.new.marks.items (length bytes.now)
            ≡ marks_by self.old.states.items self.old.marks.items (length bytes.now) }
        ensures changed { get_or self.new.states.items block Clean ≡ Changed }
        ensures states { length self.new.states.items ≡ length self.old.states.items }
        ensures most { self.new.most ≡ self.old.most }
    {
        let start = block * BLOCK;
        let end = start + BLOCK;
        lengthen(&mut self.saved, end, BLANK);
        lengthen(&mut self.marks, end, false);
        put(&mut self.saved, start, &bytes[start..end]);
        mark(&mut self.marks, start, BLOCK, false);
        self.states[block] = BlockState::Changed;
    }

    /// No place is dirty now.
    pub fn sync(&mut self)
        ensures states { self.new.states.items ≡ replicate (length self.old.states.items) Clean }
        ensures most { self.new.most ≡ self.old.most }
    {
        let blocks = self.states.len();
        self.states.clear();
        lengthen(&mut self.states, blocks, BlockState::Clean);
    }

    /// Whether no place of the block is dirty.
    pub fn is_clean(&self, block: usize) -> bool
        requires { block < length self.now.states.items }
        ensures { result ≡ is_clean (get_or self.now.states.items block Clean) }
    {
        matches!(self.states[block], BlockState::Clean)
    }

    /// Whether a place is dirty.
    pub fn is_dirty(&self, place: usize) -> bool
        requires { place < length self.now.states.items * BLOCK }
        ensures { result ≡ mark_at self.now.states.items self.now.marks.items place }
    {
        match self.states[place / BLOCK] {
            BlockState::Clean => false,
            BlockState::Fresh => true,
            BlockState::Changed => self.marks[place],
        }
    }

    /// The byte of a place at the last sync, where it reads so now.
    pub fn byte(&self, place: usize, read: u8) -> u8
        requires { place < length self.now.states.items * BLOCK }
        ensures { result ≡ synced_in (state_at self.now.states.items place) read
            (get_or self.now.saved.items place 0) }
    {
        match self.states[place / BLOCK] {
            BlockState::Clean => read,
            BlockState::Fresh => BLANK,
            BlockState::Changed => self.saved[place],
        }
    }
}
