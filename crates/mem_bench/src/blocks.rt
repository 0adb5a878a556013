ghost use Rattle.std.specs.Prelude.{◌≡◌, ◌+◌, ◌-◌, ◌*◌, ◌/◌, ◌%◌, ◌^◌, ◌<◌, ◌≤◌, ℕ, length};
ghost use Rattle.std.specs.Prelude.{get_or, replicate, IfOk};
ghost use Rattle.cu_base.specs.Fields.{field};
ghost use Rattle.mem_bench.specs.Regions.{IsCut, stable_region, written};
ghost use Rattle.mem_bench.specs.Tables.{IsTable};
ghost use Rattle.mem_bench.specs.declared.room.TheConstants.{BLOCK};

use crate::room::{BLANK, BLOCK, Room};
use bench_model::Choice;
use cu_base::NoMemory;
use std::alloc::Global;

/// A region by blocks. A block is kept from its first write on; all others are blank.
#[derive(Drop)]
pub struct Blocks {
    /// By block: 0 where it is not kept, else its number among those that are, from 1.
    table: Vec<usize>,
    /// How many blocks are kept.
    made: usize,
    /// The blocks that are kept, in the order in which they were first written.
    room: Room,
    ghost rule: { IsTable table.items made },
    ghost kept: { length room.kept.bytes ≡ made * BLOCK },
    ghost most: { room.most ≡ length table.items * BLOCK },
    ghost small: { length table.items * BLOCK < 2 ^ 63 },
}

impl Blocks {
    ghost use Rattle.mem_bench.specs.Blocks.{seen};

    /// So many blocks, all of them blank.
    pub fn new(alloc: Global, blocks: usize) -> Result<Blocks, NoMemory>
        requires { blocks * BLOCK < 2 ^ 63 }
        ensures blank { IfOk result (λ b. (size : ℕ) → seen size b
            ≡ stable_region (replicate size BLANK)) }
        ensures long { IfOk result (λ b. length b.table.items ≡ blocks) }
    {
        Ok(Blocks {
            table: blank_table(alloc, blocks)?,
            made: 0,
            room: Room::new(alloc, blocks)?,
        })
    }

    /// Reads bytes from a place on.
    pub fn read(&self, at: usize, out: &mut [u8])
        requires { at + length out.old ≤ length self.now.table.items * BLOCK }
        ensures { (size : ℕ) → at + length out.old ≤ size
            → out.new ≡ field (seen size self.now).bytes at (length out.old) }
    {
        let mut done = 0;
        while done < out.len() {
            let place = at + done;
            let end = done + piece_len(place, out.len() - done);
            self.read_piece(place, &mut out[done..end]);
            done = end;
        }
    }

    /// Writes bytes from a place on, which makes their places dirty. It takes no memory.
    pub fn write(&mut self, at: usize, bytes: &[u8])
        requires { at + length bytes.now ≤ length self.old.table.items * BLOCK }
        ensures written { (size : ℕ) → at + length bytes.now ≤ size
            → seen size self.new ≡ written at bytes.now (seen size self.old) }
        ensures long { length self.new.table.items ≡ length self.old.table.items }
    {
        let mut done = 0;
        while done < bytes.len() {
            let place = at + done;
            let end = done + piece_len(place, bytes.len() - done);
            self.write_piece(place, &bytes[done..end]);
            done = end;
        }
    }

    /// Makes the bytes as read last: no place is dirty then.
    pub fn sync(&mut self)
        ensures stable { (size : ℕ) → seen size self.new
            ≡ stable_region (seen size self.old).bytes }
        ensures long { self.new.table.items ≡ self.old.table.items }
    {
        self.room.sync();
    }

    /// Leaves what a power cut with this choice leaves.
    pub fn cut(&mut self, choice: Choice)
        ensures stable { (size : ℕ) → seen size self.new
            ≡ stable_region (seen size self.new).bytes }
        ensures cut { (size : ℕ) → IsCut choice (seen size self.old) (seen size self.new).bytes }
        ensures long { self.new.table.items ≡ self.old.table.items }
    {
        self.room.cut(choice);
    }

    /// Reads bytes of one block.
    fn read_piece(&self, place: usize, out: &mut [u8])
        requires there { place / BLOCK < length self.now.table.items }
        requires inside { place % BLOCK + length out.old ≤ BLOCK }
        ensures { (size : ℕ) → place + length out.old ≤ size
            → out.new ≡ field (seen size self.now).bytes place (length out.old) }
    {
        let number = self.table[place / BLOCK];
        if number == 0 {
            blank_out(out);
        } else {
            self.room.read((number - 1) * BLOCK + place % BLOCK, out);
        }
    }

    /// Writes bytes of one block.
    fn write_piece(&mut self, place: usize, bytes: &[u8])
        requires there { place / BLOCK < length self.old.table.items }
        requires inside { place % BLOCK + length bytes.now ≤ BLOCK }
        ensures written { (size : ℕ) → place + length bytes.now ≤ size
            → seen size self.new ≡ written place bytes.now (seen size self.old) }
        ensures long { length self.new.table.items ≡ length self.old.table.items }
    {
        let block = place / BLOCK;
        if bytes.len() == BLOCK && self.table[block] == 0 {
            self.keep_whole(block, bytes);
        } else {
            let start = self.keep(block);
            self.room.write(start + place % BLOCK, bytes);
        }
    }

    /// Keeps a block from now on whose first write is one of all its places.
    fn keep_whole(&mut self, block: usize, bytes: &[u8])
        requires there { block < length self.old.table.items }
        requires blank { get_or self.old.table.items block 0 ≡ 0 }
        requires whole { length bytes.now ≡ BLOCK }
        ensures written { (size : ℕ) → block * BLOCK + BLOCK ≤ size
            → seen size self.new ≡ written (block * BLOCK) bytes.now (seen size self.old) }
        ensures long { length self.new.table.items ≡ length self.old.table.items }
    {
        self.room.append(bytes);
        self.made += 1;
        self.table[block] = self.made;
    }

    /// Where a block begins in the room. It is kept from now on.
    fn keep(&mut self, block: usize) -> usize
        requires { block < length self.old.table.items }
        ensures same { (size : ℕ) → seen size self.new ≡ seen size self.old }
        ensures long { length self.new.table.items ≡ length self.old.table.items }
        ensures kept { 0 < get_or self.new.table.items block 0 }
        ensures value { result ≡ (get_or self.new.table.items block 0 - 1) * BLOCK }
    {
        let number = self.table[block];
        if number > 0 {
            return (number - 1) * BLOCK;
        }
        let start = self.made * BLOCK;
        self.room.lengthen();
        self.made += 1;
        self.table[block] = self.made;
        start
    }
}

/// How many of `n` places from `place` on lie in the block of `place`.
fn piece_len(place: usize, n: usize) -> usize
    requires { 0 < n }
    ensures some { 0 < result }
    ensures within { result ≤ n }
    ensures inside { place % BLOCK + result ≤ BLOCK }
{
    n.min(BLOCK - place % BLOCK)
}

/// Gives what blank places read as.
fn blank_out(out: &mut [u8])
    ensures { out.new ≡ replicate (length out.old) BLANK }
{
    out.fill(BLANK);
}

/// The table of blocks of which none is kept.
fn blank_table(alloc: Global, blocks: usize) -> Result<Vec<usize>, NoMemory>
    ensures { IfOk result (λ table. table.items ≡ replicate blocks 0) }
{
    match vec![in alloc; 0; blocks] {
        Ok(table) => Ok(table),
        Err(_) => Err(NoMemory),
    }
}
