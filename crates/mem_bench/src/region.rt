ghost use Rattle.std.specs.Prelude.{◌≡◌, ◌+◌, ◌≤◌, length, replicate, IfOk};
ghost use Rattle.cu_base.specs.Fields.{field};
ghost use Rattle.bench_model.specs.Regions.{Writes};
ghost use Rattle.mem_bench.specs.Regions.{IsCut, stable_region, told_region, written};

use crate::blocks::Blocks;
use crate::room::{BLANK, BLOCK};
use bench_model::Choice;
use cu_base::NoMemory;
use std::alloc::Global;
use std::marker::Model;

/// A region in memory. Contracts see the bytes as read, those at the last sync, and for each place
/// whether it was written since.
#[derive(Drop)]
pub struct Region {
    size: u32,
    blocks: Blocks,
}

impl Model for Region {
    ghost use Rattle.std.specs.Prelude.{◌≤◌, ◌*◌, length};
    ghost use Rattle.mem_bench.specs.Blocks.{seen};
    ghost use Rattle.mem_bench.specs.Regions.{RegionValue};
    ghost use Rattle.mem_bench.specs.declared.room.TheConstants.{BLOCK};

    ghost Value = { RegionValue };

    ghost view = { λ r. seen r.size r.blocks };

    ghost invariant = { λ r. r.size ≤ length r.blocks.table.items * BLOCK };
}

impl Region {
    /// A region of blank places, none of them dirty.
    pub fn blank(alloc: Global, size: u32) -> Result<Region, NoMemory>
        ensures { IfOk result (λ r. r ≡ stable_region (replicate size BLANK)) }
    {
        let blocks = Blocks::new(alloc, (size as usize).div_ceil(BLOCK))?;
        Ok(Region { size, blocks })
    }

    /// How many places it has.
    pub fn size(&self) -> u32
        ensures { result ≡ length self.now.bytes }
    {
        self.size
    }

    /// Reads bytes from a place on.
    pub fn read(&self, at: u32, out: &mut [u8])
        requires { at + length out.old ≤ length self.now.bytes }
        ensures { out.new ≡ field self.now.bytes at (length out.old) }
    {
        self.blocks.read(at as usize, out);
    }

    /// Writes bytes from a place on, which makes their places dirty. It takes no memory.
    pub fn write(&mut self, at: u32, bytes: &[u8])
        requires { at + length bytes.now ≤ length self.old.bytes }
        ensures written { self.new ≡ written at bytes.now self.old }
        ensures writes { Writes at (length bytes.now) (told_region self.old)
            (told_region self.new) }
        ensures reads { field self.new.bytes at (length bytes.now) ≡ bytes.now }
    {
        self.blocks.write(at as usize, bytes);
    }

    /// Makes the bytes as read last: no place is dirty then.
    pub fn sync(&mut self)
        ensures { self.new ≡ stable_region self.old.bytes }
    {
        self.blocks.sync();
    }

    /// Leaves what a power cut with this choice leaves.
    pub fn cut(&mut self, choice: Choice)
        ensures stable { self.new ≡ stable_region self.new.bytes }
        ensures cut { IsCut choice self.old self.new.bytes }
    {
        self.blocks.cut(choice);
    }
}
