ghost use Rattle.std.specs.Prelude.{◌≡◌, [], length, OnOk, OnErr};
ghost use Rattle.std.specs.Bool.{OnTrue, OnFalse};
ghost use Rattle.bench_model.specs.Memory.{IsMemory, IsThere, IsLacking, bytes_laid, with_segment};
ghost use Rattle.bench_model.specs.Memory.{lay_refusal, told_refusal};

use crate::segment::{are_there, copy_out};
use crate::{LayFault, MAX_MEMORY_BYTES, MAX_SEGMENTS, PhysMem, Segment};
use cu_base::{Blob, Items};
use std::alloc::Global;
use std::marker::Model;

/// Segments that were laid into memory one after another: at most 256, with at most 134,217,728
/// bytes in sum. Contracts see the list of them.
#[derive(Drop)]
pub struct Segments {
    alloc: Global,
    list: Items<Segment>,
    total: u32,
}

impl Model for Segments {
    ghost use Rattle.std.specs.Prelude.{◌≡◌, List};
    ghost use Rattle.bench_model.specs.Memory.{IsMemory, bytes_laid};
    ghost use Rattle.bench_model.specs.declared.segment.Segment.{Segment};

    ghost Value = { List Segment };

    ghost view = { λ a. a.list.items };

    ghost invariant = { λ a. IsMemory a.list.items × (a.total ≡ bytes_laid a.list.items) };
}

impl Segments {
    /// No segments. It takes no memory.
    pub fn new(alloc: Global) -> Segments
        ensures { result ≡ [] }
    {
        Segments {
            alloc,
            list: Items::new(alloc),
            total: 0,
        }
    }

    /// Lays bytes at an address, over what is there. It answers Wraps exactly where they would
    /// reach the last address, else Full exactly where a limit would be passed.
    pub fn lay(&mut self, at: u64, bytes: &[u8]) -> Result<(), LayFault>
        ensures ok { OnOk result (self.new ≡ with_segment self.old at bytes.now) }
        ensures err { OnErr result (self.new ≡ self.old) }
        ensures refused { told_refusal result ≡ lay_refusal self.old at (length bytes.now) }
    {
        if bytes.len() as u64 > u64::MAX - at {
            return Err(LayFault::Wraps);
        }
        let left = (MAX_MEMORY_BYTES - self.total) as usize;
        if self.list.len() >= MAX_SEGMENTS || bytes.len() > left {
            return Err(LayFault::Full);
        }
        let Ok(kept) = Blob::from_slice(self.alloc, bytes) else {
            return Err(LayFault::Memory);
        };
        let segment = Segment {
            address: at,
            bytes: kept,
        };
        if self.list.push(segment).is_err() {
            return Err(LayFault::Memory);
        }
        self.total += bytes.len() as u32;
        Ok(())
    }

    /// Empties the memory.
    pub fn clear(&mut self)
        ensures { self.new ≡ [] }
    {
        self.list = Items::new(self.alloc);
        self.total = 0;
    }

    /// The segments in the order in which they were laid.
    pub fn as_slice(&self) -> &[Segment]
        ensures value { result.now ≡ self.now }
        ensures rule { IsMemory self.now }
    {
        self.list.as_slice()
    }
}

impl PhysMem for Segments {
    ghost segments = { λ a. a };

    fn read(&self, at: u64, out: &mut [u8]) -> bool {
        let segments = self.as_slice();
        if out.len() as u64 > u64::MAX - at {
            return false;
        }
        if !are_there(segments, at, at + out.len() as u64) {
            return false;
        }
        copy_out(segments, at, out);
        true
    }
}
