//! A bench in memory on which nothing fails.

ghost use Rattle.mem_bench.specs.Quiet.{IsQuiet};

use crate::MemBench;
use bench_model::{
    Bench, BenchState, Board, Choice, Flash, LayFault, Listing, Order, PhysMem, Platform, Volume,
    VolumeFault,
};
use cu_base::{Failed, NoMemory, Text, Ticket};
use std::alloc::Global;

/// A bench in memory that keeps the orders `arm` and `fail` alone: its plan stays empty, and its
/// counts of faults are 0.
#[derive(Drop)]
pub struct NeverFails {
    bench: MemBench,
    ghost quiet: { IsQuiet bench.clerk },
}

impl NeverFails {
    ghost use Rattle.std.specs.Prelude.{◌≡◌};
    ghost use Rattle.mem_bench.specs.State.{empty_state, state_of};

    /// A bench with no regions, an empty folder and no memory. It takes no memory.
    pub fn new(alloc: Global) -> NeverFails
        ensures { state_of result.bench ≡ empty_state }
    {
        NeverFails {
            bench: MemBench::new(alloc),
        }
    }
}

impl BenchState for NeverFails {
    ghost use Rattle.mem_bench.specs.State.{state_of};

    ghost state = { λ b. state_of b.bench };
}

impl Flash for NeverFails {
    fn regions(&self) -> u32 {
        self.bench.regions()
    }

    fn size(&self, region: u32) -> u32 {
        self.bench.size(region)
    }

    fn read(&mut self, region: u32, at: u32, out: &mut [u8]) -> Result<(), Failed> {
        Flash::read(&mut self.bench, region, at, out)
    }

    fn write(&mut self, region: u32, at: u32, bytes: &[u8]) -> Result<(), Failed> {
        self.bench.write(region, at, bytes)
    }

    fn sync(&mut self, region: u32) -> Result<(), Failed> {
        self.bench.sync(region)
    }

    fn ready(&mut self, device: u8) -> Result<(), NoMemory> {
        self.bench.ready(device)
    }

    fn begin(&mut self, device: u8, ticket: Ticket) -> Result<(), Failed> {
        self.bench.begin(device, ticket)
    }

    fn end(&mut self, device: u8) -> Result<(), Failed> {
        self.bench.end(device)
    }
}

impl Volume for NeverFails {
    fn list(&mut self, alloc: Global) -> Result<Listing, VolumeFault> {
        self.bench.list(alloc)
    }

    fn read_file(&mut self, serial: u64, at: u32, out: &mut [u8]) -> Result<(), Failed> {
        self.bench.read_file(serial, at, out)
    }

    fn put(&mut self, alloc: Global, name: &Text, bytes: &[u8]) -> Result<u64, VolumeFault> {
        self.bench.put(alloc, name, bytes)
    }

    fn remove(&mut self, serial: u64) -> Result<(), Failed> {
        self.bench.remove(serial)
    }
}

impl PhysMem for NeverFails {
    ghost segments = { λ b. b.bench.memory };

    fn read(&self, at: u64, out: &mut [u8]) -> bool {
        PhysMem::read(&self.bench, at, out)
    }
}

impl Platform for NeverFails {
    ghost use Rattle.std.specs.Prelude.{refl};

    ghost memory_is = { λ b. refl };
}

impl Bench for NeverFails {
    fn lay_out(&mut self, alloc: Global, board: &Board) -> Result<(), NoMemory> {
        self.bench.lay_out(alloc, board)
    }

    fn lay(&mut self, at: u64, bytes: &[u8]) -> Result<(), LayFault> {
        self.bench.lay(at, bytes)
    }

    fn arm(&mut self, after: u32, choice: Choice) {
        self.bench.keep(Order::Arm { after, choice });
    }

    fn fail(&mut self, nth: u32) {
        self.bench.keep(Order::Fail { nth });
    }

    fn cycle(&mut self, cold: bool) {
        self.bench.cycle(cold);
    }
}
