//! What a bench in memory tells of itself beside the calls of its traits: the tests of what these
//! require, and its counts.

ghost use Rattle.std.specs.Prelude.{◌≡◌};
ghost use Rattle.bench_model.specs.Bench.{HasDevice};
ghost use Rattle.bench_model.specs.Files.{has_serial};
ghost use Rattle.mem_bench.specs.State.{state_of};

use crate::MemBench;
use bench_model::Counts;
use cu_base::Ticket;

impl MemBench {
    /// How many more orders need no memory: `arm`, `fail` and `cycle` require one.
    pub fn order_room(&self) -> usize
        ensures { result ≡ (state_of self.now).orders.room }
    {
        self.orders.room()
    }

    /// The counts of moves, looks and faults.
    pub fn counts(&self) -> Counts
        ensures { result ≡ (state_of self.now).counts }
    {
        self.clerk.counts
    }

    /// The device whose region may be written, where one is.
    pub fn open_device(&self) -> Option<u8>
        ensures { result ≡ (state_of self.now).contents.rest.open_device }
    {
        self.open_device
    }

    /// The tickets that were begun on a device, in order.
    pub fn begun(&self, device: u8) -> &[Ticket]
        requires { HasDevice device (state_of self.now) }
        ensures { result.now ≡ (state_of self.now).contents.rest.begun device }
    {
        self.devices[device as usize].as_slice()
    }

    /// Whether a file has this serial: `read_file` and `remove` require one.
    pub fn has_file(&self, serial: u64) -> bool
        ensures { result ≡ has_serial serial (state_of self.now).contents.rest.folder.files }
    {
        self.folder.has_serial(serial)
    }
}
