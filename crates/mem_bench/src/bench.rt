ghost use Rattle.std.specs.Prelude.{◌+◌, ◌<◌, ◌≤◌, ◌^◌, length};

use crate::clerk::Clerk;
use crate::folder::Folder;
use crate::order_book::OrderBook;
use crate::region::Region;
use crate::tickets::Tickets;
use bench_model::{BenchState, Segments};
use std::alloc::Global;

/// A bench in memory. It tells all: its bytes, its plan and its counts.
#[derive(Drop)]
pub struct MemBench {
    pub(crate) regions: Vec<Region>,
    pub(crate) devices: Vec<Tickets>,
    pub(crate) open_device: Option<u8>,
    pub(crate) folder: Folder,
    pub(crate) memory: Segments,
    pub(crate) orders: OrderBook,
    pub(crate) clerk: Clerk,
    ghost few: { length regions.items < 2 ^ 32 },
    ghost devices_there: { length regions.items ≤ length devices.items + 2 },
}

impl MemBench {
    ghost use Rattle.std.specs.Prelude.{◌≡◌};
    ghost use Rattle.mem_bench.specs.State.{empty_state, state_of};

    /// A bench with no regions, an empty folder and no memory, whose plan is empty. It takes no
    /// memory.
    pub fn new(alloc: Global) -> MemBench
        ensures { state_of result ≡ empty_state }
    {
        MemBench {
            regions: Vec::new(alloc),
            devices: Vec::new(alloc),
            open_device: None,
            folder: Folder::new(alloc),
            memory: Segments::new(alloc),
            orders: OrderBook::new(alloc),
            clerk: Clerk::new(),
        }
    }
}

impl BenchState for MemBench {
    ghost use Rattle.mem_bench.specs.State.{state_of};

    ghost state = { state_of };
}
