ghost use Rattle.std.specs.Prelude.{◌≡◌, option_map};
ghost use Rattle.bench_model.specs.Bench.{Cycles, HasOrderRoom, OrdersOnly};
ghost use Rattle.bench_model.specs.Plans.{with_arm, with_fail};
ghost use Rattle.mem_bench.specs.State.{LeavesRegions, state_of};

use crate::MemBench;
use crate::factory::{first_regions, first_tickets};
use crate::folder::Folder;
use crate::reset::settle_all;
use bench_model::{
    Armed, Bench, Board, Choice, LayFault, ORDER_ROOM, Order, Ordered, PhysMem, Plan, Platform,
    Segments,
};
use cu_base::NoMemory;
use std::alloc::Global;

impl PhysMem for MemBench {
    ghost segments = { λ b. b.memory };

    fn read(&self, at: u64, out: &mut [u8]) -> bool {
        self.memory.read(at, out)
    }
}

impl Platform for MemBench {
    ghost use Rattle.std.specs.Prelude.{refl};

    ghost memory_is = { λ b. refl };
}

impl Bench for MemBench {
    fn lay_out(&mut self, alloc: Global, board: &Board) -> Result<(), NoMemory> {
        let regions = first_regions(alloc, board)?;
        let devices = first_tickets(alloc, board.devices().len())?;
        self.orders.make_room(ORDER_ROOM + 1)?;
        self.keep(Order::LayOut);
        self.regions = regions;
        self.devices = devices;
        self.open_device = None;
        self.folder = Folder::new(alloc);
        self.memory = Segments::new(alloc);
        self.clerk.plan = Plan::empty();
        Ok(())
    }

    fn lay(&mut self, at: u64, bytes: &[u8]) -> Result<(), LayFault> {
        self.memory.lay(at, bytes)?;
        Ok(())
    }

    fn arm(&mut self, after: u32, choice: Choice)
        requires { HasOrderRoom (state_of self.old) }
        ensures frame { OrdersOnly (Order.Arm after choice) (state_of self.old)
            (state_of self.new) }
        ensures plan { (state_of self.new).plan
            ≡ option_map (with_arm after choice) (state_of self.old).plan }
    {
        self.keep(Order::Arm { after, choice });
        self.clerk.plan.armed = Some(Armed { after, choice });
    }

    fn fail(&mut self, nth: u32)
        requires { HasOrderRoom (state_of self.old) }
        ensures frame { OrdersOnly (Order.Fail nth) (state_of self.old) (state_of self.new) }
        ensures plan { (state_of self.new).plan
            ≡ option_map (with_fail nth) (state_of self.old).plan }
    {
        self.keep(Order::Fail { nth });
        self.clerk.plan.failing = Some(nth);
    }

    fn cycle(&mut self, cold: bool)
        requires { HasOrderRoom (state_of self.old) }
        ensures ok { Cycles cold (state_of self.old) (state_of self.new) }
        ensures kept { LeavesRegions cold self.old self.new }
    {
        self.keep(Order::Cycle { cold });
        let cut = self.clerk.plan.off;
        if cold || cut.is_some() {
            settle_all(&mut self.regions, cut);
            self.memory.clear();
        }
        self.open_device = None;
        self.clerk.plan = Plan::empty();
    }
}

impl MemBench {
    ghost use Rattle.std.specs.Prelude.{◌≡◌, ◌≤◌};
    ghost use Rattle.bench_model.specs.Bench.{HasOrderRoom, with_order};
    ghost use Rattle.mem_bench.specs.State.{state_of};

    /// Keeps an order with the counts of faults as they stand.
    pub(crate) fn keep(&mut self, order: Order)
        requires { 1 ≤ self.old.orders.room }
        ensures { self.new ≡ record self.old { orders = with_order order (state_of self.old) } }
    {
        self.orders.push(Ordered {
            order,
            flash_faults: self.clerk.counts.flash_faults,
            volume_faults: self.clerk.counts.volume_faults,
        });
    }
}
