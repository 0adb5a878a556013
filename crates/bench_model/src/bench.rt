ghost use Rattle.std.specs.Prelude.{◌≡◌, ◌≤◌, length, OnOk, OnErr};
ghost use Rattle.bench_model.specs.Bench.{HasOrderRoom, OrdersOnly, ArmsPlan, FailsPlan, Cycles};
ghost use Rattle.bench_model.specs.Bench.{Lays};
ghost use Rattle.bench_model.specs.Bench.{laid_refusal};
ghost use Rattle.bench_model.specs.Factory.{LaysOut};
ghost use Rattle.bench_model.specs.Memory.{told_refusal};

use crate::{Board, Choice, Flash, LayFault, Order, PhysMem, Volume};
use cu_base::NoMemory;
use std::alloc::Global;

/// A platform: its flash, its volume and its memory are those of one bench.
pub trait Platform: Flash + Volume + PhysMem {
    /// What is read as memory is the memory of the bench.
    ghost memory_is: { (b : Self) → Self.segments b ≡ (Self.state b).contents.rest.memory };
}

/// A platform on a bench: it is laid out by a board, its memory is laid, its power is cut and its
/// calls fail by plan, and it is reset.
pub trait Bench: Platform {
    /// Makes the bench that of a board as it leaves the factory. It counts no fault.
    fn lay_out(&mut self, alloc: Global, board: &Board) -> Result<(), NoMemory>
        ensures ok { OnOk result (LaysOut board.now (Self.state self.old) (Self.state self.new)) }
        ensures err { OnErr result (Self.state self.new ≡ Self.state self.old) };

    /// Lays bytes into memory, over what is there. The refusals are those of `Segments::lay`.
    fn lay(&mut self, at: u64, bytes: &[u8]) -> Result<(), LayFault>
        ensures ok { OnOk result (Lays at bytes.now (Self.state self.old) (Self.state self.new)) }
        ensures err { OnErr result (Self.state self.new ≡ Self.state self.old) }
        ensures refused { told_refusal result ≡ laid_refusal at (length bytes.now) (Self.state self.old) };

    /// Orders a power cut at the step after the next `after` ones, in place of one that is pending.
    fn arm(&mut self, after: u32, choice: Choice)
        requires room { HasOrderRoom (Self.state self.old) }
        ensures frame { OrdersOnly (Order.Arm after choice) (Self.state self.old)
            (Self.state self.new) }
        ensures plan { ArmsPlan after choice (Self.state self.old) (Self.state self.new) };

    /// Orders a fault of the `nth` call from now on, in place of one that is pending.
    fn fail(&mut self, nth: u32)
        requires room { HasOrderRoom (Self.state self.old) }
        requires some { 1 ≤ nth }
        ensures frame { OrdersOnly (Order.Fail nth) (Self.state self.old) (Self.state self.new) }
        ensures plan { FailsPlan nth (Self.state self.old) (Self.state self.new) };

    /// Resets the platform. It is cold also where power is off.
    fn cycle(&mut self, cold: bool)
        requires room { HasOrderRoom (Self.state self.old) }
        ensures ok { Cycles cold (Self.state self.old) (Self.state self.new) };
}
