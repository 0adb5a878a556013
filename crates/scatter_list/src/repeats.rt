//! The first address that a walk comes to again, found by two places that go on together.

ghost use Rattle.std.specs.Prelude.{◌≡◌, ◌+◌, ◌*◌, ◌^◌, ◌<◌, ◌≤◌, Some, Err};
ghost use Rattle.scatter_list.specs.Going.{GoesOnTo, TellsPeriod, TellsMeeting};
ghost use Rattle.scatter_list.specs.Walk.{walk, address, next, steps_on};

use crate::descriptor::next_address;
use crate::{MAX_DESCRIPTORS, ShapeFault};
use bench_model::PhysMem;
use cu_base::{Ledger, Steps};

/// Why a walk that goes on at each index below 65,536 has no shape. `far` is the address of that
/// index: it lies on the cycle, if the walk comes to an address again by then.
pub fn repeated<M: PhysMem, L: Ledger>(
    memory: &M,
    root: u64,
    far: u64,
    steps: &mut Steps<L>,
) -> ShapeFault
    requires room { steps.old ≤ 2 ^ 63 + MAX_DESCRIPTORS }
    requires far { far ≡ address (M.segments memory.now) root MAX_DESCRIPTORS }
    requires on { GoesOnTo (M.segments memory.now) root MAX_DESCRIPTORS }
    ensures value { walk (M.segments memory.now) root ≡ Some (Err result) }
    ensures bound { steps.new ≤ steps.old + 3 * MAX_DESCRIPTORS + 2 }
{
    let Some(period) = period_of(memory, far, steps) else {
        return ShapeFault::TooLong;
    };
    match meeting(memory, root, period, steps) {
        Some(at) => ShapeFault::Cycle { at },
        None => ShapeFault::TooLong,
    }
}

/// The smallest number of steps, of at most 65,536, that lead from an address to itself.
fn period_of<M: PhysMem, L: Ledger>(memory: &M, from: u64, steps: &mut Steps<L>) -> Option<u32>
    requires room { steps.old + MAX_DESCRIPTORS < 2 ^ 64 }
    ensures value { TellsPeriod (next (M.segments memory.now)) from result }
    ensures bound { steps.new ≤ steps.old + MAX_DESCRIPTORS }
{
    let mut at = from;
    for n in 0..MAX_DESCRIPTORS {
        at = next_address(memory, at, steps);
        if at == from {
            return Some(n + 1);
        }
    }
    None
}

/// The address so many steps on.
fn address_after<M: PhysMem, L: Ledger>(
    memory: &M,
    from: u64,
    count: u32,
    steps: &mut Steps<L>,
) -> u64
    requires room { steps.old + count < 2 ^ 64 }
    ensures value { result ≡ steps_on (next (M.segments memory.now)) from count }
    ensures counts { steps.new ≡ steps.old + count }
{
    let mut at = from;
    for _n in 0..count {
        at = next_address(memory, at, steps);
    }
    at
}

/// The first address that is met again after so many steps, at or below index 65,536.
fn meeting<M: PhysMem, L: Ledger>(
    memory: &M,
    root: u64,
    period: u32,
    steps: &mut Steps<L>,
) -> Option<u64>
    requires room { steps.old + 2 * MAX_DESCRIPTORS + 2 < 2 ^ 64 }
    requires period { period ≤ MAX_DESCRIPTORS }
    ensures value { TellsMeeting (next (M.segments memory.now)) root period result }
    ensures bound { steps.new ≤ steps.old + 2 * MAX_DESCRIPTORS + 2 }
{
    let mut behind = root;
    let mut ahead = address_after(memory, root, period, steps);
    for _index in 0..MAX_DESCRIPTORS - period + 1 {
        if behind == ahead {
            return Some(behind);
        }
        behind = next_address(memory, behind, steps);
        ahead = next_address(memory, ahead, steps);
    }
    None
}
