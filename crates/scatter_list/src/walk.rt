//! The shape of a scatter list.

ghost use Rattle.std.specs.Prelude.{◌≡◌, ◌+◌, ◌^◌, ◌≤◌, Some, Ok, IfOk};
ghost use Rattle.scatter_list.specs.Walk.{walk};

use crate::descriptor::{behind, read_descriptor};
use crate::repeats::repeated;
use crate::{MAX_DESCRIPTORS, MAX_STEPS, Shape, ShapeFault};
use bench_model::PhysMem;
use cu_base::{Ledger, Steps};

/// Walks the scatter list from an address on. It keeps no list of addresses and takes no memory:
/// a list that has no end within 65,536 descriptors is walked again, by two places that go on
/// together. Each step is counted before its descriptor is read.
pub fn shape<M: PhysMem, L: Ledger>(
    memory: &M,
    root: u64,
    steps: &mut Steps<L>,
) -> Result<Shape, ShapeFault>
    requires room { steps.old ≤ 2 ^ 63 }
    ensures value { walk (M.segments memory.now) root ≡ Some result }
    ensures rule { IfOk result (λ shape.
        walk (M.segments memory.now) shape.root ≡ Some (Ok shape)) }
    ensures counts { IfOk result (λ shape. steps.new ≡ steps.old + shape.descriptors) }
    ensures bound { steps.new ≤ steps.old + MAX_STEPS }
{
    let mut at = root;
    let mut total: u128 = 0;
    for index in 0..MAX_DESCRIPTORS {
        if at % 8 != 0 {
            return Err(ShapeFault::Misaligned { at });
        }
        steps.tick();
        let Some(descriptor) = read_descriptor(memory, at) else {
            return Err(ShapeFault::Unreadable { at });
        };
        if descriptor.is_end() {
            return Ok(Shape {
                root,
                descriptors: index + 1,
                total,
            });
        }
        total += descriptor.length as u128;
        at = behind(descriptor, at);
    }
    Err(repeated(memory, root, at, steps))
}
