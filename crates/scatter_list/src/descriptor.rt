//! One descriptor of a scatter list.

ghost use Rattle.std.specs.Prelude.{◌≡◌, ◌+◌, ◌-◌, ◌^◌, ◌<◌, ◌≤◌, ◌&&◌, ◌==◌, false, IfSome, IsNone};
ghost use Rattle.scatter_list.specs.Descriptors.{IsDescriptor, behind_of};
ghost use Rattle.scatter_list.specs.Reads.{is_whole};
ghost use Rattle.scatter_list.specs.Walk.{next};

use crate::DESCRIPTOR_BYTES;
use bench_model::PhysMem;
use cu_base::{Ledger, Steps, u64_at};

/// A descriptor, EFI_CAPSULE_BLOCK_DESCRIPTOR (UEFI 2.10, 8.5.3).
#[derive(Clone, Copy)]
pub struct Descriptor {
    /// Length.
    pub length: u64,
    /// DataBlock where Length is above 0, else ContinuationPointer.
    pub pointer: u64,
}

impl Descriptor {
    /// Whether it ends the list.
    pub fn is_end(&self) -> bool
        ensures value { result ≡ (self.now.length == 0 && self.now.pointer == 0) }
    {
        self.length == 0 && self.pointer == 0
    }
}

/// The descriptor at an address. None exactly where its 16 bytes are not all there.
pub fn read_descriptor<M: PhysMem>(memory: &M, at: u64) -> Option<Descriptor>
    ensures value { IfSome result (IsDescriptor (M.segments memory.now) at) }
    ensures refused { IsNone result → is_whole (M.segments memory.now) at 16 ≡ false }
{
    let mut bytes = [0; DESCRIPTOR_BYTES];
    if !memory.read(at, &mut bytes) {
        return None;
    }
    Some(Descriptor {
        length: u64_at(&bytes, 0),
        pointer: u64_at(&bytes, 8),
    })
}

/// The address of the descriptor behind this one.
pub fn behind(descriptor: Descriptor, at: u64) -> u64
    requires room { at + 16 < 2 ^ 64 }
    ensures { result ≡ behind_of descriptor at }
{
    if descriptor.length > 0 {
        at + DESCRIPTOR_BYTES as u64
    } else {
        descriptor.pointer
    }
}

/// The address that follows in the walk, which reads one descriptor.
pub fn next_address<M: PhysMem, L: Ledger>(memory: &M, at: u64, steps: &mut Steps<L>) -> u64
    requires room { steps.old < 2 ^ 64 - 1 }
    ensures value { result ≡ next (M.segments memory.now) at }
    ensures counts { steps.new ≡ steps.old + 1 }
{
    steps.tick();
    match read_descriptor(memory, at) {
        Some(descriptor) => behind(descriptor, at),
        None => at,
    }
}
