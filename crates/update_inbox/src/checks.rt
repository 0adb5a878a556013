//! Whether a capsule is of a kind that is taken.

ghost use Rattle.std.specs.Prelude.{◌≡◌, ◌/◌, ◌%◌, ◌==◌, ◌<◌, Some, Ok};
ghost use Rattle.fmp_headers.specs.CapsuleHeader.{capsule_header};
ghost use Rattle.reference_machine.specs.Events.{coalesced_refusal, flags_refusal};
ghost use Rattle.reference_machine.specs.Events.{header_refusal};
ghost use Rattle.scatter_list.specs.Coalesced.{coalesced_of, joined};
ghost use Rattle.scatter_list.specs.Walk.{walk};
ghost use Rattle.update_inbox.specs.Staging.{ChecksAs};

use crate::InboxFault;
use bench_model::PhysMem;
use cu_base::{CountLedger, MAX_CAPSULE_BYTES, Steps};
use fmp_headers::CapsuleHeader;
use scatter_list::{CoalesceFault, Shape, coalesce, shape};
use std::alloc::Global;

/// The capsule lasts over a reset (UEFI 2.10, 8.5.3).
pub const CAPSULE_FLAGS_PERSIST_ACROSS_RESET: u32 = 0x0001_0000;

/// The capsule becomes a table of the system (UEFI 2.10, 8.5.3).
pub const CAPSULE_FLAGS_POPULATE_SYSTEM_TABLE: u32 = 0x0002_0000;

/// The capsule asks for a reset (UEFI 2.10, 8.5.3).
pub const CAPSULE_FLAGS_INITIATE_RESET: u32 = 0x0004_0000;

/// Whether the capsule behind the scatter list at an address is taken.
pub fn check_list<M: PhysMem>(alloc: Global, memory: &M, address: u64) -> Result<(), InboxFault>
    ensures { ChecksAs (coalesced_refusal (coalesced_of (M.segments memory.now) address)) result }
{
    let mut steps = Steps::new(CountLedger { count: 0 });
    match shape(memory, address, &mut steps) {
        Ok(found) => check_blocks(alloc, memory, &found),
        Err(_) => Err(InboxFault::Invalid),
    }
}

/// The same of a list that was walked.
fn check_blocks<M: PhysMem>(alloc: Global, memory: &M, found: &Shape) -> Result<(), InboxFault>
    requires walked { walk (M.segments memory.now) found.now.root ≡ Some (Ok found.now) }
    ensures { ChecksAs (coalesced_refusal (joined (M.segments memory.now) MAX_CAPSULE_BYTES
        found.now)) result }
{
    match coalesce(alloc, memory, found, MAX_CAPSULE_BYTES) {
        Ok(bytes) => check_header(bytes.as_slice()),
        Err(CoalesceFault::Memory) => Err(InboxFault::Memory),
        Err(_) => Err(InboxFault::Invalid),
    }
}

/// Whether a capsule of these bytes is taken.
fn check_header(bytes: &[u8]) -> Result<(), InboxFault>
    ensures { ChecksAs (header_refusal (capsule_header bytes.now)) result }
{
    match CapsuleHeader::read(bytes) {
        Ok(header) => check_flags(header.flags),
        Err(_) => Err(InboxFault::Invalid),
    }
}

/// Whether a capsule of these flags is taken: one that lasts over a reset, and that is no table.
fn check_flags(flags: u32) -> Result<(), InboxFault>
    ensures { ChecksAs (flags_refusal flags) result }
{
    let lasts = has_flag(flags, CAPSULE_FLAGS_PERSIST_ACROSS_RESET);
    let is_table = has_flag(flags, CAPSULE_FLAGS_POPULATE_SYSTEM_TABLE);
    if !lasts && (is_table || has_flag(flags, CAPSULE_FLAGS_INITIATE_RESET)) {
        Err(InboxFault::Invalid)
    } else if !lasts || is_table {
        Err(InboxFault::Unsupported)
    } else {
        Ok(())
    }
}

/// Whether a flag of one bit is set.
fn has_flag(flags: u32, flag: u32) -> bool
    requires { 0 < flag }
    ensures { result ≡ (flags / flag % 2 == 1) }
{
    flags / flag % 2 == 1
}
