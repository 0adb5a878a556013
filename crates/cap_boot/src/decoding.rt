//! The capsules of a delivery, from its bytes.

ghost use Rattle.std.specs.Prelude.{◌≡◌, ◌≤◌, IfOk, IfSome, Ok, Some, length, map, option_and_then};
ghost use Rattle.std.specs.Prelude.{option_map};
ghost use Rattle.capsule_grammar.specs.declared.all.TheConstants.{MAX_CAPSULES};
ghost use Rattle.delivery_formats.specs.Seen.{machine_capsule};
ghost use Rattle.delivery_formats.specs.TrueFormats.{true_formats};
ghost use Rattle.scatter_list.specs.Coalesced.{coalesced_of, joined};
ghost use Rattle.scatter_list.specs.Walk.{walk};

use bench_model::PhysMem;
use capsule_grammar::{Capsules, DecodeFault, decode_all};
use cu_base::{Blob, CountLedger, MAX_CAPSULE_BYTES, NoMemory, Steps};
use scatter_list::{CoalesceFault, Shape, coalesce, shape};
use std::alloc::Global;

/// The capsules that bytes hold back to back, None where the bytes are refused.
pub(crate) fn capsules_in(alloc: Global, bytes: &[u8]) -> Result<Option<Capsules>, NoMemory>
    ensures value { IfOk result (λ found. option_map (λ c. map machine_capsule c.items) found
        ≡ true_formats.capsules bytes.now) }
    ensures few { IfOk result (λ found. IfSome found (λ c. length c.items ≤ MAX_CAPSULES)) }
{
    match decode_all(alloc, bytes) {
        Ok(capsules) => Ok(Some(capsules)),
        Err(DecodeFault::Refused(_)) => Ok(None),
        Err(DecodeFault::Memory) => Err(NoMemory),
    }
}

/// The capsules behind the scatter list at an address, None where the list cannot be coalesced or
/// its bytes are refused.
pub(crate) fn capsules_behind<M: PhysMem>(
    alloc: Global,
    memory: &M,
    address: u64,
) -> Result<Option<Capsules>, NoMemory>
    ensures value { IfOk result (λ found. option_map (λ c. map machine_capsule c.items) found
        ≡ option_and_then true_formats.capsules (coalesced_of (M.segments memory.now) address)) }
    ensures few { IfOk result (λ found. IfSome found (λ c. length c.items ≤ MAX_CAPSULES)) }
{
    match bytes_behind(alloc, memory, address)? {
        Some(bytes) => capsules_in(alloc, bytes.as_slice()),
        None => Ok(None),
    }
}

/// The bytes behind the scatter list at an address, None where it cannot be coalesced.
fn bytes_behind<M: PhysMem>(
    alloc: Global,
    memory: &M,
    address: u64,
) -> Result<Option<Blob>, NoMemory>
    ensures { IfOk result (λ bytes. bytes ≡ coalesced_of (M.segments memory.now) address) }
{
    let mut steps = Steps::new(CountLedger { count: 0 });
    match shape(memory, address, &mut steps) {
        Ok(list) => bytes_of(alloc, memory, &list),
        Err(_) => Ok(None),
    }
}

/// The same of a list that was walked.
fn bytes_of<M: PhysMem>(alloc: Global, memory: &M, list: &Shape) -> Result<Option<Blob>, NoMemory>
    requires walked { walk (M.segments memory.now) list.now.root ≡ Some (Ok list.now) }
    ensures { IfOk result
        (λ bytes. bytes ≡ joined (M.segments memory.now) MAX_CAPSULE_BYTES list.now) }
{
    match coalesce(alloc, memory, list, MAX_CAPSULE_BYTES) {
        Ok(bytes) => Ok(Some(bytes)),
        Err(CoalesceFault::Memory) => Err(NoMemory),
        Err(_) => Ok(None),
    }
}
