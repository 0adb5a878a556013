//! The writer of a slot with one bank.

ghost use Rattle.std.specs.Prelude.{◌≡◌, ◌-◌, ◌≤◌, [], length, take, IfOk, IsErrOf};
ghost use Rattle.fmp_slot.specs.Held.{HasSlot, IsBegun, IsToldStable, KeepsSlots, region_in};
ghost use Rattle.fmp_slot.specs.Layout.{IsSlotHead, slot_of, region_bytes};
ghost use Rattle.fmp_slot.specs.Refusals.{StartsWithin};
ghost use Rattle.fmp_slot.specs.Spending.{Spends, ChangesDevice, SlotCause};
ghost use Rattle.fmp_slot.specs.Writers.{writing_of, is_underway, places_for, places_of};
ghost use Rattle.fmp_slot.specs.Writing.{started, payload_so_far};

use crate::moves::unseal;
use crate::{MAX_KEPT_SECTION, SlotFault, SlotHead, SlotWriter};
use bench_model::{Flash, SLOT_LEAD};

/// The region of the first device: those before it are banks.
pub const FIRST_DEVICE: u32 = 2;

impl SlotWriter {
    /// Makes the slot unsealed, and begins to write it.
    pub(crate) fn start<F: Flash>(
        flash: &mut F,
        device: u8,
        head: &SlotHead,
        dep: &[u8],
    ) -> Result<SlotWriter, SlotFault>
        requires there { HasSlot (region_bytes 0) device (F.state flash.old) }
        requires begun { IsBegun device (F.state flash.old) }
        requires stable { IsToldStable device (F.state flash.old) }
        requires section { length dep.now ≡ head.now.dep_length }
        requires limit { head.now.dep_length ≤ MAX_KEPT_SECTION }
        ensures ok { IfOk result (λ w. writing_of w ≡ started device head.now dep.now) }
        ensures underway { IfOk result (λ w. is_underway w (region_in device (F.state flash.new))) }
        ensures places { IfOk result (λ w. places_of w ≡ places_for head.now dep.now) }
        ensures taken { IfOk result (λ w.
            payload_so_far w.taken (region_in device (F.state flash.new)).bytes ≡ []) }
        ensures images { KeepsSlots slot_of (region_in device (F.state flash.old))
            (region_in device (F.state flash.new)) }
        ensures refused { StartsWithin
            (length (region_in device (F.state flash.old)).bytes - SLOT_LEAD) head.now.length result }
        ensures err { IsErrOf result SlotFault.TooLarge → F.state flash.new ≡ F.state flash.old }
        ensures frame { ChangesDevice device (F.state flash.old) (F.state flash.new) }
        ensures counts { Spends 2 1 result (F.state flash.old) (F.state flash.new) }
        ensures cause { SlotCause (F.state flash.old) (F.state flash.new) result }
    {
        let region = device as u32 + FIRST_DEVICE;
        if head.length > flash.size(region) - SLOT_LEAD {
            return Err(SlotFault::TooLarge);
        }
        unseal(flash, region)?;
        Ok(SlotWriter {
            device,
            head: *head,
            dep: kept(dep),
            taken: 0,
        })
    }
}

/// Each field of a head has its width, as its type says.
pub fn widths(head: &SlotHead)
    ensures { IsSlotHead head.now }
{
    let _route = head.ticket.route;
    let _capsule = head.ticket.capsule;
    let _item = head.ticket.item;
    let _serial = head.ticket.serial;
    let _version = head.version;
    let _floor = head.floor;
    let _length = head.length;
    let _dep_length = head.dep_length;
}

/// The section in a buffer of its own, behind which stand zeros.
fn kept(dep: &[u8]) -> [u8; MAX_KEPT_SECTION as usize]
    requires { length dep.now ≤ MAX_KEPT_SECTION }
    ensures { take (length dep.now) result ≡ dep.now }
{
    let mut kept = [0; MAX_KEPT_SECTION as usize];
    kept[..dep.len()].copy_from_slice(dep);
    kept
}
