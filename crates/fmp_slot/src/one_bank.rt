//! The form of a device with one bank, and its two free calls.

ghost use Rattle.std.specs.Prelude.{◌≡◌, ◌+◌, ◌-◌, ◌≤◌, true, length, OnOk, IfOk, IsErrOf};
ghost use Rattle.bench_model.specs.Bench.{ChangesCounts};
ghost use Rattle.fmp_slot.specs.Held.{HasSlot, IsBegun, IsToldStable, KeepsOrSeals, IsDurable};
ghost use Rattle.fmp_slot.specs.Held.{IsWithinLimits, held, shown, region_in};
ghost use Rattle.fmp_slot.specs.Layout.{slot_of, region_bytes};
ghost use Rattle.fmp_slot.specs.Refusals.{FailsAlone, SetsWithin};
ghost use Rattle.fmp_slot.specs.Spending.{Spends, ChangesDevice, SlotCause};
ghost use Rattle.fmp_slot.specs.Writing.{pieces_of};

use crate::layout::{DEP_AT, FRONT_AT, HEAD_BYTES, SEAL_AT, front, shown};
use crate::moves::{put, put_front, put_seal, read_back};
use crate::steps::{FIRST_DEVICE, widths};
use crate::{MAX_KEPT_SECTION, Slot, SlotFault, SlotForm, SlotHead, SlotWriter, finish};
use bench_model::{Flash, SLOT_LEAD};

/// The form of a device with one bank: its region has the head of the slot and its dependency
/// section in 8,192 bytes, and the payload behind them.
#[derive(Clone, Copy, Debug, PartialEq, Eq)]
pub struct OneBank;

impl SlotForm for OneBank {
    ghost use Rattle.std.proofs.Math.Nat.{add-le-add, le-add_left};
    ghost use Rattle.bench_model.specs.declared.outside_limits.TheConstants.{SLOT_LEAD};
    ghost use Rattle.fmp_slot.specs.Layout.{region_bytes};
    ghost use Rattle.fmp_slot.specs.Layout as layout;
    ghost use Rattle.fmp_slot.specs.Writers.{writing_of, is_underway, places_of, writes_at};
    ghost use Rattle.fmp_slot.specs.Writing.{payload_so_far};

    type Writer = SlotWriter;

    ghost slot_of = { layout.slot_of };

    ghost size_of = { region_bytes };

    ghost writing = { writing_of };

    ghost places = { places_of };

    ghost may_write = { writes_at };

    ghost taken = { λ w bytes. payload_so_far w.taken bytes };

    ghost underway = { is_underway };

    fn region(&self, capacity: u32) -> u32 {
        SLOT_LEAD + capacity
    }

    fn look<F: Flash>(&self, flash: &mut F, device: u8) -> Result<Slot, SlotFault> {
        look(flash, device)
    }

    fn read_dep<F: Flash>(
        &self,
        flash: &mut F,
        device: u8,
        head: &SlotHead,
        out: &mut [u8],
    ) -> Result<(), SlotFault> {
        flash.read(device as u32 + FIRST_DEVICE, DEP_AT, out)?;
        Ok(())
    }

    fn start<F: Flash>(
        &self,
        flash: &mut F,
        device: u8,
        head: &SlotHead,
        dep: &[u8],
    ) -> Result<SlotWriter, SlotFault> {
        SlotWriter::start(flash, device, head, dep)
    }

    fn piece<F: Flash>(
        &self,
        flash: &mut F,
        writer: &mut SlotWriter,
        bytes: &[u8],
    ) -> Result<(), SlotFault> {
        let region = writer.device as u32 + FIRST_DEVICE;
        let _size = flash.size(region);
        let at = SLOT_LEAD + writer.taken;
        put(flash, region, at, bytes)?;
        read_back(flash, region, at, bytes)?;
        writer.taken += bytes.len() as u32;
        Ok(())
    }

    fn seal<F: Flash>(&self, flash: &mut F, writer: SlotWriter) -> Result<(), SlotFault> {
        let region = writer.device as u32 + FIRST_DEVICE;
        let _size = flash.size(region);
        widths(&writer.head);
        let end = (DEP_AT + writer.head.dep_length) as usize;
        let front = front(&writer.head, &writer.dep[..writer.head.dep_length as usize]);
        put_front(flash, region, &front[FRONT_AT as usize..end])?;
        put_seal(flash, region)
    }

    ghost grows = { λ capacity some. add-le-add (le-add_left SLOT_LEAD 0) some };
}

/// What the slot of a device with one bank is: one look, at its head. Flash only where the flash
/// failed. It takes no memory.
pub fn look<F: Flash>(flash: &mut F, device: u8) -> Result<Slot, SlotFault>
    requires there { HasSlot (region_bytes 0) device (F.state flash.old) }
    ensures value { IfOk result (λ slot. (region_in device (F.state flash.old)).told ≡ true
        → slot ≡ shown (slot_of (region_in device (F.state flash.old)).bytes)) }
    ensures bound { IfOk result (λ slot. IsWithinLimits region_bytes
        (length (region_in device (F.state flash.old)).bytes) slot) }
    ensures refused { FailsAlone result }
    ensures frame { ChangesCounts (F.state flash.old) (F.state flash.new) }
    ensures counts { Spends 0 1 result (F.state flash.old) (F.state flash.new) }
    ensures cause { SlotCause (F.state flash.old) (F.state flash.new) result }
{
    let region = device as u32 + FIRST_DEVICE;
    let room = flash.size(region) - SLOT_LEAD;
    let mut head = [0; HEAD_BYTES];
    flash.read(region, SEAL_AT, &mut head)?;
    Ok(shown(room, &head))
}

/// Writes the slot of a device with one bank: it is made unsealed, the payload is written in pieces
/// that are read back, then the head and the section, which are read back too, and last the seal.
/// These are 6 moves and one for each piece, and 2 looks and one for each piece. The device is
/// begun, and no place of its region is dirty.
///
/// TooLarge exactly where the payload is longer than the capacity, and then nothing was done. Apart
/// only with a byte that was read as another, never where the flash tells its bytes. Flash only
/// where the flash failed. After a refusal whatever a power cut leaves is the slot as it was, an
/// unsealed one, or the new one wholly. It takes no memory.
pub fn set_image<F: Flash>(
    flash: &mut F,
    device: u8,
    head: &SlotHead,
    dep: &[u8],
    payload: &[u8],
) -> Result<(), SlotFault>
    requires there { HasSlot (region_bytes 0) device (F.state flash.old) }
    requires begun { IsBegun device (F.state flash.old) }
    requires stable { IsToldStable device (F.state flash.old) }
    requires section { length dep.now ≡ head.now.dep_length }
    requires limit { head.now.dep_length ≤ MAX_KEPT_SECTION }
    requires whole { length payload.now ≡ head.now.length }
    ensures durable { OnOk result (IsDurable slot_of (held head.now dep.now payload.now)
        (region_in device (F.state flash.new))) }
    ensures images { KeepsOrSeals slot_of (held head.now dep.now payload.now)
        (region_in device (F.state flash.old)) (region_in device (F.state flash.new)) }
    ensures refused { SetsWithin (length (region_in device (F.state flash.old)).bytes - SLOT_LEAD)
        (F.state flash.old).contents.told (held head.now dep.now payload.now) result }
    ensures err { IsErrOf result SlotFault.TooLarge → F.state flash.new ≡ F.state flash.old }
    ensures frame { ChangesDevice device (F.state flash.old) (F.state flash.new) }
    ensures counts { Spends (6 + pieces_of (length payload.now)) (2 + pieces_of (length payload.now))
        result (F.state flash.old) (F.state flash.new) }
    ensures cause { SlotCause (F.state flash.old) (F.state flash.new) result }
{
    let writer = SlotWriter::start(flash, device, head, dep)?;
    finish(&OneBank, flash, writer, payload)
}
