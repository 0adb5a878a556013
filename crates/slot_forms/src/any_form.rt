//! An image that is set over any form of slot.

ghost use Rattle.std.specs.Prelude.{◌≡◌, ◌+◌, ◌≤◌, ℕ, length, OnOk, IsErrOf};
ghost use Rattle.fmp_slot.specs.Held.{HasSlot, IsBegun, IsToldStable, KeepsOrSeals, IsDurable};
ghost use Rattle.fmp_slot.specs.Held.{held, region_in};
ghost use Rattle.fmp_slot.specs.Spending.{SpendsUpTo, ChangesDevice, SlotCause};
ghost use Rattle.fmp_slot.specs.Writing.{pieces_of};
ghost use Rattle.slot_forms.specs.Setting.{SetsOver};

use bench_model::Flash;
use fmp_slot::{MAX_KEPT_SECTION, SlotFault, SlotForm, SlotHead, finish};

/// Writes the slot of a device over any form: it is started, the payload is written in pieces that
/// are read back, and it is sealed. These are 6 moves and one for each piece.
///
/// TooLarge exactly where the payload is longer than the capacity, and then nothing was done. Apart
/// only with a byte that was read as another, never where the flash tells its bytes. Flash only
/// where the flash failed. After a refusal whatever a power cut leaves is the slot as it was, an
/// unsealed one, or the new one wholly.
pub fn set_in<S: SlotForm, F: Flash>(
    form: &S,
    flash: &mut F,
    device: u8,
    head: &SlotHead,
    dep: &[u8],
    payload: &[u8],
) -> Result<(), SlotFault>
    requires there { HasSlot (S.size_of 0) device (F.state flash.old) }
    requires begun { IsBegun device (F.state flash.old) }
    requires stable { IsToldStable device (F.state flash.old) }
    requires section { length dep.now ≡ head.now.dep_length }
    requires limit { head.now.dep_length ≤ MAX_KEPT_SECTION }
    requires whole { length payload.now ≡ head.now.length }
    ensures durable { OnOk result (IsDurable S.slot_of (held head.now dep.now payload.now)
        (region_in device (F.state flash.new))) }
    ensures images { KeepsOrSeals S.slot_of (held head.now dep.now payload.now)
        (region_in device (F.state flash.old)) (region_in device (F.state flash.new)) }
    ensures refused { (c : ℕ) → length (region_in device (F.state flash.old)).bytes ≡ S.size_of c
        → SetsOver S.may_write (F.state flash.old).contents.told (S.size_of c) c
        (held head.now dep.now payload.now) result }
    ensures err { IsErrOf result SlotFault.TooLarge → F.state flash.new ≡ F.state flash.old }
    ensures frame { ChangesDevice device (F.state flash.old) (F.state flash.new) }
    ensures counts { SpendsUpTo (6 + pieces_of (length payload.now))
        (3 + pieces_of (length payload.now)) result (F.state flash.old) (F.state flash.new) }
    ensures cause { SlotCause (F.state flash.old) (F.state flash.new) result }
{
    let writer = form.start(flash, device, head, dep)?;
    finish(form, flash, writer, payload)
}
