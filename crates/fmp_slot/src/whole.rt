//! A payload that is there as a whole, over any form.

ghost use Rattle.std.specs.Prelude.{◌≡◌, ◌+◌, [], true, length, OnOk};
ghost use Rattle.fmp_slot.specs.Held.{HasSlot, IsBegun, KeepsSlots, KeepsOrSeals, IsDurable};
ghost use Rattle.fmp_slot.specs.Held.{held, region_in};
ghost use Rattle.fmp_slot.specs.Refusals.{FinishesAt, ReadsBack};
ghost use Rattle.fmp_slot.specs.Spending.{Spends, ChangesDevice, SlotCause};
ghost use Rattle.fmp_slot.specs.Writing.{more_taken, pieces_of};

use crate::{PIECE, SlotFault, SlotForm};
use bench_model::Flash;

/// Writes the whole payload of a slot that was started, in pieces that are read back, and seals it.
/// These are 4 moves and one for each piece, and a look and one for each piece.
///
/// Apart only with a byte that was read as another, never where the flash tells its bytes. Flash
/// only where the flash failed. After a refusal whatever a power cut leaves is unsealed, the slot
/// as it was before, or the new one wholly. It takes no memory.
pub fn finish<S: SlotForm, F: Flash>(
    form: &S,
    flash: &mut F,
    mut writer: S::Writer,
    payload: &[u8],
) -> Result<(), SlotFault>
    requires there { HasSlot (S.size_of 0) (S.writing writer).device (F.state flash.old) }
    requires begun { IsBegun (S.writing writer).device (F.state flash.old) }
    requires underway { S.underway writer
        (region_in (S.writing writer).device (F.state flash.old)) }
    requires none { (S.writing writer).taken ≡ 0 }
    requires fresh { S.taken writer
        (region_in (S.writing writer).device (F.state flash.old)).bytes ≡ [] }
    requires whole { length payload.now ≡ (S.writing writer).head.length }
    ensures durable { OnOk result (IsDurable S.slot_of
        (held (S.writing writer).head (S.writing writer).dep payload.now)
        (region_in (S.writing writer).device (F.state flash.new))) }
    ensures images { KeepsOrSeals S.slot_of
        (held (S.writing writer).head (S.writing writer).dep payload.now)
        (region_in (S.writing writer).device (F.state flash.old))
        (region_in (S.writing writer).device (F.state flash.new)) }
    ensures refused { FinishesAt (F.state flash.old).contents.told (S.places writer) payload.now
        result }
    ensures frame { ChangesDevice (S.writing writer).device (F.state flash.old)
        (F.state flash.new) }
    ensures counts { Spends (4 + pieces_of (length payload.now)) (1 + pieces_of (length payload.now))
        result (F.state flash.old) (F.state flash.new) }
    ensures cause { SlotCause (F.state flash.old) (F.state flash.new) result }
{
    put_pieces(form, flash, &mut writer, payload)?;
    form.seal(flash, writer)
}

/// Writes the whole payload and reads each piece back: a move and a look for each.
fn put_pieces<S: SlotForm, F: Flash>(
    form: &S,
    flash: &mut F,
    writer: &mut S::Writer,
    payload: &[u8],
) -> Result<(), SlotFault>
    requires there { HasSlot (S.size_of 0) (S.writing writer.old).device (F.state flash.old) }
    requires begun { IsBegun (S.writing writer.old).device (F.state flash.old) }
    requires underway { S.underway writer.old
        (region_in (S.writing writer.old).device (F.state flash.old)) }
    requires none { (S.writing writer.old).taken ≡ 0 }
    requires fresh { S.taken writer.old
        (region_in (S.writing writer.old).device (F.state flash.old)).bytes ≡ [] }
    requires whole { length payload.now ≡ (S.writing writer.old).head.length }
    ensures ok { OnOk result (S.writing writer.new
        ≡ more_taken (S.writing writer.old) (length payload.now)) }
    ensures underway { OnOk result (S.underway writer.new
        (region_in (S.writing writer.old).device (F.state flash.new))) }
    ensures places { S.places writer.new ≡ S.places writer.old }
    ensures taken { OnOk result
        ((region_in (S.writing writer.old).device (F.state flash.old)).told ≡ true
        → S.taken writer.new (region_in (S.writing writer.old).device (F.state flash.new)).bytes
        ≡ payload.now) }
    ensures images { KeepsSlots S.slot_of
        (region_in (S.writing writer.old).device (F.state flash.old))
        (region_in (S.writing writer.old).device (F.state flash.new)) }
    ensures refused { ReadsBack (F.state flash.old).contents.told
        (S.places writer.old).payload_at payload.now result }
    ensures frame { ChangesDevice (S.writing writer.old).device (F.state flash.old)
        (F.state flash.new) }
    ensures counts { Spends (pieces_of (length payload.now)) (pieces_of (length payload.now))
        result (F.state flash.old) (F.state flash.new) }
    ensures cause { SlotCause (F.state flash.old) (F.state flash.new) result }
{
    let mut at = 0;
    while at < payload.len() {
        let end = payload.len().min(at + PIECE);
        form.piece(flash, writer, &payload[at..end])?;
        at = end;
    }
    Ok(())
}
