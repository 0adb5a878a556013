//! The moves that write a slot with one bank, over its region.

ghost use Rattle.std.specs.Prelude.{◌≡◌, ◌≢◌, ◌⊎◌, ℕ, ◌+◌, ◌≤◌, ◌==◌, true, [], ◌∷◌, length, get_or};
ghost use Rattle.std.specs.Prelude.{OnOk, if◌then◌else◌};
ghost use Rattle.cu_base.specs.Causes.{HasCauseOf};
ghost use Rattle.cu_base.specs.Fields.{field};
ghost use Rattle.bench_model.specs.Bench.{HasRegion, IsWithin, MayWrite, RegionReads, RegionWrites};
ghost use Rattle.bench_model.specs.Bench.{IsRegionStable, ChangesCounts, region_at};
ghost use Rattle.fmp_slot.specs.Held.{HeldSlot, KeepsSlots, KeepsOrSeals, IsDurable};
ghost use Rattle.fmp_slot.specs.Layout.{seal, slot_of, front_bytes};
ghost use Rattle.fmp_slot.specs.Refusals.{FailsAlone, ReadsBack};
ghost use Rattle.fmp_slot.specs.Spending.{Spends, ChangesSlot, SlotCause};
ghost use Rattle.fmp_slot.specs.Writing.{IsUnderway, IsReceived, HasFront};

use crate::layout::{BLANK, FRONT_AT, SEAL, SEAL_AT};
use crate::{PIECE, SlotFault};
use bench_model::{Flash, SLOT_LEAD};
use lane_scan::first_apart;

/// Reads back what was written from a place on, and compares it. A look.
pub fn read_back<F: Flash>(
    flash: &mut F,
    region: u32,
    at: u32,
    wrote: &[u8],
) -> Result<(), SlotFault>
    requires there { HasRegion region (F.state flash.old) }
    requires within { IsWithin region at (length wrote.now) (F.state flash.old) }
    requires small { length ((F.state flash.old).contents.bytes region) ≤ u32.MAX }
    requires short { length wrote.now ≤ PIECE }
    requires stands { RegionReads region at wrote.now (F.state flash.old) }
    ensures refused { ReadsBack (F.state flash.old).contents.told at wrote.now result }
    ensures frame { ChangesCounts (F.state flash.old) (F.state flash.new) }
    ensures counts { Spends 0 1 result (F.state flash.old) (F.state flash.new) }
    ensures cause { SlotCause (F.state flash.old) (F.state flash.new) result }
{
    let mut room = [0; PIECE];
    compare(flash, region, at, wrote, &mut room[..wrote.len()])?;
    Ok(())
}

/// The same into a buffer of the length of what was written.
fn compare<F: Flash>(
    flash: &mut F,
    region: u32,
    at: u32,
    wrote: &[u8],
    read: &mut [u8],
) -> Result<(), SlotFault>
    requires there { HasRegion region (F.state flash.old) }
    requires within { IsWithin region at (length wrote.now) (F.state flash.old) }
    requires small { length ((F.state flash.old).contents.bytes region) ≤ u32.MAX }
    requires same { length read.old ≡ length wrote.now }
    requires stands { RegionReads region at wrote.now (F.state flash.old) }
    ensures refused { ReadsBack (F.state flash.old).contents.told at wrote.now result }
    ensures frame { ChangesCounts (F.state flash.old) (F.state flash.new) }
    ensures counts { Spends 0 1 result (F.state flash.old) (F.state flash.new) }
    ensures cause { SlotCause (F.state flash.old) (F.state flash.new) result }
{
    flash.read(region, at, read)?;
    let place = first_apart(wrote, read);
    if place < wrote.len() {
        return Err(SlotFault::Apart {
            at: at + place as u32,
            wrote: wrote[place],
            read: read[place],
        });
    }
    Ok(())
}

/// Where a slot is written to that its byte at 0 is not the seal and was not written over another
/// byte than the seal.
fn place_to_blank(first: u8) -> u32
    ensures { result ≡ (if first == seal then 0 else 1) }
{
    if first == SEAL { 0 } else { 1 }
}

/// Makes a slot unsealed, so that it lasts: a look and two moves.
pub fn unseal<F: Flash>(flash: &mut F, region: u32) -> Result<(), SlotFault>
    requires there { HasRegion region (F.state flash.old) }
    requires room { SLOT_LEAD ≤ length ((F.state flash.old).contents.bytes region) }
    requires begun { MayWrite region (F.state flash.old) }
    requires stable { (F.state flash.old).contents.told ≡ true
        → IsRegionStable region (F.state flash.old) }
    ensures ok { OnOk result (IsUnderway 0 (region_at (F.state flash.new).contents region)) }
    ensures images { KeepsSlots slot_of (region_at (F.state flash.old).contents region)
        (region_at (F.state flash.new).contents region) }
    ensures refused { FailsAlone result }
    ensures frame { ChangesSlot region (F.state flash.old) (F.state flash.new) }
    ensures counts { Spends 2 1 result (F.state flash.old) (F.state flash.new) }
    ensures cause { SlotCause (F.state flash.old) (F.state flash.new) result }
{
    let mut first = [0];
    flash.read(region, SEAL_AT, &mut first)?;
    flash.write(region, place_to_blank(first[0]), &[BLANK])?;
    flash.sync(region)?;
    Ok(())
}

/// Writes bytes behind the place of the seal of an unsealed slot. A move.
pub fn put<F: Flash>(flash: &mut F, region: u32, at: u32, bytes: &[u8]) -> Result<(), SlotFault>
    requires there { HasRegion region (F.state flash.old) }
    requires within { IsWithin region at (length bytes.now) (F.state flash.old) }
    requires begun { MayWrite region (F.state flash.old) }
    requires behind { 1 ≤ at }
    requires underway { IsUnderway 0 (region_at (F.state flash.old).contents region) }
    ensures ok { OnOk result (RegionReads region at bytes.now (F.state flash.new)) }
    ensures underway { IsUnderway 0 (region_at (F.state flash.new).contents region) }
    ensures images { KeepsSlots slot_of (region_at (F.state flash.old).contents region)
        (region_at (F.state flash.new).contents region) }
    ensures writes { RegionWrites region at (length bytes.now) (F.state flash.old)
        (F.state flash.new) }
    ensures refused { FailsAlone result }
    ensures frame { ChangesSlot region (F.state flash.old) (F.state flash.new) }
    ensures counts { Spends 1 0 result (F.state flash.old) (F.state flash.new) }
    ensures cause { SlotCause (F.state flash.old) (F.state flash.new) result }
{
    flash.write(region, at, bytes)?;
    Ok(())
}

/// Writes head and section from place 1 on, makes all that was written last, and reads them back: two
/// moves and a look.
pub fn put_front<F: Flash>(flash: &mut F, region: u32, front: &[u8]) -> Result<(), SlotFault>
    requires there { HasRegion region (F.state flash.old) }
    requires room { SLOT_LEAD ≤ length ((F.state flash.old).contents.bytes region) }
    requires small { length ((F.state flash.old).contents.bytes region) ≤ u32.MAX }
    requires begun { MayWrite region (F.state flash.old) }
    requires lead { FRONT_AT + length front.now ≤ SLOT_LEAD }
    requires underway { IsUnderway 0 (region_at (F.state flash.old).contents region) }
    ensures ok { OnOk result (HasFront front.now (region_at (F.state flash.old).contents region)
        (region_at (F.state flash.new).contents region)) }
    ensures images { KeepsSlots slot_of (region_at (F.state flash.old).contents region)
        (region_at (F.state flash.new).contents region) }
    ensures refused { ReadsBack (F.state flash.old).contents.told FRONT_AT front.now result }
    ensures frame { ChangesSlot region (F.state flash.old) (F.state flash.new) }
    ensures counts { Spends 2 1 result (F.state flash.old) (F.state flash.new) }
    ensures cause { SlotCause (F.state flash.old) (F.state flash.new) result }
{
    put(flash, region, FRONT_AT, front)?;
    flash.sync(region)?;
    read_back(flash, region, FRONT_AT, front)?;
    Ok(())
}

/// Seals a slot of which all else stands and lasts. Two moves.
pub fn put_seal<F: Flash>(flash: &mut F, region: u32) -> Result<(), SlotFault>
    requires there { HasRegion region (F.state flash.old) }
    requires room { SLOT_LEAD ≤ length ((F.state flash.old).contents.bytes region) }
    requires begun { MayWrite region (F.state flash.old) }
    requires stable { IsRegionStable region (F.state flash.old) }
    ensures durable { OnOk result ((s : HeldSlot) → ((F.state flash.old).contents.told ≡ true
        → IsReceived s ((F.state flash.old).contents.bytes region))
        → IsDurable slot_of s (region_at (F.state flash.new).contents region)) }
    ensures images { (s : HeldSlot) → ((F.state flash.old).contents.told ≡ true
        → IsReceived s ((F.state flash.old).contents.bytes region))
        → KeepsOrSeals slot_of s (region_at (F.state flash.old).contents region)
        (region_at (F.state flash.new).contents region) }
    ensures refused { FailsAlone result }
    ensures frame { ChangesSlot region (F.state flash.old) (F.state flash.new) }
    ensures counts { Spends 2 0 result (F.state flash.old) (F.state flash.new) }
    ensures cause { SlotCause (F.state flash.old) (F.state flash.new) result }
{
    flash.write(region, SEAL_AT, &[SEAL])?;
    flash.sync(region)?;
    Ok(())
}
