//! The moves on one bank, of which an append, a reclaim and a format are made.

ghost use Rattle.std.specs.Prelude.{◌≡◌, ◌+◌, ◌-◌, ◌^◌, ◌≤◌, ◌<◌, length, true, OnOk, List, ℕ};
ghost use Rattle.bench_model.specs.Bench.{HasRegion, IsWithin, ChangesRegion, FlashCause};
ghost use Rattle.bench_model.specs.Bench.{IsRegionStable, region_at};
ghost use Rattle.bench_model.specs.Regions.{AgreesOutside, IsImage};
ghost use Rattle.var_log.specs.Counts.{raised};
ghost use Rattle.var_log.specs.Moves.{IsOpening, IsOpened, IsShut};

use crate::limits::{CLOSED_GATE, OPEN_GATE};
use bench_model::Flash;
use cu_base::Failed;

/// Writes bytes behind a closed gate and then opens the gate, each synced before what follows.
pub(crate) fn open_behind<F: Flash>(
    flash: &mut F,
    bank: u32,
    at: u32,
    bytes: &[u8],
) -> Result<(), Failed>
    requires bank { bank < 2 }
    requires there { HasRegion bank (F.state flash.old) }
    requires within { IsWithin bank at (1 + length bytes.now) (F.state flash.old) }
    requires small { at + length bytes.now < 2 ^ 32 - 1 }
    ensures images { IsRegionStable bank (F.state flash.old) → (image : List ℕ)
        → IsImage (region_at (F.state flash.new).contents bank) image
        → IsOpening at bytes.now ((F.state flash.old).contents.bytes bank) image }
    ensures ok { OnOk result (IsRegionStable bank (F.state flash.new)) }
    ensures done { OnOk result ((F.state flash.new).contents.told ≡ true
        → IsOpened at bytes.now ((F.state flash.old).contents.bytes bank)
        ((F.state flash.new).contents.bytes bank)) }
    ensures long { length ((F.state flash.new).contents.bytes bank)
        ≡ length ((F.state flash.old).contents.bytes bank) }
    ensures frame { ChangesRegion bank (F.state flash.old) (F.state flash.new) }
    ensures moves { OnOk result ((F.state flash.new).counts.moves
        ≡ raised (F.state flash.old).counts.moves 4) }
    ensures bound { (F.state flash.new).counts.moves ≤ (F.state flash.old).counts.moves + 4 }
    ensures looks { (F.state flash.new).counts.looks ≡ (F.state flash.old).counts.looks }
    ensures cause { FlashCause (F.state flash.old) (F.state flash.new) result }
{
    flash.write(bank, at + 1, bytes)?;
    flash.sync(bank)?;
    flash.write(bank, at, &[OPEN_GATE])?;
    flash.sync(bank)?;
    Ok(())
}

/// Closes the gate at a place, and syncs it.
pub(crate) fn shut<F: Flash>(flash: &mut F, bank: u32, at: u32) -> Result<(), Failed>
    requires bank { bank < 2 }
    requires there { HasRegion bank (F.state flash.old) }
    requires within { IsWithin bank at 1 (F.state flash.old) }
    ensures images { IsRegionStable bank (F.state flash.old) → (image : List ℕ)
        → IsImage (region_at (F.state flash.new).contents bank) image
        → AgreesOutside at 1 ((F.state flash.old).contents.bytes bank) image }
    ensures ok { OnOk result (IsRegionStable bank (F.state flash.new)) }
    ensures done { OnOk result ((F.state flash.new).contents.told ≡ true
        → IsShut at ((F.state flash.old).contents.bytes bank)
        ((F.state flash.new).contents.bytes bank)) }
    ensures long { length ((F.state flash.new).contents.bytes bank)
        ≡ length ((F.state flash.old).contents.bytes bank) }
    ensures frame { ChangesRegion bank (F.state flash.old) (F.state flash.new) }
    ensures moves { OnOk result ((F.state flash.new).counts.moves
        ≡ raised (F.state flash.old).counts.moves 2) }
    ensures bound { (F.state flash.new).counts.moves ≤ (F.state flash.old).counts.moves + 2 }
    ensures looks { (F.state flash.new).counts.looks ≡ (F.state flash.old).counts.looks }
    ensures cause { FlashCause (F.state flash.old) (F.state flash.new) result }
{
    flash.write(bank, at, &[CLOSED_GATE])?;
    flash.sync(bank)?;
    Ok(())
}
