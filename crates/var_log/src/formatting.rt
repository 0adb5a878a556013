//! A flash without a log gets an empty one.

ghost use Rattle.std.specs.Prelude.{◌≡◌, ◌+◌, ◌≤◌, true, OnOk};
ghost use Rattle.bench_model.specs.Bench.{FlashCause, IsRegionStable};
ghost use Rattle.cu_base.specs.Causes.{HasCauseOf};
ghost use Rattle.var_log.specs.Counts.{raised};
ghost use Rattle.var_log.specs.Logs.{HasBanks, IsUnheaded, IsEmptyOrNone, IsEmptyLog, ChangesBanks};
ghost use Rattle.var_log.specs.Logs.{IsDoneOrFlash};

use crate::moving::{open_behind, shut};
use crate::{LogFault, VarLog};
use bench_model::Flash;
use cu_base::Failed;

/// The header of generation 1 behind its gate, and a closed gate where the first record would
/// stand.
const EMPTY: [u8; 16] = [b'C', b'U', b'V', 2, 0, 0, 0, 1, 0, 0, 0, 0, 0, 0, 0, 0xFF];

impl VarLog {
    /// Makes bank 0 an empty log of generation 1, after bank 1 was closed. For a flash without a
    /// log.
    pub fn format<F: Flash>(flash: &mut F) -> Result<(), LogFault>
        requires banks { HasBanks (F.state flash.old) }
        ensures images { ((F.state flash.old).contents.told ≡ true → IsUnheaded (F.state flash.old))
            → IsEmptyOrNone (F.state flash.new) }
        ensures durable { OnOk result (IsEmptyLog (F.state flash.new)) }
        ensures first { OnOk result (IsRegionStable 0 (F.state flash.new)) }
        ensures second { OnOk result (IsRegionStable 1 (F.state flash.new)) }
        ensures only { IsDoneOrFlash result }
        ensures frame { ChangesBanks (F.state flash.old) (F.state flash.new) }
        ensures moves { OnOk result ((F.state flash.new).counts.moves
            ≡ raised (F.state flash.old).counts.moves 8) }
        ensures bound { (F.state flash.new).counts.moves ≤ (F.state flash.old).counts.moves + 8 }
        ensures looks { (F.state flash.new).counts.looks ≡ (F.state flash.old).counts.looks }
        ensures cause { HasCauseOf LogFault.Flash (F.state flash.old).counts.flash_faults
            (F.state flash.new).counts.flash_faults result }
    {
        match format_banks(flash) {
            Ok(()) => Ok(()),
            Err(_) => Err(LogFault::Flash),
        }
    }
}

// The moves of a format.
fn format_banks<F: Flash>(flash: &mut F) -> Result<(), Failed>
    requires banks { HasBanks (F.state flash.old) }
    ensures images { ((F.state flash.old).contents.told ≡ true → IsUnheaded (F.state flash.old))
        → IsEmptyOrNone (F.state flash.new) }
    ensures durable { OnOk result (IsEmptyLog (F.state flash.new)) }
    ensures first { OnOk result (IsRegionStable 0 (F.state flash.new)) }
    ensures second { OnOk result (IsRegionStable 1 (F.state flash.new)) }
    ensures frame { ChangesBanks (F.state flash.old) (F.state flash.new) }
    ensures moves { OnOk result ((F.state flash.new).counts.moves
        ≡ raised (F.state flash.old).counts.moves 8) }
    ensures bound { (F.state flash.new).counts.moves ≤ (F.state flash.old).counts.moves + 8 }
    ensures looks { (F.state flash.new).counts.looks ≡ (F.state flash.old).counts.looks }
    ensures cause { FlashCause (F.state flash.old) (F.state flash.new) result }
{
    shut(flash, 1, 0)?;
    shut(flash, 0, 0)?;
    open_behind(flash, 0, 0, &EMPTY)?;
    Ok(())
}
