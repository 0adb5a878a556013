//! What a boot does before its work.

ghost use Rattle.std.specs.Prelude.{◌≡◌, ◌+◌, true, Some, IfOk, IfErr, OnOk, length};
ghost use Rattle.bench_model.specs.Boards.{IsBoard};
ghost use Rattle.cap_boot.specs.Faults.{HasFlashCause, IsOfOpening, fault_of};
ghost use Rattle.cap_boot.specs.Opening.{AreSynced, SyncsDevices};
ghost use Rattle.cap_boot.specs.Situations.{IsOpen};
ghost use Rattle.cap_boot.specs.Stands.{HasRegions};
ghost use Rattle.var_log.specs.Logs.{ChangesBanks, HasBanks};
ghost use Rattle.var_log.specs.Opens.{KeepsStores, opened_store};
ghost use Rattle.var_store.specs.Stores.{store_value};

use crate::BootFault;
use bench_model::{Board, Flash};
use std::alloc::Global;
use var_log::LogFault;
use var_store::{StoreFault, VarStore};

/// Opens the store.
pub(crate) fn open_store<F: Flash>(alloc: Global, flash: &mut F) -> Result<VarStore, BootFault>
    requires banks { HasBanks (F.state flash.old) }
    ensures value { (F.state flash.old).contents.told ≡ true → IfOk result
        (λ s. opened_store (F.state flash.old).contents.bytes ≡ Some (store_value s)) }
    ensures opened { IfOk result (λ s. IsOpen s (F.state flash.new)) }
    ensures images { KeepsStores (F.state flash.old) (F.state flash.new) }
    ensures refused { IfErr result (IsOfOpening (F.state flash.old)) }
    ensures frame { ChangesBanks (F.state flash.old) (F.state flash.new) }
    ensures cause { HasFlashCause (F.state flash.old) (F.state flash.new) result }
{
    match VarStore::open(alloc, flash) {
        Ok(store) => Ok(store),
        Err(fault) => Err(fault_of(fault)),
    }
}

/// A fault of the store as one of a boot.
pub(crate) fn fault_of(fault: StoreFault) -> BootFault
    ensures value { result ≡ fault_of fault }
{
    match fault {
        StoreFault::Log(LogFault::Flash) => BootFault::Flash,
        StoreFault::Memory => BootFault::Memory,
        _ => BootFault::NoBank,
    }
}

/// Syncs the regions of all devices, in order.
pub(crate) fn sync_devices<F: Flash>(board: &Board, flash: &mut F) -> Result<(), BootFault>
    requires count { (F.state flash.old).contents.regions ≡ 2 + length board.now.devices }
    ensures clean { OnOk result (AreSynced (length board.now.devices) (F.state flash.new)) }
    ensures syncs { SyncsDevices (F.state flash.old) (F.state flash.new) }
    ensures refused { IfErr result (λ fault. fault ≡ BootFault.Flash) }
    ensures cause { HasFlashCause (F.state flash.old) (F.state flash.new) result }
    ensures rule { IsBoard board.now }
{
    let count = board.devices().len();
    for device in 0..count {
        match flash.sync(device as u32 + 2) {
            Ok(()) => {}
            Err(_) => return Err(BootFault::Flash),
        }
    }
    Ok(())
}
