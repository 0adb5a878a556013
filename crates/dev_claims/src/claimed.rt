//! The claim that is open in a store.

ghost use Rattle.std.specs.Prelude.{◌≡◌, ◌<◌, IfOk};
ghost use Rattle.bench_model.specs.Boards.{IsBoard};
ghost use Rattle.bench_model.specs.declared.limits.TheConstants.{MAX_DEVICES};
ghost use Rattle.dev_claims.specs.Claimed.{ids_on, open_claim_of};
ghost use Rattle.stored_vars.specs.Holds.{claim_of};
ghost use Rattle.var_store.specs.Stores.{variables_of};

use crate::closing::UnitIds;
use crate::reading::{bytes_of, open_claim};
use bench_model::Board;
use cu_base::{Guid, NoMemory};
use fmp_headers::FMP_CAPSULE_GUID;
use std::alloc::Global;
use stored_vars::{Claim, DevRec, StoredVar};
use var_store::VarStore;

/// The claim that is open, None exactly where none is.
pub(crate) fn open_claim_of(
    alloc: Global,
    board: &Board,
    store: &VarStore,
) -> Result<Option<Claim>, NoMemory>
    ensures value { IfOk result
        (λ claim. claim ≡ open_claim_of board.now (variables_of store.now)) }
{
    match open_claim(store, board) {
        Some(device) => claim_of(alloc, store, device),
        None => Ok(None),
    }
}

/// The claim that is open on a device.
fn claim_of(alloc: Global, store: &VarStore, device: u8) -> Result<Option<Claim>, NoMemory>
    requires { device < MAX_DEVICES }
    ensures { IfOk result (λ claim. claim ≡ claim_of (variables_of store.now) device) }
{
    match bytes_of(store, StoredVar::Device(device)) {
        Some(bytes) => match DevRec::read(alloc, device, bytes)? {
            Some(record) => Ok(record.claim),
            None => Ok(None),
        },
        None => Ok(None),
    }
}

/// The GUIDs and the index of an item that is tried on a device.
pub(crate) fn ids_on(board: &Board, device: u8) -> UnitIds
    ensures value { result ≡ ids_on board.now device }
    ensures rule { IsBoard board.now }
{
    match board.devices().get(device as usize) {
        Some(device) => UnitIds {
            capsule: FMP_CAPSULE_GUID,
            type_id: device.type_id,
            index: device.index,
        },
        None => UnitIds {
            capsule: FMP_CAPSULE_GUID,
            type_id: Guid { bytes: [0; 16] },
            index: 0,
        },
    }
}
