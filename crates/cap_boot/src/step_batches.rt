//! The batches of the steps that close no unit.

ghost use Rattle.std.specs.Prelude.{◌≡◌, ◌<◌, IfOk, IsTrue, option_map};
ghost use Rattle.dev_claims.specs.Batches.{clear_changes, keeps_serial, unstage_changes};
ghost use Rattle.stored_vars.specs.Edits.{delete_of};
ghost use Rattle.stored_vars.specs.Holds.{bytes_in, indications_of};
ghost use Rattle.stored_vars.specs.Variables.{is_fixed, is_variable};
ghost use Rattle.var_store.specs.Stores.{variables_of};

use cu_base::{Blob, NoMemory, bytes_of_u64};
use std::alloc::Global;
use stored_vars::{
    OS_INDICATIONS_FILE_CAPSULE_DELIVERY_SUPPORTED, StoredVar, stored_number, stored_pair,
};
use var_log::{Batch, Change};
use var_store::VarStore;

/// The batch once the capsule files are taken: OsIndications without bit 0x04 (UEFI 2.10, 8.5.4),
/// and no progress.
pub(crate) fn clear_batch(alloc: Global, store: &VarStore) -> Result<Batch, NoMemory>
    ensures { IfOk result (λ batch. batch.items ≡ clear_changes (variables_of store.now)) }
{
    let left = indications(store) & !OS_INDICATIONS_FILE_CAPSULE_DELIVERY_SUPPORTED;
    let variable = StoredVar::OsIndications;
    let mut batch = Batch::new(alloc);
    batch.push(Change::Set {
        name: variable.text(alloc)?,
        guid: variable.guid(),
        attributes: variable.attributes(),
        value: Blob::from_slice(alloc, &bytes_of_u64(left))?,
    })?;
    if bytes_of(store, StoredVar::Progress).is_some() {
        batch.push(delete_of(alloc, StoredVar::Progress)?)?;
    }
    Ok(batch)
}

/// The batch that takes a staged delivery out: it deletes what keeps one of the serial.
#[tactic(auto, using(crate::proofs::Unstagings::one_left, crate::proofs::Unstagings::one_deleted))]
pub(crate) fn unstage_batch(alloc: Global, store: &VarStore, serial: u64) -> Result<Batch, NoMemory>
    ensures { IfOk result
        (λ batch. batch.items ≡ unstage_changes (variables_of store.now) serial) }
{
    let mut batch = Batch::new(alloc);
    for number in 0..8 {
        if keeps_serial(store, serial, number) {
            batch.push(delete_of(alloc, StoredVar::Stage(number))?)?;
        }
    }
    Ok(batch)
}

/// Whether a variable keeps a delivery of the serial.
fn keeps_serial(store: &VarStore, serial: u64, number: u8) -> bool
    requires { number < 8 }
    ensures { result ≡ keeps_serial (variables_of store.now) serial number }
{
    match bytes_of(store, StoredVar::Stage(number)) {
        Some(bytes) => match stored_pair(bytes) {
            Some(pair) => pair.serial == serial,
            None => false,
        },
        None => false,
    }
}

/// What the operating system asks for, 0 where it asks for nothing.
fn indications(store: &VarStore) -> u64
    ensures { result ≡ indications_of (variables_of store.now) }
{
    match bytes_of(store, StoredVar::OsIndications) {
        Some(bytes) => stored_number(bytes).unwrap_or(0),
        None => 0,
    }
}

/// The bytes of a variable that is no result, None exactly where it is not there.
fn bytes_of(store: &VarStore, variable: StoredVar) -> Option<&[u8]>
    requires within { IsTrue (is_variable variable) }
    requires fixed { IsTrue (is_fixed variable) }
    ensures { option_map (λ b. b.now) result ≡ bytes_in (variables_of store.now) variable }
{
    match store.get(variable.name(), &variable.guid()) {
        Some(value) => Some(value.bytes),
        None => None,
    }
}

/// The change that deletes a variable.
fn delete_of(alloc: Global, variable: StoredVar) -> Result<Change, NoMemory>
    requires { IsTrue (is_variable variable) }
    ensures { IfOk result (λ change. change ≡ delete_of variable) }
{
    Ok(Change::Delete {
        name: variable.text(alloc)?,
        guid: variable.guid(),
    })
}
