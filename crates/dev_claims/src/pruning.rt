//! The batch that drops the progress of files that are gone.

ghost use Rattle.std.specs.Prelude.{◌≡◌, ◌∷◌, [], IfOk, IsTrue};
ghost use Rattle.dev_claims.specs.Batches.{dropping, entries_of, has_serial, progress_change};
ghost use Rattle.dev_claims.specs.Batches.{prune_changes};
ghost use Rattle.stored_vars.specs.Edits.{delete_of, set_of};
ghost use Rattle.stored_vars.specs.Holds.{progress_of};
ghost use Rattle.stored_vars.specs.Variables.{is_variable};
ghost use Rattle.var_store.specs.Stores.{variables_of};

use crate::reading::bytes_of;
use cu_base::{Blob, Items, NoMemory};
use std::alloc::Global;
use stored_vars::{ProgressEntries, ProgressEntry, StoredVar, progress_bytes, stored_progress};
use var_log::{Batch, Change};
use var_store::VarStore;

/// The batch that drops the progress of all files but those of these serials: it sets `Progress` to
/// the entries that stay, or deletes it where none stays. It is empty where all stay.
pub(crate) fn prune_batch(
    alloc: Global,
    store: &VarStore,
    serials: &[u64],
) -> Result<Batch, NoMemory>
    ensures value { IfOk result
        (λ batch. batch.items ≡ prune_changes (variables_of store.now) serials.now) }
{
    let entries = progress_kept(alloc, store)?;
    let kept = entries_of(alloc, entries.as_slice(), serials)?;
    dropping(alloc, entries.as_slice(), kept.as_slice())
}

/// The batch from entries to those of them that stay.
fn dropping(
    alloc: Global,
    entries: &[ProgressEntry],
    kept: &[ProgressEntry],
) -> Result<Batch, NoMemory>
    ensures { IfOk result (λ batch. batch.items ≡ dropping entries.now kept.now) }
{
    let mut batch = Batch::new(alloc);
    if kept.len() == entries.len() {
        return Ok(batch);
    }
    batch.push(progress_change(alloc, kept)?)?;
    Ok(batch)
}

/// The change that leaves just these entries.
fn progress_change(alloc: Global, kept: &[ProgressEntry]) -> Result<Change, NoMemory>
    ensures { IfOk result (λ change. change ≡ progress_change kept.now) }
{
    if kept.is_empty() {
        return delete_of(alloc, StoredVar::Progress);
    }
    let value = progress_bytes(alloc, kept)?;
    set_of(alloc, StoredVar::Progress, value)
}

/// The change that sets a variable to these bytes.
pub(crate) fn set_of(alloc: Global, variable: StoredVar, value: Blob) -> Result<Change, NoMemory>
    requires { IsTrue (is_variable variable) }
    ensures { IfOk result (λ change. change ≡ set_of variable value) }
{
    Ok(Change::Set {
        name: variable.text(alloc)?,
        guid: variable.guid(),
        attributes: variable.attributes(),
        value,
    })
}

/// The change that deletes a variable.
fn delete_of(alloc: Global, variable: StoredVar) -> Result<Change, NoMemory>
    requires { IsTrue (is_variable variable) }
    ensures { IfOk result (λ change. change ≡ delete_of variable) }
{
    Ok(Change::Delete {
        name: variable.text(alloc)?,
        guid: variable.guid(),
    })
}

/// The progress that is kept.
pub(crate) fn progress_kept(alloc: Global, store: &VarStore) -> Result<ProgressEntries, NoMemory>
    ensures { IfOk result (λ entries. entries.items ≡ progress_of (variables_of store.now)) }
{
    match bytes_of(store, StoredVar::Progress) {
        Some(bytes) => match stored_progress(alloc, bytes)? {
            Some(entries) => Ok(entries),
            None => Ok(Items::new(alloc)),
        },
        None => Ok(Items::new(alloc)),
    }
}

/// The entries of these serials alone.
fn entries_of(
    alloc: Global,
    entries: &[ProgressEntry],
    serials: &[u64],
) -> Result<ProgressEntries, NoMemory>
    ensures { IfOk result (λ kept. kept.items ≡ entries_of entries.now serials.now) }
{
    let mut kept = Items::new(alloc);
    for entry in entries {
        if has_serial(serials, entry.serial) {
            kept.push(*entry)?;
        }
    }
    Ok(kept)
}

/// Whether the serial is one of these.
fn has_serial(serials: &[u64], serial: u64) -> bool
    ensures { result ≡ has_serial serials.now serial }
{
    serials.iter().any(|s| *s == serial)
}
