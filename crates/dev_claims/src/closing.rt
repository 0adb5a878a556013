//! The batch that closes a unit which starts no SetImage.

ghost use Rattle.std.specs.Prelude.{◌≡◌, ◌≤◌, ◌++◌, ℕ, IfOk, OnOk, true, filter, length, nat_lt};
ghost use Rattle.cu_base.specs.declared.time.EfiTime.{EfiTime};
ghost use Rattle.dev_claims.specs.ClosedBy.{IsLine, element_with};
ghost use Rattle.dev_claims.specs.Places.{AreBefore};
ghost use Rattle.dev_claims.specs.declared.closing.UnitIds.{UnitIds};
ghost use Rattle.dev_claims.specs.Units.{close_changes, device_changes, greatest_changes};
ghost use Rattle.dev_claims.specs.Units.{next_result, progress_changes, result_changes};
ghost use Rattle.dev_claims.specs.Units.{with_units};
ghost use Rattle.bench_model.specs.declared.limits.TheConstants.{MAX_DEVICE_NAME};
ghost use Rattle.report_tables.specs.Results.{fmp_bytes};
ghost use Rattle.stored_vars.specs.Records.{is_key_name};
ghost use Rattle.reference_machine.specs.Results.{device_name, fmp_part, result_at};
ghost use Rattle.stored_vars.specs.Holds.{bytes_in};
ghost use Rattle.stored_vars.specs.Progress.{units_among};
ghost use Rattle.stored_vars.specs.declared.variable.StoredVar.TheVariants.{CapsuleMax};
ghost use Rattle.var_store.specs.Stores.{variables_of};

use crate::ending::state_with;
use crate::pruning::{progress_kept, set_of};
use crate::reading::{bytes_of, dev_state};
use bench_model::Board;
use cu_base::{Blob, EfiTime, Guid, Items, NoMemory, Text, guid_at};
use reference_machine::{End, Kind, UnitKey, UnitLine};
use report_tables::{FmpResult, ResultVar, next_number};
use std::alloc::Global;
use stored_vars::{
    DevRec, ProgressEntries, ProgressEntry, StoredVar, progress_bytes, result_name_bytes,
    stored_result_number,
};
use var_log::Batch;
use var_store::VarStore;

/// What the result of a unit says of its capsule and of its item: the capsule's GUID, zeros where
/// nothing could be read, and type id and index of the image header, zeros where there is no item.
#[derive(Clone, Copy)]
pub struct UnitIds {
    pub capsule: Guid,
    /// UpdateImageTypeId.
    pub type_id: Guid,
    /// UpdateImageIndex.
    pub index: u8,
}

/// The batch that closes the unit of a line, with the floor of its image, at a moment.
pub(crate) fn close_batch(
    alloc: Global,
    board: &Board,
    now: &EfiTime,
    store: &VarStore,
    line: &UnitLine,
    floor: u32,
    ids: &UnitIds,
) -> Result<Batch, NoMemory>
    requires { IsLine line.now }
    ensures value { IfOk result (λ batch. batch.items ≡ close_changes board.now
        (variables_of store.now) (element_with line.now floor ids.now now.now)) }
    ensures places { IfOk result (λ batch. AreBefore 5 batch.items) }
    ensures few { IfOk result (λ batch. length batch.items ≤ 8) }
{
    let mut batch = Batch::new(alloc);
    let number = next_result(board, store);
    push_device(alloc, board, store, line, floor, &mut batch)?;
    push_result(alloc, board, now, number, line, ids, &mut batch)?;
    push_greatest(alloc, board, store, &mut batch)?;
    let last = Blob::from_slice(alloc, &result_name_bytes(number))?;
    batch.push(set_of(alloc, StoredVar::CapsuleLast, last)?)?;
    push_progress(alloc, store, &line.key, &mut batch)?;
    Ok(batch)
}

/// The number of the next result.
pub(crate) fn next_result(board: &Board, store: &VarStore) -> u16
    ensures value { result ≡ next_result board.now (variables_of store.now) }
{
    match bytes_of(store, StoredVar::CapsuleLast) {
        Some(bytes) => next_number(stored_result_number(bytes), board.result_max()),
        None => next_number(None, board.result_max()),
    }
}

/// Appends the record of the device on which a unit ended, without a claim, where it was tried.
fn push_device(
    alloc: Global,
    board: &Board,
    store: &VarStore,
    line: &UnitLine,
    floor: u32,
    batch: &mut Batch,
) -> Result<(), NoMemory>
    requires line { IsLine line.now }
    requires before { AreBefore 0 batch.old.items }
    ensures before { OnOk result (AreBefore 1 batch.new.items) }
    ensures ok { (ids : UnitIds) (now : EfiTime) → OnOk result (batch.new.items ≡ batch.old.items
        ++ device_changes board.now (variables_of store.now)
        (element_with line.now floor ids now) line.now.end) }
{
    if let Some(end) = line.end {
        let old = dev_state(store, board, line.key.device);
        let record = DevRec {
            state: state_with(line.version, floor, end, &old),
            claim: None,
        };
        let value = Blob::from_slice(alloc, &record.write())?;
        batch.push(set_of(alloc, StoredVar::Device(line.key.device), value)?)?;
    }
    Ok(())
}

/// Appends the result of a unit under a number.
fn push_result(
    alloc: Global,
    board: &Board,
    now: &EfiTime,
    number: u16,
    line: &UnitLine,
    ids: &UnitIds,
    batch: &mut Batch,
) -> Result<(), NoMemory>
    requires line { IsLine line.now }
    requires before { AreBefore 1 batch.old.items }
    ensures before { OnOk result (AreBefore 2 batch.new.items) }
    ensures ok { (floor : ℕ) → OnOk result (batch.new.items ≡ batch.old.items ++ result_changes
        (result_at board.now number (element_with line.now floor ids.now now.now)
        (element_with line.now floor ids.now now.now).standing)) }
{
    let variable = ResultVar {
        guid: ids.capsule,
        time: *now,
        status: line.status,
        fmp: fmp_part(alloc, board, line, ids)?,
    };
    let value = variable.write(alloc)?;
    batch.push(set_of(alloc, StoredVar::Outcome(number), value)?)?;
    Ok(())
}

/// The part on a payload of the result of a unit: none where no item was looked at.
fn fmp_part(
    alloc: Global,
    board: &Board,
    line: &UnitLine,
    ids: &UnitIds,
) -> Result<Option<FmpResult>, NoMemory>
    requires name { is_key_name line.now.key.name ≡ true }
    ensures value { (floor : ℕ) (now : EfiTime) → IfOk result (λ part. part
        ≡ fmp_part board.now (element_with line.now floor ids.now now) line.now.kind) }
    ensures size { IfOk result (λ part. length (fmp_bytes part) ≤ 400) }
{
    let bytes: &[u8] = &ids.type_id.bytes;
    let target = match line.kind {
        Kind::Try => device_name(board, line.key.device),
        Kind::NoTarget => "",
        Kind::Heal | Kind::Skip | Kind::Bad => return Ok(None),
    };
    Ok(Some(FmpResult {
        payload: line.key.ticket.item,
        index: ids.index,
        type_id: guid_at(bytes, 0),
        file: Text::from_str(alloc, line.key.name.as_str())?,
        target: Text::from_str(alloc, target)?,
    }))
}

/// The name of a device, empty where the board has none of this number.
fn device_name(board: &Board, device: u8) -> &str
    ensures value { result.now ≡ device_name board.now device }
    ensures bound { length result.now ≤ MAX_DEVICE_NAME }
{
    match board.devices().get(device as usize) {
        Some(device) => device.name.as_str(),
        None => "",
    }
}

/// Appends the name of the greatest result, where none is stored.
fn push_greatest(
    alloc: Global,
    board: &Board,
    store: &VarStore,
    batch: &mut Batch,
) -> Result<(), NoMemory>
    requires before { AreBefore 2 batch.old.items }
    ensures before { OnOk result (AreBefore 3 batch.new.items) }
    ensures ok { OnOk result (batch.new.items ≡ batch.old.items ++ greatest_changes board.now
        (bytes_in (variables_of store.now) CapsuleMax)) }
{
    if bytes_of(store, StoredVar::CapsuleMax).is_none() {
        let value = Blob::from_slice(alloc, &result_name_bytes(board.result_max()))?;
        batch.push(set_of(alloc, StoredVar::CapsuleMax, value)?)?;
    }
    Ok(())
}

/// Appends the progress of a file once the unit of a key is spent.
fn push_progress(
    alloc: Global,
    store: &VarStore,
    key: &UnitKey,
    batch: &mut Batch,
) -> Result<(), NoMemory>
    requires before { AreBefore 4 batch.old.items }
    ensures before { OnOk result (AreBefore 5 batch.new.items) }
    ensures ok { OnOk result (batch.new.items ≡ batch.old.items
        ++ progress_changes (variables_of store.now) key.now) }
{
    if key.ticket.route == 1 {
        let entries = progress_kept(alloc, store)?;
        let units = key.unit.saturating_add(1);
        let entries = with_units(alloc, entries.as_slice(), key.ticket.serial, units)?;
        let value = progress_bytes(alloc, entries.as_slice())?;
        batch.push(set_of(alloc, StoredVar::Progress, value)?)?;
    }
    Ok(())
}

/// The entries with one of a serial, whose units are the greater of those that were there and
/// these.
fn with_units(
    alloc: Global,
    entries: &[ProgressEntry],
    serial: u64,
    units: u32,
) -> Result<ProgressEntries, NoMemory>
    ensures { IfOk result (λ made. made.items ≡ with_units entries.now serial units) }
{
    let mut made = below(alloc, entries, serial)?;
    let units = units_among(entries, serial).max(units);
    made.push(ProgressEntry { serial, units })?;
    push_above(entries, serial, &mut made)?;
    Ok(made)
}

/// The entries of lower serials.
fn below(alloc: Global, entries: &[ProgressEntry], serial: u64) -> Result<ProgressEntries, NoMemory>
    ensures { IfOk result
        (λ made. made.items ≡ filter (λ e. nat_lt e.serial serial) entries.now) }
{
    let mut made = Items::new(alloc);
    for entry in entries {
        if entry.serial < serial {
            made.push(*entry)?;
        }
    }
    Ok(made)
}

/// Appends the entries of higher serials.
fn push_above(
    entries: &[ProgressEntry],
    serial: u64,
    made: &mut ProgressEntries,
) -> Result<(), NoMemory>
    ensures { OnOk result (made.new.items
        ≡ made.old.items ++ filter (λ e. nat_lt serial e.serial) entries.now) }
{
    for entry in entries {
        if serial < entry.serial {
            made.push(*entry)?;
        }
    }
    Ok(())
}

/// How many units of a serial entries tell, 0 where none is of it.
fn units_among(entries: &[ProgressEntry], serial: u64) -> u32
    ensures { result ≡ units_among entries.now serial }
{
    match entries.iter().find(|entry| entry.serial == serial) {
        Some(entry) => entry.units,
        None => 0,
    }
}
