//! How many units of each file are spent.

ghost use Rattle.std.specs.Prelude.{◌≡◌, ◌+◌, ◌*◌, ◌/◌, ◌≤◌, ◌++◌, IfOk, OnOk, length, option_map};
ghost use Rattle.stored_vars.specs.Progress.{entries_at, entry_at, entry_bytes, is_progress};
ghost use Rattle.stored_vars.specs.Progress.{are_rising, progress_bytes, progress_in, units_among};
ghost use Rattle.stored_vars.specs.Progress.{units_in};

use cu_base::{Blob, Items, NoMemory, put_u32, put_u64, u32_at, u64_at};
use std::alloc::Global;

/// The bytes of an entry.
pub const PROGRESS_ENTRY_BYTES: usize = 12;

/// The units of a file that are spent.
#[derive(Clone, Copy, Debug, PartialEq, Eq)]
pub struct ProgressEntry {
    /// The serial of the file.
    pub serial: u64,
    /// How many units of it are spent.
    pub units: u32,
}

/// The units of several files.
pub type ProgressEntries = Items<ProgressEntry>;

/// The spelling of entries.
pub fn progress_bytes(alloc: Global, entries: &[ProgressEntry]) -> Result<Blob, NoMemory>
    ensures value { IfOk result (λ blob. blob ≡ progress_bytes entries.now) }
{
    let mut out = Blob::new(alloc);
    for entry in entries {
        put_entry(&mut out, entry)?;
    }
    Ok(out)
}

/// The entries that these bytes spell, and None exactly where they spell none: serials rise
/// strictly.
pub fn stored_progress(alloc: Global, bytes: &[u8]) -> Result<Option<ProgressEntries>, NoMemory>
    ensures value { IfOk result (λ entries. option_map (λ e. e.items) entries ≡ progress_in bytes.now) }
{
    if !is_progress(bytes) {
        return Ok(None);
    }
    Ok(Some(entries_at(alloc, bytes)?))
}

/// How many units of a file are spent by these bytes, 0 where they spell no entry of it. It takes
/// no memory.
pub fn stored_units(bytes: &[u8], serial: u64) -> u32
    ensures value { result ≡ units_in bytes.now serial }
{
    if !is_progress(bytes) {
        return 0;
    }
    units_among(bytes, serial)
}

/// Whether these bytes spell entries with strictly rising serials.
fn is_progress(bytes: &[u8]) -> bool
    ensures { result ≡ is_progress bytes.now }
{
    bytes.len() % PROGRESS_ENTRY_BYTES == 0 && are_rising(bytes)
}

/// Whether the serials of the entries rise strictly.
fn are_rising(bytes: &[u8]) -> bool
    ensures { result ≡ are_rising (entries_at bytes.now) }
{
    let count = bytes.len() / PROGRESS_ENTRY_BYTES;
    for k in 0..count.saturating_sub(1) {
        if entry_at(bytes, k).serial >= entry_at(bytes, k + 1).serial {
            return false;
        }
    }
    true
}

/// The units of a file by the entries of these bytes, 0 where none is of it.
fn units_among(bytes: &[u8], serial: u64) -> u32
    ensures { result ≡ units_among (entries_at bytes.now) serial }
{
    let count = bytes.len() / PROGRESS_ENTRY_BYTES;
    for k in 0..count {
        let entry = entry_at(bytes, k);
        if entry.serial == serial {
            return entry.units;
        }
    }
    0
}

/// The entries by their places.
fn entries_at(alloc: Global, bytes: &[u8]) -> Result<ProgressEntries, NoMemory>
    ensures { IfOk result (λ entries. entries.items ≡ entries_at bytes.now) }
{
    let count = bytes.len() / PROGRESS_ENTRY_BYTES;
    let mut entries = Items::new(alloc);
    entries.reserve(count)?;
    for k in 0..count {
        entries.push(entry_at(bytes, k))?;
    }
    Ok(entries)
}

/// The entry of this number by its places.
fn entry_at(bytes: &[u8], k: usize) -> ProgressEntry
    requires { 12 * k + 12 ≤ length bytes.now }
    ensures { result ≡ entry_at bytes.now k }
{
    let at = PROGRESS_ENTRY_BYTES * k;
    ProgressEntry {
        serial: u64_at(bytes, at),
        units: u32_at(bytes, at + 8),
    }
}

/// Appends the spelling of an entry.
fn put_entry(out: &mut Blob, entry: &ProgressEntry) -> Result<(), NoMemory>
    ensures ok { OnOk result (out.new ≡ out.old ++ entry_bytes entry.now) }
{
    put_u64(out, entry.serial)?;
    put_u32(out, entry.units)?;
    Ok(())
}
