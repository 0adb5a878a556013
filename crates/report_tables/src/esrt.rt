ghost use Rattle.std.specs.Prelude.{◌≡◌, ◌+◌, ◌*◌, ◌^◌, ◌<◌, ◌≤◌, ◌++◌, length, flat_map, IfOk, IsOk};
ghost use Rattle.std.specs.Prelude.{OnOk, OnErr, Result, Ok, Err};
ghost use Rattle.cu_base.specs.Refusals.{AnswersBy, first_refusal};
ghost use Rattle.report_tables.specs.Esrt.{entry_bytes, esrt_bytes, esrt_rows, entry_at};
ghost use Rattle.report_tables.specs.Esrt.{entries_in, entry_count, told_fault};

use crate::{EsrtEntries, ReportFault};
use cu_base::{Blob, Guid, Items, NoMemory, guid_at, put_u32, put_u64, u32_at, u64_at};
use std::alloc::Global;

/// The bytes before the entries of a table.
pub const ESRT_HEADER_BYTES: usize = 16;

/// The bytes of an entry.
pub const ENTRY_BYTES: usize = 40;

/// FwResourceVersion of a table.
pub const ESRT_VERSION: u64 = 1;

/// The place of FwResourceCount.
const COUNT_AT: usize = 0;

/// The place of FwResourceCountMax.
const COUNT_MAX_AT: usize = 4;

/// The place of FwResourceVersion.
const VERSION_AT: usize = 8;

/// An entry of the EFI System Resource Table, EFI_SYSTEM_RESOURCE_ENTRY (UEFI 2.10, 23.4).
#[derive(Clone, Copy, Debug, PartialEq, Eq)]
pub struct EsrtEntry {
    /// FwClass, the UpdateImageTypeId of its images.
    pub class: Guid,
    /// FwType: 0 unknown, 1 system firmware, 2 device firmware, 3 UEFI driver.
    pub fw_type: u32,
    /// FwVersion.
    pub version: u32,
    /// LowestSupportedFwVersion.
    pub lowest: u32,
    /// CapsuleFlags.
    pub flags: u32,
    /// LastAttemptVersion.
    pub last_version: u32,
    /// LastAttemptStatus.
    pub last_status: u32,
}

/// An EFI System Resource Table, EFI_SYSTEM_RESOURCE_TABLE (UEFI 2.10, 23.4). It may hold as many
/// entries as it does.
#[derive(Drop)]
pub struct Esrt {
    pub entries: EsrtEntries,
}

impl Esrt {
    /// The bytes of the table, all numbers little-endian.
    pub fn write(&self, alloc: Global) -> Result<Blob, NoMemory>
        requires count { length self.now.entries.items < 2 ^ 32 }
        ensures value { IfOk result (λ blob. blob ≡ esrt_bytes self.now.entries.items) }
    {
        let entries = self.entries.as_slice();
        let count = entries.len() as u32;
        let mut out = Blob::new(alloc);
        out.reserve(ESRT_HEADER_BYTES + ENTRY_BYTES * entries.len())?;
        put_u32(&mut out, count)?;
        put_u32(&mut out, count)?;
        put_u64(&mut out, ESRT_VERSION)?;
        put_entries(&mut out, entries)?;
        Ok(out)
    }

    /// The table of these bytes. It is refused as Short below 16 bytes, then as BadCount where
    /// FwResourceCount is not FwResourceCountMax, then as BadVersion where FwResourceVersion is not
    /// 1, then as BadSize where the length is not 16 and 40 for each entry.
    pub fn read(alloc: Global, bytes: &[u8]) -> Result<Esrt, ReportFault>
        ensures value { IfOk result (λ esrt. esrt.entries.items ≡ entries_in bytes.now) }
        ensures refused { AnswersBy told_fault result (first_refusal (esrt_rows bytes.now)) }
    {
        check_table(bytes)?;
        let entries = read_entries(alloc, bytes)?;
        Ok(Esrt { entries })
    }
}

/// The refusal of bytes that are no table.
fn check_table(bytes: &[u8]) -> Result<(), ReportFault>
    ensures refused { AnswersBy told_fault result (first_refusal (esrt_rows bytes.now)) }
    ensures size { OnOk result (length bytes.now ≡ 16 + 40 * entry_count bytes.now) }
{
    if bytes.len() < ESRT_HEADER_BYTES {
        return Err(ReportFault::Short);
    }
    let count = u32_at(bytes, COUNT_AT);
    if count != u32_at(bytes, COUNT_MAX_AT) {
        return Err(ReportFault::BadCount);
    }
    if u64_at(bytes, VERSION_AT) != ESRT_VERSION {
        return Err(ReportFault::BadVersion);
    }
    if bytes.len() as u64 != 16 + 40 * u64::from(count) {
        return Err(ReportFault::BadSize);
    }
    Ok(())
}

/// The entries of a table that is not refused.
fn read_entries(alloc: Global, bytes: &[u8]) -> Result<EsrtEntries, NoMemory>
    requires size { length bytes.now ≡ 16 + 40 * entry_count bytes.now }
    ensures value { IfOk result (λ entries. entries.items ≡ entries_in bytes.now) }
{
    let count = u32_at(bytes, COUNT_AT) as usize;
    let mut entries = Items::new(alloc);
    entries.reserve(count)?;
    for k in 0..count {
        entries.push(read_entry(bytes, ESRT_HEADER_BYTES + ENTRY_BYTES * k))?;
    }
    Ok(entries)
}

/// The entry whose fields stand from a place on.
fn read_entry(bytes: &[u8], at: usize) -> EsrtEntry
    requires within { at + 40 ≤ length bytes.now }
    ensures value { result ≡ entry_at bytes.now at }
{
    EsrtEntry {
        class: guid_at(bytes, at),
        fw_type: u32_at(bytes, at + 16),
        version: u32_at(bytes, at + 20),
        lowest: u32_at(bytes, at + 24),
        flags: u32_at(bytes, at + 28),
        last_version: u32_at(bytes, at + 32),
        last_status: u32_at(bytes, at + 36),
    }
}

/// Appends the layouts of entries.
fn put_entries(out: &mut Blob, entries: &[EsrtEntry]) -> Result<(), NoMemory>
    ensures ok { OnOk result (out.new ≡ out.old ++ flat_map entry_bytes entries.now) }
{
    for entry in entries {
        put_entry(out, entry)?;
    }
    Ok(())
}

/// Appends the layout of an entry.
fn put_entry(out: &mut Blob, entry: &EsrtEntry) -> Result<(), NoMemory>
    ensures ok { OnOk result (out.new ≡ out.old ++ entry_bytes entry.now) }
{
    out.push_slice(&entry.class.bytes)?;
    put_u32(out, entry.fw_type)?;
    put_u32(out, entry.version)?;
    put_u32(out, entry.lowest)?;
    put_u32(out, entry.flags)?;
    put_u32(out, entry.last_version)?;
    put_u32(out, entry.last_status)?;
    Ok(())
}
