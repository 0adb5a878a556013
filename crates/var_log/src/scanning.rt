//! The records of a bank, read one behind another.

ghost use Rattle.std.specs.Prelude.{◌≡◌, ◌<◌, length, map, take, IfOk, ◌==◌};
ghost use Rattle.std.specs.List.{list_all};
ghost use Rattle.var_log.specs.Records.{is_next};
ghost use Rattle.var_log.specs.Scans.{FrontIs, HasRead, RecordIs};
ghost use Rattle.var_log.specs.Seen.{as_change};

use crate::limits::{OPEN_GATE, RECORD_HEAD};
use crate::record::padding_of;
use crate::seen::{Seen, behind, read_changes};
use cu_base::{NoMemory, u32_at, u64_at};
use std::alloc::Global;

/// The records of a bank: their changes in order, the bytes that they take, and the last number.
#[derive(Drop)]
pub(crate) struct Scanned<'a> {
    pub(crate) changes: Vec<Seen<'a>>,
    pub(crate) taken: usize,
    pub(crate) last: Option<u64>,
}

/// The bytes that a record takes, and its number.
#[derive(Clone, Copy)]
pub(crate) struct Front {
    pub(crate) size: usize,
    pub(crate) number: u64,
}

// Whether a number is one above the number before, if there is one.
fn is_next(before: Option<u64>, number: u64) -> bool
    ensures { result ≡ is_next before number }
{
    match before {
        Some(before) => number > before && number - before == 1,
        None => true,
    }
}

// Whether each byte is zero.
fn are_zeros(bytes: &[u8]) -> bool
    ensures { result ≡ list_all (λ b. b == 0) bytes.now }
{
    bytes.iter().all(|b| *b == 0)
}

// The size and number of what stands at the front of bytes, where all tests of a record but that of
// its changes pass.
fn front_of(format: u32, before: Option<u64>, bytes: &[u8]) -> Option<Front>
    ensures value { FrontIs format before bytes.now result }
{
    if bytes.len() < RECORD_HEAD || bytes[0] != OPEN_GATE {
        return None;
    }
    let n = u32_at(bytes, 4) as usize;
    let size = RECORD_HEAD + n + padding_of(format, n);
    let number = u64_at(bytes, 8);
    if size >= bytes.len()
        || !is_next(before, number)
        || !are_zeros(&bytes[RECORD_HEAD + n..size])
    {
        return None;
    }
    Some(Front { size, number })
}

// Reads the record at the front of bytes and appends its changes; where there is none, nothing is
// appended.
fn read_record<'a>(
    format: u32,
    before: Option<u64>,
    bytes: &'a [u8],
    out: &mut Vec<Seen<'a>>,
) -> Result<Option<Front>, NoMemory>
    ensures value { IfOk result (λ r. RecordIs format before bytes.now out.old.items out.new.items r) }
{
    let Some(front) = front_of(format, before, bytes) else {
        return Ok(None);
    };
    let n = u32_at(bytes, 4) as usize;
    let len = out.len();
    if read_changes(&bytes[RECORD_HEAD..RECORD_HEAD + n], out)? {
        return Ok(Some(front));
    }
    out.truncate(len);
    Ok(None)
}

/// Reads the records that bytes begin with.
pub(crate) fn scan<'a>(alloc: Global, format: u32, bytes: &'a [u8]) -> Result<Scanned<'a>, NoMemory>
    requires some { 0 < length bytes.now }
    ensures value { IfOk result (λ s.
        HasRead format bytes.now (map as_change s.changes.items) s.taken s.last) }
{
    let mut changes = Vec::new(alloc);
    let mut taken = 0;
    let mut last = None;
    while let Some(front) = read_record(format, last, behind(bytes, taken), &mut changes)? {
        taken += front.size;
        last = Some(front.number);
    }
    Ok(Scanned {
        changes,
        taken,
        last,
    })
}
