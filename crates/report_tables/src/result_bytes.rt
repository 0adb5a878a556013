//! The bytes of a result variable.

ghost use Rattle.std.specs.Prelude.{◌≡◌, ◌≤◌, ◌<◌, ◌+◌, ◌^◌, ◌++◌, length, drop, IfOk, OnOk, IsTrue};
ghost use Rattle.cu_base.specs.Refusals.{AnswersBy, first_refusal};
ghost use Rattle.report_tables.specs.Esrt.{told_fault};
ghost use Rattle.report_tables.specs.Results.{is_writable, fmp_bytes, fmp_fields, fmp_rows};
ghost use Rattle.report_tables.specs.Results.{fmp_field_rows};
ghost use Rattle.report_tables.specs.Results.{result_bytes, result_fields, result_rows};
ghost use Rattle.report_tables.specs.Results.{result_size};
ghost use Rattle.cu_base.specs.Times.{time_at_front};

use crate::result::{FMP_RESULT_BYTES, FMP_RESULT_VERSION, RESULT_HEADER_BYTES};
use crate::units::{put_units, read_text_at};
use crate::{FmpResult, ReportFault, ResultVar};
use cu_base::{
    Blob, EfiStatus, EfiTime, NoMemory, guid_at, put_u16, put_u32, put_u64, u16_at, u32_at, u64_at,
};
use std::alloc::Global;

/// The place of UpdateImageTypeId.
const TYPE_ID_AT: usize = 52;

/// A text of so many bytes has no layout in a result.
const TOO_LONG: usize = 0x8000_0000;

/// A result of so many bytes has no layout.
const TOO_LARGE: usize = 0x1_0000_0000;

impl ResultVar {
    /// Whether the result has a layout: it takes fewer than 2^32 bytes.
    pub fn is_writable(&self) -> bool
        ensures value { result ≡ is_writable self.now }
    {
        match &self.fmp {
            None => true,
            Some(fmp) => {
                let file = fmp.file.as_str().len();
                let target = fmp.target.as_str().len();
                let type_id: &[u8] = &fmp.type_id.bytes;
                if file.max(target) >= TOO_LONG {
                    return false;
                }
                TYPE_ID_AT + type_id.len() + 2 * (file + target + 2) < TOO_LARGE
            }
        }
    }

    /// The bytes of the result, all numbers little-endian. Reserved is 0.
    pub fn write(&self, alloc: Global) -> Result<Blob, NoMemory>
        requires writable { IsTrue (is_writable self.now) }
        ensures value { IfOk result (λ blob. blob ≡ result_bytes self.now) }
    {
        let size = self.size();
        let mut out = Blob::new(alloc);
        out.reserve(size as usize)?;
        put_u32(&mut out, size)?;
        put_u32(&mut out, 0)?;
        out.push_slice(&self.guid.bytes)?;
        out.push_slice(&self.time.write())?;
        put_u64(&mut out, self.status.code)?;
        put_fmp(&mut out, &self.fmp)?;
        Ok(out)
    }

    /// How many bytes the result takes.
    fn size(&self) -> u32
        requires writable { IsTrue (is_writable self.now) }
        ensures value { result ≡ result_size self.now }
    {
        match &self.fmp {
            None => RESULT_HEADER_BYTES as u32,
            Some(fmp) => {
                let units = fmp.file.as_str().len() + fmp.target.as_str().len() + 2;
                let type_id: &[u8] = &fmp.type_id.bytes;
                (TYPE_ID_AT + type_id.len() + 2 * units) as u32
            }
        }
    }

    /// The result of these bytes. Reserved is not looked at. It is refused as Short below 48 bytes,
    /// then as BadSize where VariableTotalSize is not the length. Where bytes stand behind the
    /// header it is refused as Short below 68 bytes, as BadVersion where Version is not 1, then for
    /// each text as NoTerminator where no zero ends it and as NotAscii where a unit is above 0x7F,
    /// and as BadSize where bytes stand behind the second text.
    pub fn read(alloc: Global, bytes: &[u8]) -> Result<ResultVar, ReportFault>
        ensures value { IfOk result (λ v. v ≡ result_fields bytes.now) }
        ensures refused { AnswersBy told_fault result (first_refusal (result_rows bytes.now)) }
    {
        if bytes.len() < RESULT_HEADER_BYTES {
            return Err(ReportFault::Short);
        }
        if u32_at(bytes, 0) as usize != bytes.len() {
            return Err(ReportFault::BadSize);
        }
        let fmp = if bytes.len() == RESULT_HEADER_BYTES {
            None
        } else {
            Some(read_fmp(alloc, bytes)?)
        };
        Ok(ResultVar {
            guid: guid_at(bytes, 8),
            time: time_at(bytes, 24),
            status: EfiStatus {
                code: u64_at(bytes, 40),
            },
            fmp,
        })
    }
}

/// Appends the part on a payload.
fn put_fmp(out: &mut Blob, fmp: &Option<FmpResult>) -> Result<(), NoMemory>
    ensures ok { OnOk result (out.new ≡ out.old ++ fmp_bytes fmp.now) }
{
    if let Some(fmp) = fmp {
        put_u16(out, FMP_RESULT_VERSION)?;
        out.push_slice(&[fmp.payload, fmp.index])?;
        out.push_slice(&fmp.type_id.bytes)?;
        put_units(out, fmp.file.as_str())?;
        put_units(out, fmp.target.as_str())?;
    }
    Ok(())
}

/// The part on a payload of a result.
fn read_fmp(alloc: Global, bytes: &[u8]) -> Result<FmpResult, ReportFault>
    ensures value { IfOk result (λ p. p ≡ fmp_fields bytes.now) }
    ensures refused { AnswersBy told_fault result (first_refusal (fmp_rows bytes.now)) }
{
    check_fmp_fields(bytes)?;
    let file = read_text_at(alloc, bytes, FMP_RESULT_BYTES)?;
    let target_at = FMP_RESULT_BYTES + 2 * file.as_str().len() + 2;
    let target = read_text_at(alloc, bytes, target_at)?;
    if bytes.len() != target_at + 2 * target.as_str().len() + 2 {
        return Err(ReportFault::BadSize);
    }
    Ok(FmpResult {
        payload: bytes[50],
        index: bytes[51],
        type_id: guid_at(bytes, TYPE_ID_AT),
        file,
        target,
    })
}

/// The refusal of a part on a payload by its fields.
fn check_fmp_fields(bytes: &[u8]) -> Result<(), ReportFault>
    ensures refused { AnswersBy told_fault result (first_refusal (fmp_field_rows bytes.now)) }
    ensures size { OnOk result (68 ≤ length bytes.now) }
{
    if bytes.len() < FMP_RESULT_BYTES {
        return Err(ReportFault::Short);
    }
    if u16_at(bytes, 48) != FMP_RESULT_VERSION {
        return Err(ReportFault::BadVersion);
    }
    Ok(())
}

/// The moment in the 16 bytes at a place.
fn time_at(bytes: &[u8], at: usize) -> EfiTime
    requires within { at + 16 ≤ length bytes.now }
    ensures value { result ≡ time_at_front (drop at bytes.now) }
{
    match EfiTime::read(&bytes[at..]) {
        Some(time) => time,
        None => unreachable!(),
    }
}
