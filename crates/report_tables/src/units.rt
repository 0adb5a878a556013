//! Texts of CHAR16.

ghost use Rattle.std.specs.Prelude.{◌≡◌, ◌≤◌, ◌+◌, ◌*◌, ◌++◌, nat_le, length, drop, option_map, Some};
ghost use Rattle.std.specs.Prelude.{IsTrue, IfOk, OnOk};
ghost use Rattle.std.specs.List.{list_all};
ghost use Rattle.cu_base.specs.Refusals.{AnswersBy, first_refusal};
ghost use Rattle.report_tables.specs.Esrt.{told_fault};
ghost use Rattle.report_tables.specs.Units.{unit_bytes, units_at_front, text_at_front, text_rows};

use crate::ReportFault;
use cu_base::{Blob, NoMemory, Text, u16_at};
use std::alloc::Global;

/// The bytes of a unit.
const UNIT_BYTES: usize = 2;

/// Appends an ASCII text in units of 2 bytes and the zero behind it.
pub fn put_units(out: &mut Blob, text: &str) -> Result<(), NoMemory>
    ensures ok { OnOk result (out.new ≡ out.old ++ unit_bytes text.now) }
{
    let bytes = text.as_bytes();
    for byte in bytes {
        out.push_slice(&[*byte, 0])?;
    }
    out.push_slice(&[0, 0])?;
    Ok(())
}

/// The text at a place. It takes its units and the zero behind them.
pub fn read_text_at(alloc: Global, bytes: &[u8], at: usize) -> Result<Text, ReportFault>
    requires within { at ≤ length bytes.now }
    ensures value { IfOk result (λ text. text ≡ text_at_front (drop at bytes.now)) }
    ensures size { IfOk result (λ text. at + 2 * length text + 2 ≤ length bytes.now) }
    ensures refused { AnswersBy told_fault result (first_refusal (text_rows (drop at bytes.now))) }
{
    read_text(alloc, &bytes[at..])
}

/// The text at the front of bytes. It is refused as NoTerminator where the bytes end before a zero,
/// then as NotAscii where a unit is above 0x7F.
fn read_text(alloc: Global, bytes: &[u8]) -> Result<Text, ReportFault>
    ensures value { IfOk result (λ text. text ≡ text_at_front bytes.now) }
    ensures size { IfOk result (λ text. 2 * length text + 2 ≤ length bytes.now) }
    ensures refused { AnswersBy told_fault result (first_refusal (text_rows bytes.now)) }
{
    let Some(count) = units_before_zero(bytes) else {
        return Err(ReportFault::NoTerminator);
    };
    if !are_ascii(bytes, count) {
        return Err(ReportFault::NotAscii);
    }
    Ok(ascii_text(alloc, bytes, count)?)
}

/// How many units stand before the first zero. None where the bytes end before one.
fn units_before_zero(bytes: &[u8]) -> Option<usize>
    ensures value { result ≡ option_map length (units_at_front bytes.now) }
{
    for k in 0..bytes.len() / UNIT_BYTES {
        if u16_at(bytes, UNIT_BYTES * k) == 0 {
            return Some(k);
        }
    }
    None
}

/// Whether each of these units is at most 0x7F.
fn are_ascii(bytes: &[u8], count: usize) -> bool
    requires ended { option_map length (units_at_front bytes.now) ≡ Some count }
    ensures value { result ≡ list_all (λ unit. nat_le unit 0x7F) (text_at_front bytes.now) }
{
    for k in 0..count {
        if u16_at(bytes, UNIT_BYTES * k) > 0x7F {
            return false;
        }
    }
    true
}

/// The text of these units.
fn ascii_text(alloc: Global, bytes: &[u8], count: usize) -> Result<Text, NoMemory>
    requires ended { option_map length (units_at_front bytes.now) ≡ Some count }
    requires ascii { IsTrue (list_all (λ unit. nat_le unit 0x7F) (text_at_front bytes.now)) }
    ensures value { IfOk result (λ text. text ≡ text_at_front bytes.now) }
{
    let mut ascii = Blob::new(alloc);
    ascii.reserve(count)?;
    for k in 0..count {
        ascii.push_slice(&[bytes[UNIT_BYTES * k]])?;
    }
    match str::from_utf8(ascii.as_slice()) {
        Ok(text) => Text::from_str(alloc, text),
        Err(_) => unreachable!(),
    }
}
