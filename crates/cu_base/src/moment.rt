//! The text of a moment: its form, its numbers and the Gregorian calendar.

ghost use Rattle.std.specs.Prelude.{◌≡◌, ◌+◌, ◌<◌, length, IfSome};
ghost use Rattle.cu_base.specs.Times.{has_form, two_digits, moment_shown, is_leap, days_in};
ghost use Rattle.cu_base.specs.Times.{is_in_calendar};

use crate::EfiTime;
use crate::time::UNSPECIFIED_ZONE;

/// Whether the marks of `YYYY-MM-DDThh:mm:ss` stand at their places in 19 bytes.
pub(crate) fn has_form(text: &[u8]) -> bool
    ensures { result ≡ has_form text.now }
{
    text.len() == 19
        && text[4] == b'-'
        && text[7] == b'-'
        && text[10] == b'T'
        && text[13] == b':'
        && text[16] == b':'
}

// The number that two decimal digits show.
fn two_digits(text: &[u8], at: usize) -> Option<u8>
    requires { at + 1 < length text.now }
    ensures value { result ≡ two_digits text.now at }
    ensures bound { IfSome result (λ n. n < 100) }
{
    let tens = text[at];
    let ones = text[at + 1];
    if tens.is_ascii_digit() && ones.is_ascii_digit() {
        Some(10 * (tens - b'0') + (ones - b'0'))
    } else {
        None
    }
}

/// The moment of the numbers in the form, whatever they are.
pub(crate) fn moment_shown(text: &[u8]) -> Option<EfiTime>
    requires { length text.now ≡ 19 }
    ensures { result ≡ moment_shown text.now }
{
    let century = two_digits(text, 0)?;
    let year = two_digits(text, 2)?;
    let month = two_digits(text, 5)?;
    let day = two_digits(text, 8)?;
    let hour = two_digits(text, 11)?;
    let minute = two_digits(text, 14)?;
    let second = two_digits(text, 17)?;
    Some(EfiTime {
        year: 100 * u16::from(century) + u16::from(year),
        month,
        day,
        hour,
        minute,
        second,
        nanosecond: 0,
        zone: UNSPECIFIED_ZONE,
        daylight: 0,
        pad1: 0,
        pad2: 0,
    })
}

// A year of 366 days.
fn is_leap(year: u16) -> bool
    ensures { result ≡ is_leap year }
{
    year % 4 == 0 && (year % 100 != 0 || year % 400 == 0)
}

fn days_in(year: u16, month: u8) -> u8
    ensures { result ≡ days_in year month }
{
    match month {
        2 => { if is_leap(year) { 29 } else { 28 } }
        4 | 6 | 9 | 11 => 30,
        _ => 31,
    }
}

/// Whether the moment is of the years 1900 to 9999 and of the calendar.
pub(crate) fn is_in_calendar(time: &EfiTime) -> bool
    ensures { result ≡ is_in_calendar time.now }
{
    time.year >= 1900
        && time.year <= 9999
        && time.month >= 1
        && time.month <= 12
        && time.day >= 1
        && time.day <= days_in(time.year, time.month)
        && time.hour <= 23
        && time.minute <= 59
        && time.second <= 59
}
