ghost use Rattle.std.specs.Prelude.{◌≡◌, ◌+◌, ◌<◌, ◌≤◌, length, IfSome};
ghost use Rattle.std.specs.Option.{SomeIff};

use crate::moment::{has_form, is_in_calendar, moment_shown};
use crate::number::{bytes_of_u16, bytes_of_u32};
use crate::{BaseFault, read_u16, read_u32};

/// TimeZone where none is stated, EFI_UNSPECIFIED_TIMEZONE (UEFI 2.10, 8.3).
pub const UNSPECIFIED_ZONE: i16 = 0x07FF;

/// How many bytes a moment takes.
pub const TIME_BYTES: usize = 16;

/// A moment, EFI_TIME (UEFI 2.10, 8.3). As bytes its fields may hold any numbers.
#[derive(Clone, Copy, Debug, PartialEq, Eq)]
pub struct EfiTime {
    pub year: u16,
    pub month: u8,
    pub day: u8,
    pub hour: u8,
    pub minute: u8,
    pub second: u8,
    pub nanosecond: u32,
    /// Minutes from UTC, or `UNSPECIFIED_ZONE`.
    pub zone: i16,
    pub daylight: u8,
    pub pad1: u8,
    pub pad2: u8,
}

impl EfiTime {
    ghost use Rattle.cu_base.specs.Times.{time_bytes, time_at_front, time_of_text};

    /// The moment that a text of the form `YYYY-MM-DDThh:mm:ss` shows, in no stated time zone: a
    /// year from 1900 to 9999, a day of the Gregorian calendar, hours to 23, minutes and seconds to
    /// 59. `BadTime` for any other text.
    pub fn from_text(text: &str) -> Result<EfiTime, BaseFault>
        ensures value { result ≡ time_of_text text.now }
    {
        EfiTime::from_ascii(text.as_bytes())
    }

    /// The same of the bytes of a text.
    pub fn from_ascii(text: &[u8]) -> Result<EfiTime, BaseFault>
        ensures value { result ≡ time_of_text text.now }
    {
        if !has_form(text) {
            return Err(BaseFault::BadTime);
        }
        match moment_shown(text) {
            Some(time) if is_in_calendar(&time) => Ok(time),
            _ => Err(BaseFault::BadTime),
        }
    }

    /// The 16 bytes: Year, Month, Day, Hour, Minute, Second, Pad1, Nanosecond, TimeZone, Daylight
    /// and Pad2, all little-endian, TimeZone in two's complement.
    pub fn write(&self) -> [u8; 16]
        ensures value { result ≡ time_bytes self.now }
    {
        let [year_low, year_high] = bytes_of_u16(self.year);
        let [nano_0, nano_1, nano_2, nano_3] = bytes_of_u32(self.nanosecond);
        let [zone_low, zone_high] = bytes_of_u16(self.zone.cast_unsigned());
        [
            year_low,
            year_high,
            self.month,
            self.day,
            self.hour,
            self.minute,
            self.second,
            self.pad1,
            nano_0,
            nano_1,
            nano_2,
            nano_3,
            zone_low,
            zone_high,
            self.daylight,
            self.pad2,
        ]
    }

    /// The moment of the first 16 bytes, whatever its fields hold. None exactly where there are
    /// fewer.
    pub fn read(bytes: &[u8]) -> Option<EfiTime>
        ensures value { SomeIff result (16 ≤ length bytes.now) (time_at_front bytes.now) }
    {
        if bytes.len() < TIME_BYTES {
            return None;
        }
        let year = read_u16(bytes)?;
        let nanosecond = read_u32(&bytes[8..])?;
        let zone = read_u16(&bytes[12..])?;
        Some(EfiTime {
            year,
            month: bytes[2],
            day: bytes[3],
            hour: bytes[4],
            minute: bytes[5],
            second: bytes[6],
            nanosecond,
            zone: zone.cast_signed(),
            daylight: bytes[14],
            pad1: bytes[7],
            pad2: bytes[15],
        })
    }
}
