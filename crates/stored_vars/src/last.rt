//! The name of a result in CHAR16, as CapsuleMax and CapsuleLast hold it.

ghost use Rattle.std.specs.Prelude.{◌≡◌, ◌<◌, ◌≤◌, length};
ghost use Rattle.std.specs.Fmt.{digit_glyph};
ghost use Rattle.std.specs.Prelude.{true};
ghost use Rattle.stored_vars.specs.Last.{digit_in, last_bytes, last_in, number_named};

/// The bytes of the name of a result in CHAR16.
pub const RESULT_NAME_BYTES: usize = 22;

/// The most that a number of 4 hexadecimal digits may be.
const MAX_NUMBER: u32 = 0xFFFF;

/// The spelling of the name of a result.
pub fn result_name_bytes(number: u16) -> [u8; RESULT_NAME_BYTES]
    ensures value { result ≡ last_bytes number }
{
    let first = hex_digit(number / 256 / 16);
    let second = hex_digit(number / 256 % 16);
    let third = hex_digit(number % 256 / 16);
    let fourth = hex_digit(number % 256 % 16);
    [
        b'C', 0, b'a', 0, b'p', 0, b's', 0, b'u', 0, b'l', 0, b'e', 0, first, 0, second, 0, third,
        0, fourth, 0,
    ]
}

/// The number of the result whose name these bytes spell, and None exactly where they spell none.
pub fn stored_result_number(bytes: &[u8]) -> Option<u16>
    ensures value { result ≡ last_in bytes.now }
{
    if bytes.len() != RESULT_NAME_BYTES {
        return None;
    }
    let number = number_named(bytes);
    if number > MAX_NUMBER {
        return None;
    }
    let number = number as u16;
    if &result_name_bytes(number)[..] == bytes {
        Some(number)
    } else {
        None
    }
}

/// The number by its digits.
fn number_named(bytes: &[u8]) -> u32
    requires { length bytes.now ≡ RESULT_NAME_BYTES }
    ensures { result ≡ number_named bytes.now }
{
    4096 * digit_in(bytes[14])
        + 256 * digit_in(bytes[16])
        + 16 * digit_in(bytes[18])
        + digit_in(bytes[20])
}

/// What an upper-case hexadecimal digit stands for; of any other byte some number.
fn digit_in(byte: u8) -> u32
    ensures value { result ≡ digit_in byte }
    ensures bound { result ≤ 200 }
{
    if byte >= b'A' {
        u32::from(byte - 55)
    } else {
        u32::from(byte.saturating_sub(48))
    }
}

/// An upper-case hexadecimal digit.
fn hex_digit(digit: u16) -> u8
    requires { digit < 16 }
    ensures { result ≡ digit_glyph true digit }
{
    if digit < 10 {
        48 + digit as u8
    } else {
        55 + digit as u8
    }
}
