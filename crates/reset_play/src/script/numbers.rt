//! The numbers and bytes of a script.

ghost use Rattle.std.specs.Prelude.{◌≡◌, ◌≤◌, ◌<◌, ◌+◌, ◌*◌, ◌-◌, ◌^◌, true, min, IfOk, IfSome};
ghost use Rattle.std.specs.Char.{is_ascii_digit};
ghost use Rattle.std.specs.List.{list_all};
ghost use Rattle.reset_play.specs.ScriptWords.{is_decimal, decimal_behind, number_within};
ghost use Rattle.reset_play.specs.ScriptWords.{is_hex_digit, hex_value, hex_number, is_hex_bytes};
ghost use Rattle.reset_play.specs.ScriptWords.{hex_pairs};

use super::limits::MAX_POKE_BYTES;
use cu_base::{Blob, NoMemory};
use std::alloc::Global;

fn has_digits(word: &[u8]) -> bool
    ensures { result ≡ list_all is_ascii_digit word.now }
{
    word.iter().all(|b| b.is_ascii_digit())
}

// Whether a word is decimal digits with no leading zero.
fn is_decimal(word: &[u8]) -> bool
    ensures { result ≡ is_decimal word.now }
{
    1 <= word.len() && (word.len() == 1 || word[0] != b'0') && has_digits(word)
}

// The number of decimal digits, or the greatest of a u32 where it is greater.
fn capped_decimal(digits: &[u8]) -> u32
    ensures { result ≡ min (decimal_behind 0 digits.now) (2 ^ 32 - 1) }
{
    let mut number = 0u32;
    for digit in digits {
        let next = 10 * u64::from(number) + u64::from(digit.saturating_sub(b'0'));
        number = next.min(u64::from(u32::MAX)) as u32;
    }
    number
}

/// The number of a word of decimal digits with no leading zero, where it lies within the limits.
pub(crate) fn number_within(low: u32, high: u32, word: &[u8]) -> Option<u32>
    requires { high < 2 ^ 32 - 1 }
    ensures { result ≡ number_within low high word.now }
{
    if !is_decimal(word) {
        return None;
    }
    let number = capped_decimal(word);
    if low <= number && number <= high {
        Some(number)
    } else {
        None
    }
}

/// Whether a byte is a hexadecimal digit of either case.
pub(crate) fn is_hex_digit(digit: u8) -> bool
    ensures { result ≡ is_hex_digit digit }
{
    matches!(digit, b'0'..=b'9' | b'a'..=b'f' | b'A'..=b'F')
}

/// The value of a hexadecimal digit.
pub(crate) fn hex_value(digit: u8) -> u8
    requires { is_hex_digit digit ≡ true }
    ensures value { result ≡ hex_value digit }
    ensures bound { result < 16 }
{
    match digit {
        b'a'..=b'f' => digit - b'a' + 10,
        b'A'..=b'F' => digit - b'A' + 10,
        _ => digit - b'0',
    }
}

/// The number of a word of hexadecimal digits, at least `least` and at most `most` of them.
pub(crate) fn hex_number(least: usize, most: usize, word: &[u8]) -> Option<u64>
    requires { most ≤ 16 }
    ensures value { result ≡ hex_number least most word.now }
    ensures bound { IfSome result (λ n. n < 16 ^ most) }
{
    if word.len() < least || word.len() > most {
        return None;
    }
    let mut number = 0u64;
    for digit in word {
        if !is_hex_digit(*digit) {
            return None;
        }
        number = 16 * number + u64::from(hex_value(*digit));
    }
    Some(number)
}

fn has_hex_digits(word: &[u8]) -> bool
    ensures { result ≡ list_all is_hex_digit word.now }
{
    word.iter().all(|digit| is_hex_digit(*digit))
}

/// Whether a word is an even number of hexadecimal digits, for 1 to 4,096 bytes.
pub(crate) fn is_hex_bytes(word: &[u8]) -> bool
    ensures { result ≡ is_hex_bytes word.now }
{
    word.len() % 2 == 0
        && 2 <= word.len()
        && word.len() <= 2 * MAX_POKE_BYTES
        && has_hex_digits(word)
}

/// The bytes of hexadecimal digits, two of them for each byte.
pub(crate) fn bytes_of_hex(alloc: Global, word: &[u8]) -> Result<Blob, NoMemory>
    requires { is_hex_bytes word.now ≡ true }
    ensures { IfOk result (λ bytes. bytes ≡ hex_pairs word.now) }
{
    let mut bytes = Blob::new(alloc);
    bytes.reserve(word.len() / 2)?;
    for at in 0..word.len() / 2 {
        let byte = hex_byte(word[2 * at], word[2 * at + 1]);
        bytes.push_slice(&[byte])?;
    }
    Ok(bytes)
}

// The byte of two hexadecimal digits.
fn hex_byte(high: u8, low: u8) -> u8
    requires high { is_hex_digit high ≡ true }
    requires low { is_hex_digit low ≡ true }
    ensures { result ≡ 16 * hex_value high + hex_value low }
{
    16 * hex_value(high) + hex_value(low)
}
