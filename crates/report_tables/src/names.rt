ghost use Rattle.std.specs.Prelude.{◌≡◌, ◌<◌, true, [], ◌∷◌, ◌++◌, OnOk, IfOk};
ghost use Rattle.std.specs.Fmt.{digit_glyph};
ghost use Rattle.report_tables.specs.Names.{hex_pair, number_behind, result_name};

use cu_base::{NoMemory, Text};
use std::alloc::Global;

/// The number of the result behind the last: 0 where there is no last or it is at least `max`, the
/// number of CapsuleMax, else one more (UEFI 2.10, 8.5.6).
pub fn next_number(last: Option<u16>, max: u16) -> u16
    ensures value { result ≡ number_behind last max }
{
    match last {
        Some(last) if last < max => last + 1,
        _ => 0,
    }
}

/// The name of a result variable: `Capsule` and four upper-case hexadecimal digits (UEFI 2.10,
/// 8.5.6).
pub fn result_name(alloc: Global, number: u16) -> Result<Text, NoMemory>
    ensures value { IfOk result (λ name. name ≡ result_name number) }
{
    let mut name = Text::from_str(alloc, "")?;
    push_result_name(&mut name, number)?;
    Ok(name)
}

/// Appends the name of a result variable. After want of memory a front of it may stand there.
pub fn push_result_name(out: &mut Text, number: u16) -> Result<(), NoMemory>
    ensures ok { OnOk result (out.new ≡ out.old ++ result_name number) }
{
    out.push_str("Capsule")?;
    push_hex_pair(out, number / 256)?;
    push_hex_pair(out, number % 256)?;
    Ok(())
}

/// Appends a byte in two upper-case hexadecimal digits.
fn push_hex_pair(out: &mut Text, byte: u16) -> Result<(), NoMemory>
    requires { byte < 256 }
    ensures { OnOk result (out.new ≡ out.old ++ hex_pair byte) }
{
    out.push_str(hex_digit(byte / 16))?;
    out.push_str(hex_digit(byte % 16))?;
    Ok(())
}

/// An upper-case hexadecimal digit.
fn hex_digit(digit: u16) -> &'static str
    requires { digit < 16 }
    ensures { result.now ≡ digit_glyph true digit ∷ [] }
{
    match digit {
        0 => "0",
        1 => "1",
        2 => "2",
        3 => "3",
        4 => "4",
        5 => "5",
        6 => "6",
        7 => "7",
        8 => "8",
        9 => "9",
        10 => "A",
        11 => "B",
        12 => "C",
        13 => "D",
        14 => "E",
        _ => "F",
    }
}
