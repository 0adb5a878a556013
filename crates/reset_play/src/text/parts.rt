//! The words of a line. Each part but the first has a space before it.

ghost use Rattle.std.specs.Prelude.{◌≡◌, false, ◌∷◌, ◌++◌, decimal, flat_map, OnOk};
ghost use Rattle.std.specs.Fmt.{radix_digits};
ghost use Rattle.cu_base.specs.Guids.{guid_text};
ghost use Rattle.report_tables.specs.Names.{result_name};
ghost use Rattle.reset_play.specs.Texts.{status_text, or_dash};

use cu_base::{EfiStatus, Guid, NoMemory, Text};
use itoa::Buffer;
use report_tables::push_result_name;
use std::alloc::Global;

pub fn push_number(out: &mut Text, n: u64) -> Result<(), NoMemory>
    ensures { OnOk result (out.new ≡ out.old ++ decimal n) }
{
    let mut buffer = Buffer::new();
    out.push_str(buffer.format(n))?;
    Ok(())
}

pub fn push_word_part(out: &mut Text, word: &str) -> Result<(), NoMemory>
    ensures { OnOk result (out.new ≡ out.old ++ 32 ∷ word.now) }
{
    out.push_str(" ")?;
    out.push_str(word)?;
    Ok(())
}

pub fn push_number_part(out: &mut Text, n: u64) -> Result<(), NoMemory>
    ensures { OnOk result (out.new ≡ out.old ++ 32 ∷ decimal n) }
{
    out.push_str(" ")?;
    push_number(out, n)?;
    Ok(())
}

pub fn push_number_parts(out: &mut Text, numbers: &[u64]) -> Result<(), NoMemory>
    ensures { OnOk result (out.new ≡ out.old ++ flat_map (λ n. 32 ∷ decimal n) numbers.now) }
{
    for number in numbers {
        push_number_part(out, *number)?;
    }
    Ok(())
}

/// The number of a status, without its top bit.
pub fn push_status_part(out: &mut Text, status: EfiStatus) -> Result<(), NoMemory>
    ensures { OnOk result (out.new ≡ out.old ++ 32 ∷ status_text status) }
{
    push_number_part(out, status.code % 9_223_372_036_854_775_808)?;
    Ok(())
}

/// The name of a result variable.
pub fn push_result_part(out: &mut Text, number: u16) -> Result<(), NoMemory>
    ensures { OnOk result (out.new ≡ out.old ++ 32 ∷ result_name number) }
{
    out.push_str(" ")?;
    push_result_name(out, number)?;
    Ok(())
}

/// A number in lower-case hexadecimal.
pub fn push_hex_part(out: &mut Text, alloc: Global, n: u64) -> Result<(), NoMemory>
    ensures { OnOk result (out.new ≡ out.old ++ 32 ∷ radix_digits 16 false n) }
{
    let digits = match format!(in alloc; "{n:x}") {
        Ok(digits) => digits,
        Err(_) => return Err(NoMemory),
    };
    push_word_part(out, digits.as_str())?;
    Ok(())
}

pub fn push_guid_part(out: &mut Text, alloc: Global, guid: &Guid) -> Result<(), NoMemory>
    ensures { OnOk result (out.new ≡ out.old ++ 32 ∷ guid_text guid.now) }
{
    let text = guid.to_text(alloc)?;
    push_word_part(out, text.as_str())?;
    Ok(())
}

/// A text, or a dash for the empty one.
pub fn push_part_or_dash(out: &mut Text, text: &str) -> Result<(), NoMemory>
    ensures { OnOk result (out.new ≡ out.old ++ 32 ∷ or_dash text.now) }
{
    push_word_part(out, or_dash(text))?;
    Ok(())
}

fn or_dash(text: &str) -> &str
    ensures { result.now ≡ or_dash text.now }
{
    if text.is_empty() { "-" } else { text }
}
