//! The words of a line. Each but the first has a space before it.

ghost use Rattle.std.specs.Prelude.{◌≡◌, ◌∷◌, ◌++◌, [], decimal, OnOk};
ghost use Rattle.hex.specs.Hex.{encode_lower};
ghost use Rattle.cu_base.specs.Guids.{guid_text};
ghost use Rattle.capsule_show.specs.Lines.{flags_text, spaced};

use cu_base::{Blob, Guid, NoMemory};
use itoa::Buffer;
use std::alloc::Global;

pub fn push_text(out: &mut Blob, text: &str) -> Result<(), NoMemory>
    ensures { OnOk result (out.new ≡ out.old ++ text.now) }
{
    out.push_slice(text.as_bytes())
}

pub fn push_word(out: &mut Blob, word: &str) -> Result<(), NoMemory>
    ensures { OnOk result (out.new ≡ out.old ++ 32 ∷ word.now) }
{
    out.push_slice(b" ")?;
    out.push_slice(word.as_bytes())
}

pub fn push_number(out: &mut Blob, n: u64) -> Result<(), NoMemory>
    ensures { OnOk result (out.new ≡ out.old ++ 32 ∷ decimal n) }
{
    let mut buffer = Buffer::new();
    push_word(out, buffer.format(n))
}

pub fn push_guid(out: &mut Blob, alloc: Global, guid: &Guid) -> Result<(), NoMemory>
    ensures { OnOk result (out.new ≡ out.old ++ 32 ∷ guid_text guid.now) }
{
    let text = guid.to_text(alloc)?;
    push_word(out, text.as_str())
}

/// Appends a name and a number.
pub fn push_named(out: &mut Blob, name: &str, n: u64) -> Result<(), NoMemory>
    ensures { OnOk result (out.new ≡ out.old ++ spaced (name.now ∷ decimal n ∷ [])) }
{
    push_word(out, name)?;
    push_number(out, n)
}

/// Appends two lower-case hexadecimal digits for each byte.
pub fn push_hex(out: &mut Blob, alloc: Global, bytes: &[u8]) -> Result<(), NoMemory>
    ensures { OnOk result (out.new ≡ out.old ++ 32 ∷ encode_lower bytes.now) }
{
    match hex::encode(alloc, bytes) {
        Ok(digits) => push_word(out, digits.as_str()),
        Err(_) => Err(NoMemory),
    }
}

/// Appends the eight upper-case hexadecimal digits of flags.
pub fn push_flags(out: &mut Blob, alloc: Global, flags: u32) -> Result<(), NoMemory>
    ensures { OnOk result (out.new ≡ out.old ++ 32 ∷ flags_text flags) }
{
    match hex::encode_upper(alloc, flags.to_be_bytes()) {
        Ok(digits) => push_word(out, digits.as_str()),
        Err(_) => Err(NoMemory),
    }
}

pub fn end_line(out: &mut Blob) -> Result<(), NoMemory>
    ensures { OnOk result (out.new ≡ out.old ++ 10 ∷ []) }
{
    out.push_slice(b"\n")
}
