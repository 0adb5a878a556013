//! Bytes that texts show in hexadecimal digits.

ghost use Rattle.std.specs.Prelude.{◌≡◌, false, IfErr, IfOk, IsTrue, MatchResult};
ghost use Rattle.cu_base.specs.Bytes.{IsBytes};
ghost use Rattle.image_parts.specs.Section.{IsOneSection};
ghost use Rattle.recipe_files.specs.Hexes.{ReadsHex, bytes_shown, is_hex};
ghost use Rattle.recipe_files.specs.Sections.{is_section};

use cu_base::{Blob, NoMemory};
use dep_code::{DepRefusal, read_ops};
use hex::FromHexError;
use std::alloc::Global;

/// The bytes that a text shows, two digits of either case a byte. None where it shows none.
#[tactic(auto, using(crate::proofs::HexLemmas::reads_hex, crate::proofs::HexLemmas::refuses_hex))]
pub(crate) fn read_hex(alloc: Global, text: &str) -> Result<Option<Blob>, NoMemory>
    ensures { IfOk result (ReadsHex text.now) }
{
    match hex::decode(alloc, text.as_bytes()) {
        Ok(bytes) => Ok(Some(Blob::from_slice(alloc, bytes.as_slice())?)),
        Err(FromHexError::OutOfMemory) => Err(NoMemory),
        Err(_) => Ok(None),
    }
}

/// Whether the bytes are one dependency section.
#[tactic(auto, using(crate::proofs::SectionLemmas::front_decides, crate::proofs::SectionLemmas::no_section))]
pub(crate) fn is_section(alloc: Global, bytes: &[u8]) -> Result<bool, NoMemory>
    requires { IsBytes bytes.now }
    ensures { IfOk result (λ is. is ≡ is_section bytes.now) }
{
    match read_ops(alloc, bytes) {
        Ok((_, size)) => Ok(size == bytes.len()),
        Err(DepRefusal::Dep(_)) => Ok(false),
        Err(DepRefusal::Memory) => Err(NoMemory),
    }
}
