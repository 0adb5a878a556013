ghost use Rattle.std.specs.Prelude.{◌≡◌, ◌≤◌, length, take, IfOk};
ghost use Rattle.std.specs.Option.{SomeIff};
ghost use Rattle.cu_base.specs.Guids.{fields_reversed, guid_of_text, guid_text};

use crate::{BaseFault, NoMemory, Text};
use std::alloc::Global;
use uuid::Uuid;

/// A GUID as its 16 bytes stand in a capsule: a u32 and two u16, little-endian, then eight bytes in
/// order (UEFI 2.10, appendix A).
#[derive(Clone, Copy, Debug, PartialEq, Eq)]
pub struct Guid {
    pub bytes: [u8; 16],
}

impl Guid {
    /// The first 16 bytes. None exactly where there are fewer.
    pub fn read(bytes: &[u8]) -> Option<Guid>
        ensures { SomeIff result (16 ≤ length bytes.now) (record { bytes = take 16 bytes.now }) }
    {
        Some(Guid {
            bytes: *bytes.first_chunk::<16>()?,
        })
    }

    /// The GUID of a text in any of the forms that `uuid` takes: 32 digits, hyphenated, in braces
    /// or as a URN, in either case. `BadGuidText` for any other text.
    pub fn from_text(text: &str) -> Result<Guid, BaseFault>
        ensures value { result ≡ guid_of_text text.now }
    {
        match Uuid::parse_str(text) {
            Ok(id) => Ok(Guid {
                bytes: fields_reversed(id.into_bytes()),
            }),
            Err(_) => Err(BaseFault::BadGuidText),
        }
    }

    /// The hyphenated text of lower-case digits.
    pub fn to_text(&self, alloc: Global) -> Result<Text, NoMemory>
        ensures { IfOk result (λ text. text ≡ guid_text self.now) }
    {
        let id = Uuid::from_bytes(fields_reversed(self.bytes));
        let mut buffer = Uuid::encode_buffer();
        let text = id.hyphenated().encode_lower(&mut buffer);
        Text::from_str(alloc, text)
    }
}

// The bytes in a capsule of those in a text, and the other way.
#[tactic(auto, using(crate::proofs::GuidLemmas::reverses))]
fn fields_reversed(bytes: [u8; 16]) -> [u8; 16]
    ensures { result ≡ fields_reversed bytes }
{
    Uuid::from_bytes(bytes).to_bytes_le()
}
