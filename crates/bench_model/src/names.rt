ghost use Rattle.std.specs.Prelude.{◌≡◌};
ghost use Rattle.std.specs.List.{list_all};
ghost use Rattle.bench_model.specs.Names.{is_name_byte, is_device_name};

use crate::limits::MAX_DEVICE_NAME;

/// Whether the text is the name of a device: 1 to 16 of ASCII letters, digits, `.`, `_` and `-`.
pub fn is_device_name(name: &str) -> bool
    ensures { result ≡ is_device_name name.now }
{
    let bytes = name.as_bytes();
    !bytes.is_empty() && bytes.len() <= MAX_DEVICE_NAME && are_name_bytes(bytes)
}

pub(crate) fn are_name_bytes(bytes: &[u8]) -> bool
    ensures { result ≡ list_all is_name_byte bytes.now }
{
    bytes.iter().all(|b| is_name_byte(*b))
}

fn is_name_byte(byte: u8) -> bool
    ensures { result ≡ is_name_byte byte }
{
    byte.is_ascii_alphanumeric() || byte == b'.' || byte == b'_' || byte == b'-'
}
