ghost use Rattle.std.specs.Prelude.{◌≡◌};
ghost use Rattle.stored_vars.specs.Records.{is_key_name};

use bench_model::is_file_name;
use cu_base::DevState;
use reference_machine::UnitKey;

/// A claim on a device: the unit that may start one SetImage on it, with version, lowest supported
/// version and length in bytes of its payload. The name in its key is empty or that of a file.
#[derive(Drop)]
pub struct Claim {
    pub key: UnitKey,
    pub version: u32,
    pub floor: u32,
    pub length: u32,
}

/// What the platform keeps of a device: its state, and the claim on it that is open.
#[derive(Drop)]
pub struct DevRec {
    pub state: DevState,
    pub claim: Option<Claim>,
}

/// Whether the text may stand in the key of a claim: it is empty, as for a delivery by memory, or
/// the name of a file.
pub fn is_key_name(name: &str) -> bool
    ensures value { result ≡ is_key_name name.now }
{
    name.is_empty() || is_file_name(name)
}
