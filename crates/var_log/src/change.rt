ghost use Rattle.std.specs.Prelude.{◌≡◌};
ghost use Rattle.std.specs.List.{list_all};
ghost use Rattle.var_log.specs.Changes.{is_name, is_name_byte, guid_of, name_of, keeps_limits};

use crate::limits::{MAX_DATA, MAX_NAME};
use cu_base::{Blob, Guid, Text};

/// One change of the variables.
#[derive(Drop)]
pub enum Change {
    /// The variable of this name and GUID has these attributes and this data.
    Set {
        name: Text,
        guid: Guid,
        attributes: u32,
        value: Blob,
    },
    /// There is no variable of this name and GUID.
    Delete {
        name: Text,
        guid: Guid,
    },
}

impl Change {
    /// The name of the variable.
    pub fn name(&self) -> &Text
        ensures { result.now ≡ name_of self.now }
    {
        match self {
            Change::Set { name, .. } | Change::Delete { name, .. } => name,
        }
    }

    /// The GUID of the variable.
    pub fn guid(&self) -> &Guid
        ensures { result.now ≡ guid_of self.now }
    {
        match self {
            Change::Set { guid, .. } | Change::Delete { guid, .. } => guid,
        }
    }

    /// Whether its name and its data are within the limits.
    pub fn keeps_limits(&self) -> bool
        ensures { result ≡ keeps_limits self.now }
    {
        match self {
            Change::Set { name, value, .. } => is_name(name.as_str().as_bytes())
                && value.len() <= MAX_DATA,
            Change::Delete { name, .. } => is_name(name.as_str().as_bytes()),
        }
    }
}

/// Whether these bytes are a variable's name: 1 to 64 of 0x21 to 0x7E.
pub fn is_name(name: &[u8]) -> bool
    ensures { result ≡ is_name name.now }
{
    !name.is_empty() && name.len() <= MAX_NAME && are_name_bytes(name)
}

fn are_name_bytes(name: &[u8]) -> bool
    ensures { result ≡ list_all is_name_byte name.now }
{
    name.iter().all(|b| 0x21 <= *b && *b <= 0x7E)
}
