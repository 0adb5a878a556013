use cu_base::{Guid, Items, Text};

/// The GUID and the name of a variable.
#[derive(Drop)]
pub struct VarName {
    pub guid: Guid,
    pub name: Text,
}

/// The GUIDs and names of variables.
pub type VarNames = Items<VarName>;
