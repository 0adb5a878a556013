use cu_base::{Blob, Guid};

/// An operation of a dependency section (UEFI 2.10, 23.2). The bytes of `VersionStr` are those
/// before its zero. `DeclareLength` is this tool's own: it tells the length of the section.
#[derive(Drop)]
pub enum Op {
    PushGuid(Guid),
    PushVersion(u32),
    VersionStr(Blob),
    And,
    Or,
    Not,
    True,
    False,
    Eq,
    Gt,
    Gte,
    Lt,
    Lte,
    End,
    DeclareLength(u32),
}
