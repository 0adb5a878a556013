use cu_base::{Items, Text};
use report_tables::{EsrtEntry, ResultVar};

/// A result variable with its number (UEFI 2.10, 8.5.6).
#[derive(Drop)]
pub struct CapsuleResult {
    pub number: u16,
    pub variable: ResultVar,
}

/// A file of the update folder.
#[derive(Drop)]
pub struct FolderFile {
    pub name: Text,
    pub serial: u64,
    pub size: u32,
}

/// A delivery that waits in memory: its serial, and the address of its scatter list.
#[derive(Clone, Copy, Debug, PartialEq, Eq)]
pub struct StagedPair {
    pub serial: u64,
    pub address: u64,
}

/// What the platform shows.
#[derive(Drop)]
pub struct Snapshot {
    /// The entries of the ESRT, in order.
    pub esrt: Items<EsrtEntry>,
    /// The result variables, in rising number.
    pub results: Items<CapsuleResult>,
    /// The number of the last result, None before the first.
    pub last: Option<u16>,
    /// The files of the folder, in order of their upper-cased names.
    pub files: Items<FolderFile>,
    /// The staged deliveries, by rising serial.
    pub staged: Items<StagedPair>,
}
