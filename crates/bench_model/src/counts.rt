/// What a bench counts. Each count stays at 2^64 - 1 once it is there.
#[derive(Clone, Copy, Debug, PartialEq, Eq)]
pub struct Counts {
    /// The calls of write, sync, begin and end.
    pub moves: u64,
    /// The calls of read, list and read_file.
    pub looks: u64,
    /// The calls of the flash that failed.
    pub flash_faults: u64,
    /// The calls of the volume that failed.
    pub volume_faults: u64,
}
