use crate::{Report, Snapshot};

/// How a boot ended.
#[derive(Clone, Copy, Debug, PartialEq, Eq)]
pub enum BootEnd {
    /// All steps were done.
    Ok,
    /// A call of the flash failed.
    Flash,
    /// A call of the volume failed.
    Volume,
    /// Neither bank of the store is open.
    NoBank,
}

/// What an event answered.
#[derive(Drop)]
pub enum Answer {
    Done,
    /// The delivery has this serial.
    Serial(u64),
    FlashFault,
    VolumeFault,
    NoBank,
    Full,
    Wraps,
    Invalid,
    Unsupported,
    Resources,
    Booted(Report, BootEnd),
    Shown(Snapshot),
}

/// What a play tells of one event.
#[derive(Drop)]
pub struct Entry {
    /// How many batches the store had taken when the event opened it. None where it did not.
    pub opened: Option<u64>,
    /// The number of the batch whose commit failed. None where none did.
    pub pending: Option<u64>,
    pub answer: Answer,
}
