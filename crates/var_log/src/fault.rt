use thiserror::Error;

/// Why a call of the log gave nothing.
#[derive(Clone, Copy, Debug, PartialEq, Eq, Error)]
pub enum LogFault {
    #[error("the flash failed")]
    Flash,
    #[error("neither bank has an open header")]
    NoBank,
    #[error("the log takes no further record of this size")]
    Full,
    #[error("the log was left after a fault of the flash: open it anew")]
    Stale,
    #[error("out of memory")]
    Memory,
}
