use thiserror::Error;
use var_log::LogFault;

/// Why a call of the store gave nothing.
#[derive(Clone, Copy, Debug, PartialEq, Eq, Error)]
pub enum StoreFault {
    /// The log gave nothing. Its want of memory is told as `Memory`.
    #[error("{0}")]
    Log(LogFault),
    #[error("the name is not 1 to 64 bytes of 0x21 to 0x7E")]
    BadName,
    #[error("the data has more than 16,384 bytes")]
    TooBig,
    #[error("out of memory")]
    Memory,
}
