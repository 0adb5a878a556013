use thiserror::Error;

/// Why a call of the volume gave nothing.
#[derive(Clone, Copy, Debug, PartialEq, Eq, Error)]
pub enum VolumeFault {
    #[error("the volume failed")]
    Failed,
    #[error("the folder takes no further file")]
    Full,
    #[error("out of memory")]
    Memory,
}

/// Why a segment was not laid into memory.
#[derive(Clone, Copy, Debug, PartialEq, Eq, Error)]
pub enum LayFault {
    #[error("the bytes reach the last address")]
    Wraps,
    #[error("the memory takes no further segment")]
    Full,
    #[error("out of memory")]
    Memory,
}
