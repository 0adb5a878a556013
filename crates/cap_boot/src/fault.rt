ghost use Rattle.cap_boot.specs.declared.fault.BootFault.TheVariants as boot;
ghost use Rattle.std.specs.Prelude.{◌≡◌};

use cu_base::NoMemory;
use thiserror::Error;

/// Why a boot was stopped.
#[derive(Clone, Copy, Debug, PartialEq, Eq, Error)]
pub enum BootFault {
    #[error("the flash failed")]
    Flash,
    #[error("the volume failed")]
    Volume,
    /// Neither bank of the store is open, or the open one takes no further batch.
    #[error("there is no store of variables")]
    NoBank,
    #[error("out of memory")]
    Memory,
}

impl From<NoMemory> for BootFault {
    ghost from_gives = { λ _ fault. fault ≡ boot.Memory };

    fn from(_none: NoMemory) -> BootFault {
        BootFault::Memory
    }
}
