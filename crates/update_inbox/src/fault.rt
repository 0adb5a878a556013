ghost use Rattle.std.specs.Prelude.{◌≡◌};
ghost use Rattle.update_inbox.specs.Answers.{inbox_fault_of};
ghost use Rattle.update_inbox.specs.declared.fault.InboxFault.TheVariants as inbox;

use cu_base::NoMemory;
use thiserror::Error;
use var_log::LogFault;
use var_store::StoreFault;

/// Why a call of the inbox did nothing, with the EFI status that the standard gives to it (UEFI
/// 2.10, 8.5.3).
#[derive(Clone, Copy, Debug, PartialEq, Eq, Error)]
pub enum InboxFault {
    /// EFI_INVALID_PARAMETER.
    #[error("the capsule or its list is invalid")]
    Invalid,
    /// EFI_UNSUPPORTED.
    #[error("the capsule is of a kind that is not taken")]
    Unsupported,
    /// EFI_OUT_OF_RESOURCES.
    #[error("no more deliveries can wait")]
    Resources,
    #[error("the flash failed")]
    Flash,
    #[error("the volume failed")]
    Volume,
    /// Neither bank of the store is open, or the open one takes no further batch.
    #[error("there is no store of variables")]
    NoBank,
    #[error("out of memory")]
    Memory,
}

impl From<NoMemory> for InboxFault {
    ghost from_gives = { λ _ fault. fault ≡ inbox.Memory };

    fn from(_none: NoMemory) -> InboxFault {
        InboxFault::Memory
    }
}

/// A fault of the store as one of the inbox.
pub(crate) fn inbox_fault_of(fault: StoreFault) -> InboxFault
    ensures value { result ≡ inbox_fault_of fault }
{
    match fault {
        StoreFault::Log(LogFault::Flash) => InboxFault::Flash,
        StoreFault::Memory => InboxFault::Memory,
        _ => InboxFault::NoBank,
    }
}
