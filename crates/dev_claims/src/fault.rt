ghost use Rattle.std.specs.Prelude.{◌≡◌};
ghost use Rattle.dev_claims.specs.Committing.{claim_fault_of};
ghost use Rattle.dev_claims.specs.declared.fault.ClaimFault.TheVariants as claims;

use cu_base::NoMemory;
use thiserror::Error;
use var_store::StoreFault;

/// Why a call on claims did nothing or stopped.
#[derive(Clone, Copy, Debug, PartialEq, Eq, Error)]
pub enum ClaimFault {
    /// The store gave nothing. Its want of memory is told as `Memory`.
    #[error("{0}")]
    Store(StoreFault),
    /// The region of the device could not be read.
    #[error("the flash failed")]
    Flash,
    /// More units of the file are spent than the claim says.
    #[error("{progress} units of the file are spent")]
    Spent { progress: u32 },
    #[error("out of memory")]
    Memory,
}

impl From<NoMemory> for ClaimFault {
    ghost from_gives = { λ _ fault. fault ≡ claims.Memory };

    fn from(_none: NoMemory) -> ClaimFault {
        ClaimFault::Memory
    }
}

/// A fault of the store as one of a claim.
pub(crate) fn claim_fault_of(fault: StoreFault) -> ClaimFault
    ensures value { result ≡ claim_fault_of fault }
{
    match fault {
        StoreFault::Memory => ClaimFault::Memory,
        other => ClaimFault::Store(other),
    }
}
