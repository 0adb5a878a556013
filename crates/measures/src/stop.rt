use bench_model::LayFault;
use cu_base::{Failed, NoMemory};
use fmp_slot::SlotFault;
use scatter_list::CoalesceFault;
use std::convert::From;
use thiserror::Error;

/// Why a measure was not taken to its end.
#[derive(Clone, Copy, Debug, PartialEq, Eq, Error)]
pub enum Stop {
    #[error("out of memory")]
    Memory,
    #[error("the board is not as it should be")]
    Board,
    #[error("a call failed")]
    Failed,
    #[error("the words could not be written")]
    Unwritten,
}

impl From<NoMemory> for Stop {
    fn from(_: NoMemory) -> Stop {
        Stop::Memory
    }
}

impl From<Failed> for Stop {
    fn from(_: Failed) -> Stop {
        Stop::Failed
    }
}

impl From<SlotFault> for Stop {
    fn from(_: SlotFault) -> Stop {
        Stop::Failed
    }
}

impl From<LayFault> for Stop {
    fn from(_: LayFault) -> Stop {
        Stop::Failed
    }
}

impl From<CoalesceFault> for Stop {
    fn from(_: CoalesceFault) -> Stop {
        Stop::Failed
    }
}
