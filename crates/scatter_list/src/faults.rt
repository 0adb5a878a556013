use cu_base::NoMemory;
use thiserror::Error;

/// Why a scatter list has no shape.
#[derive(Clone, Copy, Debug, PartialEq, Eq, Error)]
pub enum ShapeFault {
    #[error("the descriptor at 0x{at:X} is not at a multiple of 8")]
    Misaligned { at: u64 },
    #[error("the 16 bytes of the descriptor at 0x{at:X} are not all there")]
    Unreadable { at: u64 },
    #[error("the list comes to the descriptor at 0x{at:X} again")]
    Cycle { at: u64 },
    #[error("the list has more than 65536 descriptors")]
    TooLong,
}

/// Why a scatter list is not coalesced.
#[derive(Clone, Copy, Debug, PartialEq, Eq, Error)]
pub enum CoalesceFault {
    #[error("the data blocks have more bytes than the limit")]
    TooMuch,
    #[error("the data block of the descriptor at 0x{descriptor:X} is not wholly there")]
    BlockUnreadable { descriptor: u64 },
    #[error("out of memory")]
    Memory,
}

impl From<NoMemory> for CoalesceFault {
    ghost use Rattle.std.specs.Prelude.{◌≡◌};
    ghost use Rattle.scatter_list.specs.declared.faults.CoalesceFault.TheVariants.{Memory};

    ghost from_gives = { λ _ e. e ≡ Memory };

    fn from(_: NoMemory) -> CoalesceFault {
        CoalesceFault::Memory
    }
}
