use cu_base::Failed;
use thiserror::Error;

/// Why a slot was not read or not written.
#[derive(Clone, Copy, Debug, PartialEq, Eq, Error)]
pub enum SlotFault {
    #[error("the flash failed")]
    Flash,
    #[error("the payload is longer than the capacity of the device")]
    TooLarge,
    #[error("0x{wrote:02X} was written at {at} of the region, and 0x{read:02X} was read back")]
    Apart { at: u32, wrote: u8, read: u8 },
}

impl From<Failed> for SlotFault {
    ghost use Rattle.std.specs.Prelude.{◌≡◌};
    ghost use Rattle.fmp_slot.specs.declared.faults.SlotFault.TheVariants.{Flash};

    ghost from_gives = { λ _ e. e ≡ Flash };

    fn from(_: Failed) -> SlotFault {
        SlotFault::Flash
    }
}
