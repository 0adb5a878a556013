ghost use Rattle.std.specs.Prelude.{◌≤◌};
ghost use Rattle.fmp_slot.specs.declared.limits.TheConstants.{MAX_KEPT_SECTION};

use crate::{MAX_KEPT_SECTION, SlotHead};

/// A slot with one bank that is being written: its device, its head, its section, and how many
/// bytes of its payload were taken.
#[derive(Drop)]
pub struct SlotWriter {
    pub(crate) device: u8,
    pub(crate) head: SlotHead,
    pub(crate) dep: [u8; MAX_KEPT_SECTION as usize],
    pub(crate) taken: u32,
    ghost limit: { head.dep_length ≤ MAX_KEPT_SECTION },
}
