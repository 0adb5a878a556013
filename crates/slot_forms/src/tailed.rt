//! A second form of slot, over the first.

ghost use Rattle.std.specs.Prelude.{◌≡◌};
ghost use Rattle.slot_forms.specs.Tailed.{look_within};

use bench_model::{Flash, SLOT_LEAD};
use fmp_slot::{OneBank, Slot, SlotFault, SlotForm, SlotHead, SlotWriter};

/// How many bytes the region has more than its slot takes.
pub const TAIL: u32 = 4_096;

/// The region of the first device: those before it are banks.
const FIRST_DEVICE: u32 = 2;

/// The form of a device with one bank whose region has 4,096 bytes at its end that no payload
/// reaches into.
#[derive(Clone, Copy, Debug, PartialEq, Eq)]
pub struct Tailed;

impl SlotForm for Tailed {
    ghost use Rattle.std.specs.Prelude.{◌+◌};
    ghost use Rattle.std.proofs.Math.Nat.{add-le-add, le-add_left};
    ghost use Rattle.bench_model.specs.declared.outside_limits.TheConstants.{SLOT_LEAD};
    ghost use Rattle.fmp_slot.specs.Writers.{writing_of, places_of, writes_at};
    ghost use Rattle.fmp_slot.specs.Writing.{payload_so_far};
    ghost use Rattle.slot_forms.specs.declared.tailed.TheConstants.{TAIL};
    ghost use Rattle.slot_forms.specs.Tailed.{tailed_slot, tailed_bytes, IsBeforeTail};

    type Writer = SlotWriter;

    ghost slot_of = { tailed_slot };

    ghost size_of = { tailed_bytes };

    ghost writing = { writing_of };

    ghost places = { places_of };

    ghost may_write = { writes_at };

    ghost taken = { λ w bytes. payload_so_far w.taken bytes };

    ghost underway = { IsBeforeTail };

    fn region(&self, capacity: u32) -> u32 {
        SLOT_LEAD + TAIL + capacity
    }

    fn look<F: Flash>(&self, flash: &mut F, device: u8) -> Result<Slot, SlotFault> {
        let room = flash.size(device as u32 + FIRST_DEVICE) - (SLOT_LEAD + TAIL);
        let slot = OneBank.look(flash, device)?;
        Ok(within(room, slot))
    }

    fn read_dep<F: Flash>(
        &self,
        flash: &mut F,
        device: u8,
        head: &SlotHead,
        out: &mut [u8],
    ) -> Result<(), SlotFault> {
        OneBank.read_dep(flash, device, head, out)?;
        Ok(())
    }

    fn start<F: Flash>(
        &self,
        flash: &mut F,
        device: u8,
        head: &SlotHead,
        dep: &[u8],
    ) -> Result<SlotWriter, SlotFault> {
        if head.length > flash.size(device as u32 + FIRST_DEVICE) - (SLOT_LEAD + TAIL) {
            return Err(SlotFault::TooLarge);
        }
        let writer = OneBank.start(flash, device, head, dep)?;
        Ok(writer)
    }

    fn piece<F: Flash>(
        &self,
        flash: &mut F,
        writer: &mut SlotWriter,
        bytes: &[u8],
    ) -> Result<(), SlotFault> {
        OneBank.piece(flash, writer, bytes)
    }

    fn seal<F: Flash>(&self, flash: &mut F, writer: SlotWriter) -> Result<(), SlotFault> {
        OneBank.seal(flash, writer)
    }

    ghost grows = { λ capacity some. add-le-add (le-add_left (SLOT_LEAD + TAIL) 0) some };
}

/// What a look told, but unsealed where the payload is longer than the room.
fn within(room: u32, slot: Slot) -> Slot
    ensures { result ≡ look_within room slot }
{
    match slot {
        Slot::Sealed(head) if head.length <= room => slot,
        _ => Slot::Unsealed,
    }
}
