ghost use Rattle.std.specs.Prelude.{◌≡◌, ℕ, ◌+◌, ◌≤◌, List, [], ◌++◌, length, true, Option};
ghost use Rattle.std.specs.Prelude.{OnOk, OnErr, IfOk, IsErrOf};
ghost use Rattle.bench_model.specs.Bench.{ChangesCounts};
ghost use Rattle.bench_model.specs.Regions.{Region};
ghost use Rattle.fmp_slot.specs.Held.{HeldSlot, held, shown, region_in, HasSlot, IsBegun};
ghost use Rattle.fmp_slot.specs.Held.{IsToldStable, IsWithinLimits, KeepsSlots, KeepsOrSeals};
ghost use Rattle.fmp_slot.specs.Held.{IsDurable, IsHeldDep};
ghost use Rattle.fmp_slot.specs.Refusals.{FailsAlone, StartsWithin, ReadsBack};
ghost use Rattle.fmp_slot.specs.Spending.{Spends, SpendsUpTo, ChangesDevice, SlotCause};
ghost use Rattle.fmp_slot.specs.Writing.{Writing, Places, IsNextPiece, started, more_taken};

use crate::{MAX_KEPT_SECTION, Slot, SlotFault, SlotHead};
use bench_model::{Flash, MAX_CAPACITY};

/// How the region of a device holds its slot. A call takes no memory, and of the bench it changes
/// the region of its device alone, beside counts and the plan of faults.
pub trait SlotForm {
    ghost use Rattle.fmp_slot.specs.declared.slot.SlotHead.{SlotHead};

    /// A slot that is being written.
    type Writer: Drop;

    /// What the bytes of a region hold.
    ghost slot_of: { List ℕ → Option HeldSlot };

    /// The bytes of a region, by the capacity of its device.
    ghost size_of: { ℕ → ℕ };

    /// What a writer has.
    ghost writing: { Self.Writer → Writing };

    /// Where a writer writes.
    ghost places: { Self.Writer → Places };

    /// Where a writer of a head and a section may write, in a region of so many bytes.
    ghost may_write: { ℕ → SlotHead → List ℕ → Places → Type 0 };

    /// The payload so far, as the bytes of the region hold it.
    ghost taken: { Self.Writer → List ℕ → List ℕ };

    /// The region is such that the writer may go on.
    ghost underway: { Self.Writer → Region → Type 0 };

    /// The bytes of the region of a device of this capacity.
    fn region(&self, capacity: u32) -> u32
        requires { capacity ≤ MAX_CAPACITY }
        ensures value { result ≡ size_of capacity };

    /// What the slot of a device is. Flash only where the flash failed.
    fn look<F: Flash>(&self, flash: &mut F, device: u8) -> Result<Slot, SlotFault>
        requires there { HasSlot (size_of 0) device (F.state flash.old) }
        ensures value { IfOk result (λ slot. (region_in device (F.state flash.old)).told ≡ true
            → slot ≡ shown (slot_of (region_in device (F.state flash.old)).bytes)) }
        ensures bound { IfOk result (λ slot. IsWithinLimits size_of
            (length (region_in device (F.state flash.old)).bytes) slot) }
        ensures refused { FailsAlone result }
        ensures frame { ChangesCounts (F.state flash.old) (F.state flash.new) }
        ensures counts { SpendsUpTo 0 2 result (F.state flash.old) (F.state flash.new) }
        ensures cause { SlotCause (F.state flash.old) (F.state flash.new) result };

    /// Reads the dependency section that a sealed slot keeps. The head is what `look` told. Flash
    /// only where the flash failed.
    fn read_dep<F: Flash>(
        &self,
        flash: &mut F,
        device: u8,
        head: &SlotHead,
        out: &mut [u8],
    ) -> Result<(), SlotFault>
        requires there { HasSlot (size_of 0) device (F.state flash.old) }
        requires looked { (region_in device (F.state flash.old)).told ≡ true
            → shown (slot_of (region_in device (F.state flash.old)).bytes) ≡ Slot.Sealed head.now }
        requires section { length out.old ≡ head.now.dep_length }
        requires limit { head.now.dep_length ≤ MAX_KEPT_SECTION }
        ensures value { OnOk result ((region_in device (F.state flash.old)).told ≡ true
            → IsHeldDep out.new (slot_of (region_in device (F.state flash.old)).bytes)) }
        ensures refused { FailsAlone result }
        ensures frame { ChangesCounts (F.state flash.old) (F.state flash.new) }
        ensures counts { SpendsUpTo 0 3 result (F.state flash.old) (F.state flash.new) }
        ensures cause { SlotCause (F.state flash.old) (F.state flash.new) result };

    /// Begins to write a slot, of which no byte of the payload is taken yet. TooLarge exactly where
    /// the payload is longer than the capacity, and then nothing was done; Flash only where the
    /// flash failed.
    fn start<F: Flash>(
        &self,
        flash: &mut F,
        device: u8,
        head: &SlotHead,
        dep: &[u8],
    ) -> Result<Self::Writer, SlotFault>
        requires there { HasSlot (size_of 0) device (F.state flash.old) }
        requires begun { IsBegun device (F.state flash.old) }
        requires stable { IsToldStable device (F.state flash.old) }
        requires section { length dep.now ≡ head.now.dep_length }
        requires limit { head.now.dep_length ≤ MAX_KEPT_SECTION }
        ensures ok { IfOk result (λ w. writing w ≡ started device head.now dep.now) }
        ensures underway { IfOk result (λ w. underway w (region_in device (F.state flash.new))) }
        ensures places { IfOk result (λ w. may_write
            (length (region_in device (F.state flash.old)).bytes) head.now dep.now (places w)) }
        ensures taken { IfOk result (λ w. taken w (region_in device (F.state flash.new)).bytes ≡ []) }
        ensures images { KeepsSlots slot_of (region_in device (F.state flash.old))
            (region_in device (F.state flash.new)) }
        ensures refused { (c : ℕ) → length (region_in device (F.state flash.old)).bytes ≡ size_of c
            → StartsWithin c head.now.length result }
        ensures err { IsErrOf result SlotFault.TooLarge → F.state flash.new ≡ F.state flash.old }
        ensures frame { ChangesDevice device (F.state flash.old) (F.state flash.new) }
        ensures counts { SpendsUpTo 2 2 result (F.state flash.old) (F.state flash.new) }
        ensures cause { SlotCause (F.state flash.old) (F.state flash.new) result };

    /// Writes the next piece of the payload and reads it back. Apart only with a byte that was read
    /// as another, never where the flash tells its bytes; Flash only where the flash failed. After
    /// a refusal the writer is as it was.
    fn piece<F: Flash>(
        &self,
        flash: &mut F,
        writer: &mut Self::Writer,
        bytes: &[u8],
    ) -> Result<(), SlotFault>
        requires there { HasSlot (size_of 0) (writing writer.old).device (F.state flash.old) }
        requires begun { IsBegun (writing writer.old).device (F.state flash.old) }
        requires underway { underway writer.old
            (region_in (writing writer.old).device (F.state flash.old)) }
        requires cut { IsNextPiece (writing writer.old) (length bytes.now) }
        ensures ok { OnOk result (writing writer.new
            ≡ more_taken (writing writer.old) (length bytes.now)) }
        ensures underway { OnOk result (underway writer.new
            (region_in (writing writer.old).device (F.state flash.new))) }
        ensures taken { OnOk result
            ((region_in (writing writer.old).device (F.state flash.old)).told ≡ true
            → taken writer.new (region_in (writing writer.old).device (F.state flash.new)).bytes
            ≡ taken writer.old (region_in (writing writer.old).device (F.state flash.old)).bytes
            ++ bytes.now) }
        ensures places { places writer.new ≡ places writer.old }
        ensures err { OnErr result (writing writer.new ≡ writing writer.old) }
        ensures images { KeepsSlots slot_of
            (region_in (writing writer.old).device (F.state flash.old))
            (region_in (writing writer.old).device (F.state flash.new)) }
        ensures refused { ReadsBack (F.state flash.old).contents.told
            ((places writer.old).payload_at + (writing writer.old).taken) bytes.now result }
        ensures frame { ChangesDevice (writing writer.old).device (F.state flash.old)
            (F.state flash.new) }
        ensures counts { Spends 1 1 result (F.state flash.old) (F.state flash.new) }
        ensures cause { SlotCause (F.state flash.old) (F.state flash.new) result };

    /// Writes head and section, makes all last, reads them back, and seals the slot. Apart only
    /// with a byte that was read as another, never where the flash tells its bytes; Flash only
    /// where the flash failed.
    fn seal<F: Flash>(&self, flash: &mut F, writer: Self::Writer) -> Result<(), SlotFault>
        requires there { HasSlot (size_of 0) (writing writer).device (F.state flash.old) }
        requires begun { IsBegun (writing writer).device (F.state flash.old) }
        requires underway { underway writer
            (region_in (writing writer).device (F.state flash.old)) }
        requires whole { (writing writer).taken ≡ (writing writer).head.length }
        ensures durable { OnOk result (IsDurable slot_of
            (held (writing writer).head (writing writer).dep
            (taken writer (region_in (writing writer).device (F.state flash.old)).bytes))
            (region_in (writing writer).device (F.state flash.new))) }
        ensures images { KeepsOrSeals slot_of
            (held (writing writer).head (writing writer).dep
            (taken writer (region_in (writing writer).device (F.state flash.old)).bytes))
            (region_in (writing writer).device (F.state flash.old))
            (region_in (writing writer).device (F.state flash.new)) }
        ensures refused { ReadsBack (F.state flash.old).contents.told (places writer).front_at
            (places writer).front result }
        ensures frame { ChangesDevice (writing writer).device (F.state flash.old)
            (F.state flash.new) }
        ensures counts { Spends 4 1 result (F.state flash.old) (F.state flash.new) }
        ensures cause { SlotCause (F.state flash.old) (F.state flash.new) result };

    /// A region for a payload of a byte or more is longer than one for none.
    ghost grows: { (capacity : ℕ) → 1 ≤ capacity → size_of 0 + 1 ≤ size_of capacity };
}
