//! The laws of update images: an image has its parts in one way, or is refused at one place for one
//! cause, and never both. Its parts as they are written one behind another are its parts at their
//! places.

ghost use Rattle.std.specs.Prelude.{◌≡◌, ◌<◌, ◌≤◌, ◌⊎◌, ◌↔◌, ℕ, List, [], ◌∷◌, length, take};
ghost use Rattle.std.specs.Prelude.{None, Some};
ghost use Rattle.cu_base.specs.Bytes.{IsBytes};
ghost use Rattle.dep_code.specs.declared.fault.DepWhy.{DepWhy};
ghost use Rattle.dep_code.specs.declared.op.Op.{Op};
ghost use Rattle.dep_code.specs.Refusals as dep;
ghost use Rattle.dep_code.specs.Sections.{IsSection};
ghost use Rattle.dep_code.specs.Tree.{Tree};
ghost use Rattle.image_parts.specs.declared.authentication.TheConstants.{CERTIFICATE_TYPE};
ghost use Rattle.image_parts.specs.declared.authentication.TheConstants.{REVISION};
ghost use Rattle.image_parts.specs.declared.payload_header.TheConstants.{SIGNATURE};
ghost use Rattle.image_parts.specs.declared.fault.PartWhy.{PartWhy};
ghost use Rattle.image_parts.specs.declared.spans.PartSpans.{PartSpans};
ghost use Rattle.image_parts.specs.Cuts.{IsCutInto};
ghost use Rattle.image_parts.specs.Parts.{IsPartsOf};
ghost use Rattle.image_parts.specs.PartsOf.{parts_of};
ghost use Rattle.image_parts.specs.Refusals.{IsRefused};
ghost use Rattle.image_parts.specs.Scan.{ScanValue, StandsFor};
ghost use Rattle.image_parts.specs.SectionAt.{section_at};
ghost use Rattle.image_parts.specs.Spans.{HasSpans};
ghost use Rattle.image_parts.specs.Values.{PartsValue};

/// The fixed numbers of WIN_CERTIFICATE_UEFI_GUID, and the signature `MSS1` of a payload header.
pub fn fixed_bytes_are()
    ensures { (REVISION ≡ 0x0200) × (CERTIFICATE_TYPE ≡ 0x0EF1)
        × (SIGNATURE ≡ 0x4D ∷ 0x53 ∷ 0x53 ∷ 0x31 ∷ []) }
{}

/// Parts are those of an image exactly where they stand at their places and nothing is refused.
pub fn parts_stand_at_their_places()
    ensures cut { (image : List ℕ) (support : ℕ) (p : PartsValue) →
        IsPartsOf image support p → IsCutInto image support p }
    ensures spelled { (image : List ℕ) (support : ℕ) (p : PartsValue) → IsBytes image →
        IsCutInto image support p → IsPartsOf image support p }
{}

/// An image has one list of parts.
pub fn one_list_of_parts()
    ensures { (image : List ℕ) (support : ℕ) (p q : PartsValue) →
        IsPartsOf image support p → IsPartsOf image support q → p ≡ q }
{}

/// An image has its parts or is refused.
pub fn parts_or_refused()
    ensures { (image : List ℕ) (support : ℕ) → IsBytes image →
        ((p : PartsValue) × IsPartsOf image support p)
        ⊎ ((at : ℕ) × (why : PartWhy) × IsRefused image support at why) }
{}

/// An image that has its parts is not refused.
pub fn never_both()
    ensures { (image : List ℕ) (support : ℕ) (p : PartsValue) (at : ℕ) (why : PartWhy) →
        IsPartsOf image support p → IsRefused image support at why → ⊥ }
{}

/// An image is refused at one place for one cause.
pub fn one_refusal()
    ensures { (image : List ℕ) (support at other : ℕ) (why cause : PartWhy) →
        IsRefused image support at why → IsRefused image support other cause →
        (at ≡ other) × (why ≡ cause) }
{}

/// The parts of an image as a function: it gives these parts exactly where the image has them, and
/// None exactly where it is refused.
pub fn parts_are_a_function()
    ensures some { (image : List ℕ) (support : ℕ) (p : PartsValue) → IsBytes image →
        (parts_of image support ≡ Some p) ↔ IsPartsOf image support p }
    ensures none { (image : List ℕ) (support : ℕ) → IsBytes image →
        (parts_of image support ≡ None)
        ↔ ((at : ℕ) × (why : PartWhy) × IsRefused image support at why) }
{}

/// The section at the front of bytes as a function: it gives operations, tree and length exactly
/// where a section of these stands there, and None exactly where the bytes are refused.
pub fn sections_are_a_function()
    ensures some { (bytes : List ℕ) (ops : List Op) (tree : Tree) (size : ℕ) → IsBytes bytes →
        (section_at bytes ≡ Some (ops, tree, size))
        ↔ ((size ≤ length bytes) × IsSection (take size bytes) ops tree) }
    ensures none { (bytes : List ℕ) → IsBytes bytes →
        (section_at bytes ≡ None) ↔ ((at : ℕ) × (why : DepWhy) × dep.IsRefused bytes at why) }
{}

/// What a scan keeps decides: when all bytes came, one answer holds of every image for which it
/// stands. So no byte that is not kept has a say.
pub fn what_is_kept_decides()
    ensures { (scan : ScanValue) (some : List ℕ) → StandsFor scan some → scan.came ≡ scan.size →
        ((spans : PartSpans) × ((image : List ℕ) →
        StandsFor scan image → HasSpans image scan.support spans))
        ⊎ ((at : ℕ) × (why : PartWhy) × ((image : List ℕ) →
        StandsFor scan image → IsRefused image scan.support at why)) }
{}
