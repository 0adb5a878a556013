//! What is written is read again, and what is read is written back.

ghost use Rattle.std.specs.Prelude.{◌≡◌, ℕ, List, ◌++◌, take, Ok};
ghost use Rattle.cu_base.specs.Bytes.{IsBytes};
ghost use Rattle.fmp_headers.specs.declared.capsule.TheConstants.{CAPSULE_HEADER_BYTES};
ghost use Rattle.fmp_headers.specs.declared.fmp.TheConstants.{FMP_HEADER_BYTES, FMP_HEADER_VERSION};
ghost use Rattle.fmp_headers.specs.declared.guids.TheConstants.{FMP_CAPSULE_GUID};
ghost use Rattle.fmp_headers.specs.declared.image.TheConstants.{IMAGE_HEADER_BYTES};
ghost use Rattle.fmp_headers.specs.CapsuleHeader.{capsule_header, capsule_header_bytes};
ghost use Rattle.fmp_headers.specs.CapsuleHeader.{IsCapsuleHeader};
ghost use Rattle.fmp_headers.specs.FmpHeader.{fmp_guid_bytes, fmp_header, fmp_header_bytes};
ghost use Rattle.fmp_headers.specs.FmpHeader.{IsFmpHeader};
ghost use Rattle.fmp_headers.specs.ImageHeader.{image_header, image_header_bytes};
ghost use Rattle.fmp_headers.specs.ImageHeader.{image_header_size, IsImageHeader};
ghost use Rattle.fmp_headers.specs.declared.capsule.CapsuleHeader.{CapsuleHeader};
ghost use Rattle.fmp_headers.specs.declared.fmp.FmpHeader.{FmpHeader};
ghost use Rattle.fmp_headers.specs.declared.image.ImageHeader.{ImageHeader};

/// The sizes of the headers, the one Version of an FMP capsule header, and the bytes of the GUID
/// 6dcbd5ed-e82d-4c44-bda1-7194199ad92a (UEFI 2.10, 23.3.1).
pub fn fixed_bytes_are()
    ensures sizes { (CAPSULE_HEADER_BYTES ≡ 28) × (FMP_HEADER_BYTES ≡ 8)
        × (IMAGE_HEADER_BYTES ≡ 32) }
    ensures version { FMP_HEADER_VERSION ≡ 1 }
    ensures guid { FMP_CAPSULE_GUID.bytes ≡ fmp_guid_bytes }
{}

/// A capsule header within the limits is read again from its layout, whatever follows it. One that
/// is read is within the limits, and its layout is the front that it was read from.
pub fn capsule_header_law()
    ensures again { (h : CapsuleHeader) (rest : List ℕ) → IsCapsuleHeader h →
        capsule_header (capsule_header_bytes h ++ rest) ≡ Ok h }
    ensures kept { (bytes : List ℕ) (h : CapsuleHeader) → IsBytes bytes →
        capsule_header bytes ≡ Ok h → IsCapsuleHeader h }
    ensures back { (bytes : List ℕ) (h : CapsuleHeader) → IsBytes bytes →
        capsule_header bytes ≡ Ok h → capsule_header_bytes h ≡ take 28 bytes }
{}

/// The same of an FMP capsule header.
pub fn fmp_header_law()
    ensures again { (h : FmpHeader) (rest : List ℕ) → IsFmpHeader h →
        fmp_header (fmp_header_bytes h ++ rest) ≡ Ok h }
    ensures kept { (bytes : List ℕ) (h : FmpHeader) → IsBytes bytes →
        fmp_header bytes ≡ Ok h → IsFmpHeader h }
    ensures back { (bytes : List ℕ) (h : FmpHeader) → IsBytes bytes →
        fmp_header bytes ≡ Ok h → fmp_header_bytes h ≡ take 8 bytes }
{}

/// The same of an image header, which keeps the rules of its version.
pub fn image_header_law()
    ensures again { (h : ImageHeader) (rest : List ℕ) → IsImageHeader h →
        image_header (image_header_bytes h ++ rest) ≡ Ok h }
    ensures kept { (bytes : List ℕ) (h : ImageHeader) → IsBytes bytes →
        image_header bytes ≡ Ok h → IsImageHeader h }
    ensures back { (bytes : List ℕ) (h : ImageHeader) → IsBytes bytes →
        image_header bytes ≡ Ok h →
        image_header_bytes h ≡ take (image_header_size h.version) bytes }
{}
