//! What is written is read again and nothing else is, and the names, GUIDs and attributes.

ghost use Rattle.std.specs.Prelude.{◌≡◌, ◌<◌, ◌^◌, [], ◌∷◌, ℕ, List, Some, true, codes, is_some};
ghost use Rattle.std.specs.Prelude.{option_and_then, option_map, length};
ghost use Rattle.cu_base.specs.Bytes.{IsBytes};
ghost use Rattle.reference_machine.specs.declared.snapshot.StagedPair.{StagedPair};
ghost use Rattle.stored_vars.specs.Last.{last_bytes, last_in};
ghost use Rattle.stored_vars.specs.Numbers.{IsPair, number_bytes, number_in, pair_bytes, pair_in};
ghost use Rattle.stored_vars.specs.Progress.{IsProgress, progress_bytes, progress_in};
ghost use Rattle.stored_vars.specs.Records.{IsRecord, has_claim, record_bytes, record_in, state_in};
ghost use Rattle.stored_vars.specs.Variables.{attributes_of, guid_of, is_variable, name_of};
ghost use Rattle.stored_vars.specs.declared.claim.DevRec.{DevRec};
ghost use Rattle.stored_vars.specs.declared.guids.TheConstants.{EFI_CAPSULE_REPORT_GUID};
ghost use Rattle.stored_vars.specs.declared.guids.TheConstants.{EFI_GLOBAL_VARIABLE};
ghost use Rattle.stored_vars.specs.declared.guids.TheConstants.{PLATFORM_GUID};
ghost use Rattle.stored_vars.specs.declared.progress.ProgressEntry.{ProgressEntry};
ghost use Rattle.stored_vars.specs.declared.variable.StoredVar.{StoredVar as Var};
ghost use Rattle.stored_vars.specs.declared.variable.StoredVar.TheVariants.{Device, Stage, Outcome};
ghost use Rattle.stored_vars.specs.declared.variable.StoredVar.TheVariants.{OsIndications};

use crate::{
    DEVICE_RECORD_BYTES, MAX_STAGE_VARIABLES, OS_INDICATIONS_FILE_CAPSULE_DELIVERY_SUPPORTED,
    PAIR_BYTES, PROGRESS_ENTRY_BYTES, RESULT_NAME_BYTES,
};

/// The record of a device is read again from its spelling, and from nothing else. What is read of
/// bytes is a record of the device. Its state and whether it has a claim are those that are read
/// without memory.
pub fn record_law()
    ensures again { (device : ℕ) (r : DevRec) → IsRecord device r →
        record_in device (record_bytes r) ≡ Some r }
    ensures back { (device : ℕ) (bytes : List ℕ) (r : DevRec) → record_in device bytes ≡ Some r →
        record_bytes r ≡ bytes }
    ensures width { (device : ℕ) (bytes : List ℕ) (r : DevRec) → IsBytes bytes →
        record_in device bytes ≡ Some r → IsRecord device r }
    ensures one { (device : ℕ) (r s : DevRec) → IsRecord device r → IsRecord device s →
        record_bytes r ≡ record_bytes s → r ≡ s }
    ensures state { (device : ℕ) (bytes : List ℕ) →
        state_in bytes ≡ option_map (λ (r : DevRec). r.state) (record_in device bytes) }
    ensures claim { (device : ℕ) (bytes : List ℕ) → has_claim bytes
        ≡ is_some (option_and_then (λ (r : DevRec). r.claim) (record_in device bytes)) }
{}

/// The same of progress.
pub fn progress_law()
    ensures again { (entries : List ProgressEntry) → IsProgress entries →
        progress_in (progress_bytes entries) ≡ Some entries }
    ensures back { (bytes : List ℕ) (entries : List ProgressEntry) → IsBytes bytes →
        progress_in bytes ≡ Some entries → progress_bytes entries ≡ bytes }
    ensures one { (entries others : List ProgressEntry) → IsProgress entries → IsProgress others →
        progress_bytes entries ≡ progress_bytes others → entries ≡ others }
{}

/// The same of a number.
pub fn number_law()
    ensures again { (n : ℕ) → n < 2 ^ 64 → number_in (number_bytes n) ≡ Some n }
    ensures back { (bytes : List ℕ) (n : ℕ) → IsBytes bytes → number_in bytes ≡ Some n →
        number_bytes n ≡ bytes }
    ensures one { (n m : ℕ) → n < 2 ^ 64 → m < 2 ^ 64 → number_bytes n ≡ number_bytes m → n ≡ m }
{}

/// The same of a staged delivery.
pub fn pair_law()
    ensures again { (p : StagedPair) → IsPair p → pair_in (pair_bytes p) ≡ Some p }
    ensures back { (bytes : List ℕ) (p : StagedPair) → IsBytes bytes → pair_in bytes ≡ Some p →
        pair_bytes p ≡ bytes }
    ensures one { (p q : StagedPair) → IsPair p → IsPair q → pair_bytes p ≡ pair_bytes q → p ≡ q }
{}

/// The same of the name of a result.
pub fn last_law()
    ensures again { (number : ℕ) → number < 2 ^ 16 → last_in (last_bytes number) ≡ Some number }
    ensures back { (bytes : List ℕ) (number : ℕ) → last_in bytes ≡ Some number →
        last_bytes number ≡ bytes }
    ensures one { (n m : ℕ) → n < 2 ^ 16 → m < 2 ^ 16 → last_bytes n ≡ last_bytes m → n ≡ m }
{}

/// Different variables have different names.
#[tactic(auto, using(crate::proofs::VariableLaws::names_apart))]
pub fn names_are_apart()
    ensures { (v w : Var) → is_variable v ≡ true → is_variable w ≡ true →
        name_of v ≡ name_of w → v ≡ w }
{}

/// The fixed bytes of GUIDs, names and attributes.
pub fn fixed_texts_are()
    ensures platform { PLATFORM_GUID.bytes ≡ 0x52 ∷ 0x3b ∷ 0x1c ∷ 0x7a ∷ 0x4e ∷ 0x0d ∷ 0x86 ∷ 0x4f
        ∷ 0x9b ∷ 0x27 ∷ 0x5e ∷ 0x6f ∷ 0x1a ∷ 0x2d ∷ 0x3c ∷ 0x40 ∷ [] }
    ensures global { EFI_GLOBAL_VARIABLE.bytes ≡ 0x61 ∷ 0xdf ∷ 0xe4 ∷ 0x8b ∷ 0xca ∷ 0x93 ∷ 0xd2
        ∷ 0x11 ∷ 0xaa ∷ 0x0d ∷ 0x00 ∷ 0xe0 ∷ 0x98 ∷ 0x03 ∷ 0x2b ∷ 0x8c ∷ [] }
    ensures report { EFI_CAPSULE_REPORT_GUID.bytes ≡ 0x46 ∷ 0x8c ∷ 0xb6 ∷ 0x39 ∷ 0xfb ∷ 0xf7 ∷ 0x1b
        ∷ 0x44 ∷ 0xb6 ∷ 0xec ∷ 0x16 ∷ 0xb0 ∷ 0xf6 ∷ 0x98 ∷ 0x21 ∷ 0xf3 ∷ [] }
    ensures devices { (name_of (Device 0) ≡ codes "Dev0") × (name_of (Device 15) ≡ codes "DevF") }
    ensures stages { (name_of (Stage 0) ≡ codes "Stage0") × (name_of (Stage 7) ≡ codes "Stage7") }
    ensures results { name_of (Outcome 0x01AF) ≡ codes "Capsule01AF" }
    ensures attributes { (attributes_of (Device 0) ≡ 3) × (attributes_of OsIndications ≡ 7) }
    ensures guids { (guid_of (Device 0) ≡ PLATFORM_GUID)
        × ((guid_of OsIndications ≡ EFI_GLOBAL_VARIABLE)
        × (guid_of (Outcome 0) ≡ EFI_CAPSULE_REPORT_GUID)) }
{}

/// The fixed numbers of the spellings.
pub fn fixed_sizes_are()
    ensures sizes { (DEVICE_RECORD_BYTES ≡ 96) × ((PROGRESS_ENTRY_BYTES ≡ 12)
        × ((PAIR_BYTES ≡ 16) × (RESULT_NAME_BYTES ≡ 22))) }
    ensures stages { MAX_STAGE_VARIABLES ≡ 8 }
    ensures asked { OS_INDICATIONS_FILE_CAPSULE_DELIVERY_SUPPORTED ≡ 4 }
{}
