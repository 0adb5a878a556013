//! What the definitions of a play come to. Each law is the contract of a function that does
//! nothing.

ghost use Rattle.std.specs.Prelude.{◌≡◌, ℕ, true, List, [], ◌∷◌, Some};
ghost use Rattle.cu_base.specs.Bytes.{IsBytes};
ghost use Rattle.capsule_grammar.specs.declared.value.Capsule.{Capsule};
ghost use Rattle.capsule_grammar.specs.Fits.{IsCapsule};
ghost use Rattle.capsule_grammar.specs.Spelling.{spelling};
ghost use Rattle.reset_play.specs.Samples.{sample_text, text_of, redelivery, lower_version};
ghost use Rattle.reset_play.specs.Samples.{refusals, wrapping, redelivery_lines};
ghost use Rattle.reset_play.specs.Samples.{lower_version_lines, refusals_lines, wrapping_lines};
ghost use Rattle.delivery_formats.specs.TrueFormats.{true_formats};
ghost use Rattle.reset_play.specs.Thin.{is_thin, thin_capsule};
ghost use Rattle.reset_play.specs.ThinCapsules.{IsThinCapsule};

/// The thin deliveries are the spellings of the thin capsules, and what a boot reads of one is the
/// one capsule that it spells.
pub fn thin_deliveries_are_capsules()
    ensures read { (bytes : List ℕ) → IsBytes bytes → is_thin bytes ≡ true
        → (c : Capsule) × IsCapsule c × IsThinCapsule c × (spelling c ≡ bytes) }
    ensures spelled { (c : Capsule) → IsCapsule c → IsThinCapsule c → is_thin (spelling c) ≡ true }
    ensures seen { (bytes : List ℕ) → is_thin bytes ≡ true
        → true_formats.capsules bytes ≡ Some (thin_capsule bytes ∷ []) }
{}

/// What the definitions say of four scripts on a board of one device is what these scripts are to
/// print: a file that is delivered again, a version below the floor, the checks in their order, and
/// results past the greatest number.
pub fn sample_plays()
    ensures redelivery { sample_text 15 redelivery ≡ text_of redelivery_lines }
    ensures lower_version { sample_text 15 lower_version ≡ text_of lower_version_lines }
    ensures refusals { sample_text 15 refusals ≡ text_of refusals_lines }
    ensures wrapping { sample_text 1 wrapping ≡ text_of wrapping_lines }
{}
