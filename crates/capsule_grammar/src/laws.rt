//! The laws of the grammar: one capsule has one spelling, no spelling begins another, and each list
//! of bytes begins with one capsule or is refused at one place for one cause, never both. The same
//! holds of capsules back to back.

ghost use Rattle.std.specs.Prelude.{◌≡◌, ◌≤◌, ◌⊎◌, ◌↔◌, ℕ, List, [], ◌++◌, length, None, Some};
ghost use Rattle.cu_base.specs.Bytes.{IsBytes};
ghost use Rattle.capsule_grammar.specs.declared.all.TheConstants.{MAX_CAPSULES};
ghost use Rattle.capsule_grammar.specs.declared.parts.TheConstants.{OFFSET_BYTES};
ghost use Rattle.capsule_grammar.specs.declared.refusal.Why.{Why};
ghost use Rattle.capsule_grammar.specs.declared.value.Capsule.{Capsule};
ghost use Rattle.capsule_grammar.specs.BackToBack.{RefusedAll, SpellsAll};
ghost use Rattle.capsule_grammar.specs.CapsulesOf.{capsules_of};
ghost use Rattle.capsule_grammar.specs.Spelling.{spelling};
ghost use Rattle.capsule_grammar.specs.Fits.{IsCapsule};
ghost use Rattle.capsule_grammar.specs.Fronts.{IsAccepted, IsRefusedOnce};

/// The limit of capsules back to back, and the bytes of an offset in the offset list.
pub fn limits_are()
    ensures { (MAX_CAPSULES ≡ 8) × (OFFSET_BYTES ≡ 8) }
{}

/// A list of bytes spells at most one capsule, and no spelling is a proper prefix of another.
pub fn one_spelling()
    ensures same { (a b : Capsule) → IsCapsule a → IsCapsule b →
        spelling a ≡ spelling b → a ≡ b }
    ensures no_prefix { (a b : Capsule) (rest : List ℕ) → IsCapsule a → IsCapsule b →
        spelling a ++ rest ≡ spelling b → (a ≡ b) × (rest ≡ []) }
{}

/// Bytes begin with the one capsule that is read from them, or with none and are refused at one
/// place for one cause, and never both.
pub fn begins_or_is_refused()
    ensures { (bytes : List ℕ) → IsBytes bytes → IsAccepted bytes ⊎ IsRefusedOnce bytes }
{}

/// Bytes are the spellings of one list of capsules back to back at most.
pub fn one_list()
    ensures { (a b : List Capsule) (bytes : List ℕ) →
        SpellsAll a bytes → SpellsAll b bytes → a ≡ b }
{}

/// Bytes are one to eight capsules back to back, or are refused.
pub fn all_or_refused()
    ensures { (bytes : List ℕ) → IsBytes bytes →
        ((capsules : List Capsule) × SpellsAll capsules bytes)
        ⊎ ((at : ℕ) × (why : Why) × RefusedAll bytes at why) }
{}

/// Bytes that are capsules back to back are not refused.
pub fn never_both()
    ensures { (capsules : List Capsule) (bytes : List ℕ) (at : ℕ) (why : Why) →
        SpellsAll capsules bytes → RefusedAll bytes at why → ⊥ }
{}

/// Bytes are refused as capsules back to back at one place for one cause.
pub fn one_refusal()
    ensures { (bytes : List ℕ) (at other : ℕ) (why cause : Why) →
        RefusedAll bytes at why → RefusedAll bytes other cause → (at ≡ other) × (why ≡ cause) }
{}

/// The capsules of a delivery as a function: it gives these capsules exactly where the bytes are
/// their spellings back to back, and None exactly where the bytes are refused. Whatever the numbers
/// are, it gives at most eight.
pub fn capsules_are_a_function()
    ensures some { (bytes : List ℕ) (capsules : List Capsule) → IsBytes bytes →
        (capsules_of bytes ≡ Some capsules) ↔ SpellsAll capsules bytes }
    ensures none { (bytes : List ℕ) → IsBytes bytes →
        (capsules_of bytes ≡ None) ↔ ((at : ℕ) × (why : Why) × RefusedAll bytes at why) }
    ensures bound { (bytes : List ℕ) (capsules : List Capsule) →
        capsules_of bytes ≡ Some capsules → length capsules ≤ MAX_CAPSULES }
{}
