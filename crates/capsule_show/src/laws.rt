//! The laws of the text: a capsule has one text, and each capsule of bytes has one.

ghost use Rattle.std.specs.Prelude.{◌≡◌, ℕ, List};
ghost use Rattle.cu_base.specs.Bytes.{IsBytes};
ghost use Rattle.capsule_grammar.specs.declared.value.Capsule.{Capsule};
ghost use Rattle.capsule_grammar.specs.Reading.{capsule_of};
ghost use Rattle.capsule_show.specs.ShowText.{HasBytes, ShowText};

/// A capsule has at most one text.
pub fn one_text()
    ensures { (c : Capsule) (a b : List ℕ) → ShowText c a → ShowText c b → a ≡ b }
{}

/// Each capsule whose update images are bytes has a text, and so each one that is read from bytes.
pub fn each_capsule_has_a_text()
    ensures any { (c : Capsule) → HasBytes c.body → (text : List ℕ) × ShowText c text }
    ensures read { (bytes : List ℕ) → IsBytes bytes →
        (text : List ℕ) × ShowText (capsule_of bytes) text }
{}
