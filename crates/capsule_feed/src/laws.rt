//! The laws of what is told of a delivery.

ghost use Rattle.std.specs.Prelude.{◌≡◌, ℕ, List, length, None};
ghost use Rattle.cu_base.specs.Bytes.{IsBytes};
ghost use Rattle.capsule_feed.specs.Told.{told_of, spans_of, joined, total_length, IsToldRight};

/// What is told of a delivery is its refusal as capsules back to back. One of which nothing is told
/// is capsules back to back.
pub fn told_is_the_refusal()
    ensures { (whole : List ℕ) → IsBytes whole → IsToldRight whole (told_of whole) }
{}

/// The spans of a delivery of which nothing is told, joined, are the delivery, and their lengths are
/// its length in sum.
pub fn spans_are_the_whole()
    ensures joined { (whole : List ℕ) → IsBytes whole → told_of whole ≡ None →
        joined whole (spans_of whole) ≡ whole }
    ensures size { (whole : List ℕ) → IsBytes whole → told_of whole ≡ None →
        total_length (spans_of whole) ≡ length whole }
{}
