//! What the formats of the reference machine are, by the relations of the crates of formats. Each
//! law is the contract of a function that does nothing.

ghost use Rattle.std.specs.Prelude.{◌≡◌, ◌⊎◌, ◌↔◌, ℕ, false, List, ◌++◌, map, None, Some};
ghost use Rattle.bench_model.specs.declared.segment.Segment.{Segment};
ghost use Rattle.cu_base.specs.Bytes.{IsBytes};
ghost use Rattle.cu_base.specs.declared.guid.Guid.{Guid};
ghost use Rattle.dep_code.specs.declared.fault.DepWhy.{DepWhy};
ghost use Rattle.dep_code.specs.declared.op.Op.{Op};
ghost use Rattle.dep_code.specs.Refusals as dep;
ghost use Rattle.dep_code.specs.Sections.{IsSection};
ghost use Rattle.dep_code.specs.Tree.{Tree};
ghost use Rattle.dep_code.specs.Values.{IsAnswerOf};
ghost use Rattle.image_parts.specs.declared.fault.PartWhy.{PartWhy};
ghost use Rattle.image_parts.specs.Parts.{IsPartsOf};
ghost use Rattle.image_parts.specs.Refusals.{IsRefused};
ghost use Rattle.image_parts.specs.Values.{PartsValue};
ghost use Rattle.capsule_grammar.specs.BackToBack.{RefusedAll, SpellsAll};
ghost use Rattle.capsule_grammar.specs.declared.refusal.Why.{Why};
ghost use Rattle.capsule_grammar.specs.declared.value.Capsule.{Capsule};
ghost use Rattle.scatter_list.specs.Coalesced.{coalesced_of};
ghost use Rattle.reference_machine.specs.Laws.{KeepsLimits};
ghost use Rattle.delivery_formats.specs.Seen.{machine_capsule, machine_parts};
ghost use Rattle.delivery_formats.specs.TrueFormats.{true_formats};

/// The capsules of a delivery are those that its bytes spell back to back, as the machine sees
/// them. There are none exactly where the bytes are refused.
pub fn capsules_are_those_spelled()
    ensures some { (bytes : List ℕ) (capsules : List Capsule) → IsBytes bytes →
        SpellsAll capsules bytes →
        true_formats.capsules bytes ≡ Some (map machine_capsule capsules) }
    ensures none { (bytes : List ℕ) → IsBytes bytes →
        (true_formats.capsules bytes ≡ None)
        ↔ ((at : ℕ) × (why : Why) × RefusedAll bytes at why) }
{}

/// The parts of an image are those that it has by its support, as the machine sees them. There are
/// none exactly where the image is refused.
pub fn parts_are_those_of_the_image()
    ensures some { (image : List ℕ) (support : ℕ) (p : PartsValue) → IsBytes image →
        IsPartsOf image support p → true_formats.parts image support ≡ Some (machine_parts p) }
    ensures none { (image : List ℕ) (support : ℕ) → IsBytes image →
        (true_formats.parts image support ≡ None)
        ↔ ((at : ℕ) × (why : PartWhy) × IsRefused image support at why) }
{}

/// Versions satisfy a section as they satisfy its tree, whatever stands behind it. They satisfy
/// none that is refused.
pub fn sections_are_satisfied_by_their_trees()
    ensures some { (section rest : List ℕ) (ops : List Op) (tree : Tree)
        (versions : List (Guid × ℕ)) → IsBytes (section ++ rest) → IsSection section ops tree →
        IsAnswerOf ops versions (true_formats.is_satisfied (section ++ rest) versions) }
    ensures none { (bytes : List ℕ) (at : ℕ) (why : DepWhy) (versions : List (Guid × ℕ)) →
        IsBytes bytes → dep.IsRefused bytes at why →
        true_formats.is_satisfied bytes versions ≡ false }
{}

/// The bytes behind a scatter list are those that a walk and a join give.
pub fn lists_are_coalesced()
    ensures { (memory : List Segment) (root : ℕ) →
        true_formats.coalesced memory root ≡ coalesced_of memory root }
{}

/// Every delivery keeps the limits under which a boot is short.
#[tactic(auto, using(crate::proofs::FormatLemmas::limits_kept))]
pub fn deliveries_keep_limits()
    ensures { KeepsLimits true_formats }
{}
