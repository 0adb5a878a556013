//! The laws of sections: bytes begin with one section, or are refused at one place for one cause,
//! and never both. Operations that are typed on the stack and leave one truth value are the postfix
//! form of one tree.

ghost use Rattle.std.specs.Prelude.{◌≡◌, ◌<◌, ◌⊎◌, ℕ, List, ◌++◌, IsTrue};
ghost use Rattle.cu_base.specs.Bytes.{IsBytes};
ghost use Rattle.dep_code.specs.declared.fault.DepWhy.{DepWhy};
ghost use Rattle.dep_code.specs.declared.limits.TheConstants.{MAX_SECTION_BYTES};
ghost use Rattle.dep_code.specs.declared.op.Op.{Op};
ghost use Rattle.dep_code.specs.Refusals.{IsRefused};
ghost use Rattle.dep_code.specs.Sections.{IsSection, StandsAtFront};
ghost use Rattle.dep_code.specs.Tree.{Tree};
ghost use Rattle.dep_code.specs.Trees.{IsTreeOf};
ghost use Rattle.dep_code.specs.Typing.{leaves_one_truth};

/// The limit of a section.
pub fn limits_are()
    ensures { MAX_SECTION_BYTES ≡ 4096 }
{}

/// One section has one list of operations and one tree, and no section begins another.
pub fn one_section()
    ensures { (a b rest more : List ℕ) (ops others : List Op) (tree other : Tree) →
        IsSection a ops tree → IsSection b others other → a ++ rest ≡ b ++ more →
        (a ≡ b) × (ops ≡ others) × (tree ≡ other) }
{}

/// Bytes begin with a section or are refused.
pub fn section_or_refused()
    ensures { (bytes : List ℕ) → IsBytes bytes →
        ((items : List (ℕ × Op)) × (size : ℕ) × StandsAtFront bytes items size)
        ⊎ ((at : ℕ) × (why : DepWhy) × IsRefused bytes at why) }
{}

/// Bytes that begin with a section are not refused.
pub fn never_both()
    ensures { (bytes rest : List ℕ) (ops : List Op) (tree : Tree) (at : ℕ) (why : DepWhy) →
        IsSection bytes ops tree → IsRefused (bytes ++ rest) at why → ⊥ }
{}

/// Bytes are refused at one place for one cause.
pub fn one_refusal()
    ensures { (bytes : List ℕ) (at other : ℕ) (why cause : DepWhy) →
        IsRefused bytes at why → IsRefused bytes other cause → (at ≡ other) × (why ≡ cause) }
{}

/// Operations are the postfix form of one tree at most.
pub fn one_tree()
    ensures { (ops : List Op) (tree other : Tree) →
        IsTreeOf tree ops → IsTreeOf other ops → tree ≡ other }
{}

/// Operations leave one truth value on the stack of types exactly where they are the postfix form
/// of a tree.
pub fn typed_is_a_tree()
    ensures tree { (ops : List Op) → IsTrue (leaves_one_truth ops) →
        (tree : Tree) × IsTreeOf tree ops }
    ensures typed { (ops : List Op) (tree : Tree) →
        IsTreeOf tree ops → IsTrue (leaves_one_truth ops) }
{}
