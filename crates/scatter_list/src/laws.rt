//! What holds of scatter lists, whatever the memory is. Each law is the contract of a function
//! that does nothing.

ghost use Rattle.std.specs.Prelude.{◌≡◌, ◌%◌, ◌<◌, ◌≤◌, ℕ, List, length, None, Some, Ok, Err};
ghost use Rattle.std.specs.Prelude.{IsSome};
ghost use Rattle.bench_model.specs.declared.segment.Segment.{Segment};
ghost use Rattle.cu_base.specs.declared.limits.TheConstants.{MAX_CAPSULE_BYTES};
ghost use Rattle.scatter_list.specs.Coalesced.{coalesce_refusal, coalesced, coalesced_of};
ghost use Rattle.scatter_list.specs.Laid.{GivesBack, IsLaid, laid_count};
ghost use Rattle.scatter_list.specs.Walk.{walk};
ghost use Rattle.scatter_list.specs.declared.faults.CoalesceFault.{CoalesceFault};
ghost use Rattle.scatter_list.specs.declared.faults.ShapeFault.{ShapeFault};
ghost use Rattle.scatter_list.specs.declared.told.Shape.{Shape};

use crate::limits::{DESCRIPTOR_BYTES, MAX_DESCRIPTORS, MAX_STEPS};

/// The limits of a walk.
pub fn limits_are()
    ensures descriptors { MAX_DESCRIPTORS ≡ 65536 }
    ensures steps { MAX_STEPS ≡ 524288 }
    ensures descriptor { DESCRIPTOR_BYTES ≡ 16 }
{}

/// Each walk has an outcome.
pub fn walks_end()
    ensures { (memory : List Segment) (root : ℕ) → IsSome (walk memory root) }
{}

/// What a walk and then a join within the limit of a capsule file tell is what the list gives.
pub fn lists_are_walked_and_joined()
    ensures joined { (memory : List Segment) (s : Shape) → walk memory s.root ≡ Some (Ok s)
        → coalesce_refusal memory s MAX_CAPSULE_BYTES ≡ None
        → coalesced_of memory s.root ≡ Some (coalesced memory s) }
    ensures unjoined { (memory : List Segment) (s : Shape) (why : CoalesceFault)
        → walk memory s.root ≡ Some (Ok s)
        → coalesce_refusal memory s MAX_CAPSULE_BYTES ≡ Some why
        → coalesced_of memory s.root ≡ None }
    ensures shapeless { (memory : List Segment) (root : ℕ) (why : ShapeFault)
        → walk memory root ≡ Some (Err why) → coalesced_of memory root ≡ None }
{}

/// Where bytes and the list for them stand in memory, the list gives these bytes.
pub fn laid_lists_give_their_bytes()
    ensures gives { (memory : List Segment) (root base : ℕ) (bytes : List ℕ) (block : ℕ)
        → 0 < block → root % 8 ≡ 0 → laid_count (length bytes) block ≤ MAX_DESCRIPTORS
        → IsLaid memory root base bytes block
        → GivesBack memory root bytes (laid_count (length bytes) block) }
    ensures joined { (memory : List Segment) (root base : ℕ) (bytes : List ℕ) (block : ℕ)
        → 0 < block → root % 8 ≡ 0 → laid_count (length bytes) block ≤ MAX_DESCRIPTORS
        → IsLaid memory root base bytes block → length bytes ≤ MAX_CAPSULE_BYTES
        → coalesced_of memory root ≡ Some bytes }
{}
