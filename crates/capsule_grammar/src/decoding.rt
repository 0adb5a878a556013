//! Capsules that are read from bytes.

ghost use Rattle.std.specs.Prelude.{ℕ, IfOk};
ghost use Rattle.cu_base.specs.Refusals.{AnswersBy};
ghost use Rattle.capsule_grammar.specs.declared.value.Capsule.{Capsule};
ghost use Rattle.capsule_grammar.specs.Faults.{IsFound, told_by};
ghost use Rattle.capsule_grammar.specs.Fits.{BeginsWith};
ghost use Rattle.capsule_grammar.specs.Refusals.{refusal};

use crate::reading::read;
use crate::{Capsule, DecodeFault, check};
use std::alloc::Global;

/// The capsule at the front of the bytes, and its length (UEFI 2.10, 8.5.3 and 23.3.2). The bytes
/// behind it are not looked at. It is Refused exactly where `check` refuses the bytes, at the same
/// place for the same cause, and Memory where no room was left.
pub fn decode(alloc: Global, bytes: &[u8]) -> Result<(Capsule, usize), DecodeFault>
    ensures ok { IfOk result (λ x. BeginsWith x.0 x.1 bytes.now) }
    ensures only { (c : Capsule) (size : ℕ) → BeginsWith c size bytes.now → IsFound c size result }
    ensures refused { AnswersBy told_by result (refusal bytes.now) }
{
    decode_front(alloc, bytes)
}

/// The same, of which `only` follows.
fn decode_front(alloc: Global, bytes: &[u8]) -> Result<(Capsule, usize), DecodeFault>
    ensures ok { IfOk result (λ x. BeginsWith x.0 x.1 bytes.now) }
    ensures refused { AnswersBy told_by result (refusal bytes.now) }
{
    let size = check(bytes)?;
    let capsule = read(alloc, bytes)?;
    Ok((capsule, size))
}
