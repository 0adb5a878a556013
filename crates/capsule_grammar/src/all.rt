//! Capsules back to back.

ghost use Rattle.std.specs.Prelude.{◌+◌, ◌<◌, ◌^◌, IfOk, IfErr};
ghost use Rattle.capsule_grammar.specs.BackToBack.{SpellsAll, IsRefusalOfAll};
ghost use Rattle.capsule_grammar.specs.Faults.{IsBehind, IsBelow};

use crate::{Capsules, DecodeFault, Refusal, Why, decode};
use std::alloc::Global;

/// The most capsules that stand back to back.
pub const MAX_CAPSULES: u32 = 8;

/// The capsules that stand back to back, to the end of the bytes: one to eight. Places of a refusal
/// count from the start of the bytes. A ninth capsule is refused as TooManyCapsules at its place,
/// before it is read; no bytes are Short at 0.
pub fn decode_all(alloc: Global, bytes: &[u8]) -> Result<Capsules, DecodeFault>
    ensures ok { IfOk result (λ list. SpellsAll list.items bytes.now) }
    ensures refused { IfErr result (λ e. IsRefusalOfAll e bytes.now) }
{
    let mut capsules = Capsules::new(alloc);
    let mut at = 0usize;
    for _ in 0..MAX_CAPSULES {
        let (capsule, size) = match decode(alloc, &bytes[at..]) {
            Ok(found) => found,
            Err(fault) => return Err(behind(fault, at)),
        };
        capsules.push(capsule)?;
        at += size;
        if at == bytes.len() {
            return Ok(capsules);
        }
    }
    Err(DecodeFault::Refused(Refusal {
        at: at as u32,
        why: Why::TooManyCapsules,
    }))
}

/// The fault of a capsule that stands at a place.
fn behind(fault: DecodeFault, at: usize) -> DecodeFault
    requires place { at < 2 ^ 30 }
    requires small { IsBelow (2 ^ 31) fault }
    ensures { IsBehind at fault result }
{
    match fault {
        DecodeFault::Refused(refusal) => DecodeFault::Refused(Refusal {
            at: refusal.at + at as u32,
            why: refusal.why,
        }),
        DecodeFault::Memory => DecodeFault::Memory,
    }
}
