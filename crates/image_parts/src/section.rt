//! The dependency section behind the authentication data.

ghost use Rattle.std.specs.Prelude.{◌≡◌, ◌+◌, ◌≤◌, ◌<◌, ◌^◌, IfOk, IfErr, IsTrue, length};
ghost use Rattle.std.specs.Prelude.{option_map};
ghost use Rattle.image_parts.specs.Cuts.{dep_at};
ghost use Rattle.image_parts.specs.Refusals.{IsSectionRefusal};
ghost use Rattle.dep_code.specs.Refusals.{op_size, text_size};
ghost use Rattle.image_parts.specs.Section.{BeginsWithSection, BeginsWithSome, TakesSection};
ghost use Rattle.image_parts.specs.Support.{has_section};

use crate::support::has_section;
use crate::{PartFault, PartRefusal, PartWhy};
use dep_code::{DepRefusal, read_ops};
use std::alloc::Global;

/// The byte of the operation END.
const END: u8 = 0x0D;

/// How many bytes at the front are the section: none where none is due. The bytes begin at place
/// `start` of the image.
pub fn section_size(
    alloc: Global,
    rest: &[u8],
    start: usize,
    support: u64,
) -> Result<usize, PartRefusal>
    requires { start + length rest.now < 2 ^ 32 }
    ensures section { IfOk result (λ size. TakesSection (has_section support) rest.now size) }
    ensures within { IfOk result (λ size. size ≤ length rest.now) }
    ensures due { IfErr result (λ e. IsTrue (has_section support)) }
    ensures refused { IfErr result (λ e. IsSectionRefusal e rest.now start) }
{
    if !has_section(support) {
        return Ok(0);
    }
    due_section_size(alloc, rest, start)
}

/// How many bytes at the front are the section that is due.
fn due_section_size(alloc: Global, rest: &[u8], start: usize) -> Result<usize, PartRefusal>
    requires { start + length rest.now < 2 ^ 32 }
    ensures section { IfOk result (λ size. BeginsWithSection rest.now size) }
    ensures refused { IfErr result (λ e. IsSectionRefusal e rest.now start) }
{
    match read_ops(alloc, rest) {
        Ok((_, size)) => Ok(size),
        Err(DepRefusal::Dep(fault)) => Err(PartRefusal::Part(PartFault {
            at: start as u32 + fault.at,
            why: PartWhy::Dep(fault.why),
        })),
        Err(DepRefusal::Memory) => Err(PartRefusal::Memory),
    }
}

/// The section of this length, where one is due.
pub fn section_at(image: &[u8], start: usize, size: usize, support: u64) -> Option<&[u8]>
    requires { start + size ≤ length image.now }
    ensures { option_map (λ d. d.now) result ≡ dep_at image.now support start size }
{
    if !has_section(support) {
        return None;
    }
    Some(&image[start..start + size])
}

/// How long the section at the front is. It takes no memory.
pub fn section_length(bytes: &[u8]) -> usize
    requires { BeginsWithSome bytes.now }
    ensures section { BeginsWithSection bytes.now result }
    ensures within { result ≤ length bytes.now }
{
    let mut at = 0usize;
    while bytes[at] != END {
        at += op_size(&bytes[at..]);
    }
    at + 1
}

/// How many bytes the operation at the front takes.
fn op_size(rest: &[u8]) -> usize
    requires { 0 < length rest.now }
    ensures { result ≡ op_size rest.now }
{
    match rest[0] {
        0x00 => 17,
        0x02 => text_size(&rest[1..]) + 2,
        0x01 | 0x0E => 5,
        _ => 1,
    }
}

/// How many bytes stand before the first zero, or all where there is none.
fn text_size(bytes: &[u8]) -> usize
    ensures value { result ≡ text_size bytes.now }
    ensures within { result ≤ length bytes.now }
{
    bytes.iter().take_while(|b| **b != 0).count()
}
