//! The operations at the front of bytes, one by one, up to END.

ghost use Rattle.std.specs.Prelude.{◌≡◌, ◌==◌, ℕ, ◌+◌, ◌≤◌, ◌<◌, [], ◌∷◌, IfOk, IfErr, length};
ghost use Rattle.std.specs.Prelude.{take, true};
ghost use Rattle.cu_base.specs.Refusals.{first_refusal};
ghost use Rattle.dep_code.specs.Operations.{HasForm, is_end, op_bytes};
ghost use Rattle.dep_code.specs.Reading.{EndsAt};
ghost use Rattle.dep_code.specs.Refusals.{Answers, IsRefusalOf, first_byte, op_size, place_rows};
ghost use Rattle.dep_code.specs.Refusals.{text_size};

use crate::{DepRefusal, DepWhy, MAX_SECTION_BYTES, Op};
use cu_base::{Blob, Items, NoMemory, guid_at, u32_at};
use std::alloc::Global;

/// The place of the operand, behind the byte of its operation.
const OPERAND_AT: usize = 1;

/// The operations up to END, with their places, and the length of their bytes.
pub fn read_list(alloc: Global, bytes: &[u8]) -> Result<(Items<(u32, Op)>, usize), DepRefusal>
    ensures ok { IfOk result (λ x. EndsAt bytes.now x.0.items x.1) }
    ensures refused { IfErr result (λ e. IsRefusalOf e bytes.now) }
{
    let mut list = Items::new(alloc);
    let mut at = 0usize;
    loop {
        let rest = &bytes[at..];
        let size = check_place(rest, at as u32)?;
        let op = read_op(alloc, rest, size)?;
        let ends = is_end(&op);
        list.push((at as u32, op))?;
        at += size;
        if ends {
            return Ok((list, at));
        }
    }
}

/// Whether the operation is END.
fn is_end(op: &Op) -> bool
    ensures { result ≡ is_end op.now }
{
    matches!(op, Op::End)
}

/// How many bytes the operation at a place takes, or what is wrong there. `rest` is the bytes from
/// there on.
fn check_place(rest: &[u8], at: u32) -> Result<usize, DepRefusal>
    requires { at ≤ MAX_SECTION_BYTES }
    ensures rows { Answers result (first_refusal (place_rows rest.now at)) }
    ensures size { IfOk result (λ n. n ≡ op_size rest.now) }
{
    if at == MAX_SECTION_BYTES {
        return Err(DepRefusal::at(at, DepWhy::TooLong));
    }
    if rest.is_empty() {
        return Err(DepRefusal::at(at, DepWhy::NoEnd));
    }
    if rest[0] > 0x0E {
        return Err(DepRefusal::at(at, DepWhy::BadOpcode));
    }
    let size = op_size(rest);
    if size > rest.len() {
        return Err(DepRefusal::at(at, DepWhy::CutOperand));
    }
    if at as usize + size > MAX_SECTION_BYTES as usize {
        return Err(DepRefusal::at(at, DepWhy::TooLong));
    }
    if rest[0] == 0x0E && at > 0 {
        return Err(DepRefusal::at(at, DepWhy::LateDeclare));
    }
    Ok(size)
}

/// How many bytes the operation at the front takes. A text without a zero byte takes more than
/// there are.
fn op_size(rest: &[u8]) -> usize
    requires { 0 < length rest.now }
    ensures { result ≡ op_size rest.now }
{
    match rest[0] {
        0x00 => 17,
        0x02 => text_size(&rest[1..]) + 2,
        0x01 | 0x0E => 5,
        _ => 1,
    }
}

/// How many bytes stand before the first zero, or all where there is none.
fn text_size(bytes: &[u8]) -> usize
    ensures value { result ≡ text_size bytes.now }
    ensures within { result ≤ length bytes.now }
{
    bytes.iter().take_while(|b| **b != 0).count()
}

/// The operation at the front, which takes `size` bytes.
fn read_op(alloc: Global, rest: &[u8], size: usize) -> Result<Op, NoMemory>
    requires some { 0 < length rest.now }
    requires known { first_byte rest.now ≤ 0x0E }
    requires size { size ≡ op_size rest.now }
    requires there { size ≤ length rest.now }
    ensures bytes { IfOk result (λ op. op_bytes op ≡ take size rest.now) }
    ensures form { IfOk result (λ op. HasForm op) }
{
    match rest[0] {
        0x00 => Ok(Op::PushGuid(guid_at(rest, OPERAND_AT))),
        0x01 => Ok(Op::PushVersion(u32_at(rest, OPERAND_AT))),
        0x02 => Ok(Op::VersionStr(Blob::from_slice(alloc, &rest[OPERAND_AT..size - 1])?)),
        0x0E => Ok(Op::DeclareLength(u32_at(rest, OPERAND_AT))),
        code => Ok(plain_op(code)),
    }
}

/// The operation of this byte, which has no operand.
fn plain_op(code: u8) -> Op
    requires low { 0x03 ≤ code }
    requires high { code ≤ 0x0D }
    ensures bytes { op_bytes result ≡ code ∷ [] }
    ensures form { HasForm result }
{
    match code {
        0x03 => Op::And,
        0x04 => Op::Or,
        0x05 => Op::Not,
        0x06 => Op::True,
        0x07 => Op::False,
        0x08 => Op::Eq,
        0x09 => Op::Gt,
        0x0A => Op::Gte,
        0x0B => Op::Lt,
        0x0C => Op::Lte,
        _ => Op::End,
    }
}
