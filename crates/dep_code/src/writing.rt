//! The bytes of a section.

ghost use Rattle.std.specs.Prelude.{◌≡◌, ◌++◌, IfOk, OnOk};
ghost use Rattle.dep_code.specs.Operations.{op_bytes, opcode, section_bytes};
ghost use Rattle.dep_code.specs.Sections.{IsSection, ops_of};
ghost use Rattle.dep_code.specs.Tree.{Tree};

use crate::{Op, Ops};
use cu_base::{Blob, NoMemory, put_u32};
use std::alloc::Global;

/// The bytes of the section.
pub fn write_ops(alloc: Global, ops: &Ops) -> Result<Blob, NoMemory>
    ensures { IfOk result (λ bytes. (tree : Tree) × IsSection bytes (ops_of ops.now) tree) }
{
    write_all(alloc, ops.as_slice())
}

/// The bytes of operations, one behind another.
fn write_all(alloc: Global, ops: &[(u32, Op)]) -> Result<Blob, NoMemory>
    ensures { IfOk result (λ bytes. bytes ≡ section_bytes (ops_of ops.now)) }
{
    let mut out = Blob::new(alloc);
    for item in ops {
        put_op(&mut out, &item.1)?;
    }
    Ok(out)
}

/// Appends the bytes of an operation.
fn put_op(out: &mut Blob, op: &Op) -> Result<(), NoMemory>
    ensures { OnOk result (out.new ≡ out.old ++ op_bytes op.now) }
{
    out.push_slice(&[opcode(op)])?;
    match op {
        Op::PushGuid(guid) => out.push_slice(&guid.bytes)?,
        Op::PushVersion(number) | Op::DeclareLength(number) => put_u32(out, *number)?,
        Op::VersionStr(text) => {
            out.push_slice(text.as_slice())?;
            out.push_slice(&[0])?;
        }
        _ => {}
    }
    Ok(())
}

/// The byte of an operation.
fn opcode(op: &Op) -> u8
    ensures { result ≡ opcode op.now }
{
    match op {
        Op::PushGuid(_) => 0x00,
        Op::PushVersion(_) => 0x01,
        Op::VersionStr(_) => 0x02,
        Op::And => 0x03,
        Op::Or => 0x04,
        Op::Not => 0x05,
        Op::True => 0x06,
        Op::False => 0x07,
        Op::Eq => 0x08,
        Op::Gt => 0x09,
        Op::Gte => 0x0A,
        Op::Lt => 0x0B,
        Op::Lte => 0x0C,
        Op::End => 0x0D,
        Op::DeclareLength(_) => 0x0E,
    }
}
