//! Sections read from bytes.

ghost use Rattle.std.specs.Prelude.{◌≡◌, ◌<◌, ℕ, List, IfOk, IfErr, length};
ghost use Rattle.std.specs.List.{list_all};
ghost use Rattle.cu_base.specs.Refusals.{first_refusal};
ghost use Rattle.dep_code.specs.declared.op.Op.{Op};
ghost use Rattle.dep_code.specs.Operations.{section_bytes};
ghost use Rattle.dep_code.specs.Refusals.{Answers, IsFound, IsRefusalOf, section_rows};
ghost use Rattle.dep_code.specs.Sections.{StandsAtFront, may_declare, ops_of, placed};

use crate::reading::read_list;
use crate::typing::check_types;
use crate::{DepRefusal, DepWhy, Op, Ops};
use std::alloc::Global;

/// The section at the front of the bytes, and its length (UEFI 2.10, 23.2). The bytes behind it are
/// not looked at. Dep tells the first wrong place, Memory that no room was left.
pub fn read_ops(alloc: Global, bytes: &[u8]) -> Result<(Ops, usize), DepRefusal>
    ensures ok { IfOk result (λ x. StandsAtFront bytes.now x.0 x.1) }
    ensures only { (items : List (ℕ × Op)) (size : ℕ) →
        StandsAtFront bytes.now items size → IsFound items size result }
    ensures refused { IfErr result (λ e. IsRefusalOf e bytes.now) }
{
    read_section(alloc, bytes)
}

/// The same, of which `only` follows.
fn read_section(alloc: Global, bytes: &[u8]) -> Result<(Ops, usize), DepRefusal>
    ensures ok { IfOk result (λ x. StandsAtFront bytes.now x.0 x.1) }
    ensures refused { IfErr result (λ e. IsRefusalOf e bytes.now) }
{
    let (list, size) = read_list(alloc, bytes)?;
    check_section(alloc, list.as_slice(), size)?;
    Ok((Ops::of(list), size))
}

/// Whether operations up to END, of `size` bytes, keep the rules together, or the first wrong
/// place.
fn check_section(alloc: Global, ops: &[(u32, Op)], size: usize) -> Result<(), DepRefusal>
    requires size { size ≡ length (section_bytes (ops_of ops.now)) }
    requires places { ops.now ≡ placed 0 (ops_of ops.now) }
    requires some { 0 < length ops.now }
    ensures { Answers result (first_refusal (section_rows (ops_of ops.now))) }
{
    if !is_declared(ops, size) {
        return Err(DepRefusal::at(1, DepWhy::WrongDeclare));
    }
    check_types(alloc, ops)
}

/// Whether each length that is declared is this.
fn is_declared(ops: &[(u32, Op)], size: usize) -> bool
    ensures { result ≡ list_all (λ item. may_declare size item.1) ops.now }
{
    ops.iter().all(|item| may_declare(size, &item.1))
}

/// Whether the number that an operation declares, if it declares one, is this.
fn may_declare(size: usize, op: &Op) -> bool
    ensures { result ≡ may_declare size op.now }
{
    match op {
        Op::DeclareLength(declared) => *declared as usize == size,
        _ => true,
    }
}
