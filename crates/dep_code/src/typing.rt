//! Whether each operation finds its operands on the stack, and END finds one truth value there.

ghost use Rattle.std.specs.Prelude.{◌≡◌, ℕ, ◌<◌, List, [], ◌∷◌, ◌++◌, length, None, Some, IfOk};
ghost use Rattle.std.specs.Prelude.{OnOk, MatchBool};
ghost use Rattle.cu_base.specs.Refusals.{first_refusal};
ghost use Rattle.dep_code.specs.declared.kind.Kind.{Kind};
ghost use Rattle.dep_code.specs.Refusals.{Answers, type_rows};
ghost use Rattle.dep_code.specs.Sections.{ops_of, placed};
ghost use Rattle.dep_code.specs.Typing.{takes, gives, without, stack_behind, is_one_truth};

use crate::kind::Kind;
use crate::stack::Stack;
use crate::{DepRefusal, DepWhy, Op};
use cu_base::NoMemory;
use std::alloc::Global;

/// Whether the operations up to END have their types, or the first wrong place.
pub fn check_types(alloc: Global, ops: &[(u32, Op)]) -> Result<(), DepRefusal>
    requires places { ops.now ≡ placed 0 (ops_of ops.now) }
    requires some { 0 < length ops.now }
    ensures { Answers result (first_refusal (type_rows (ops_of ops.now))) }
{
    let mut stack = Stack::new(alloc);
    for item in ops {
        if !apply(&mut stack, &item.1)? {
            return Err(DepRefusal::at(item.0, DepWhy::BadTypes));
        }
    }
    if !is_one_truth(stack) {
        return Err(DepRefusal::at(ops[ops.len() - 1].0, DepWhy::NotOneBool));
    }
    Ok(())
}

/// What an operation does to the stack, and whether it finds its operands there.
fn apply(stack: &mut Stack<Kind>, op: &Op) -> Result<bool, NoMemory>
    ensures { IfOk result (λ there. MatchBool there
        (stack_behind op.now stack.old ≡ Some stack.new)
        (stack_behind op.now stack.old ≡ None)) }
{
    if !take_operands(stack, op) {
        return Ok(false);
    }
    push_result(stack, op)?;
    Ok(true)
}

/// Takes the operands of an operation, if they are there.
fn take_operands(stack: &mut Stack<Kind>, op: &Op) -> bool
    ensures { MatchBool result
        (without (takes op.now) stack.old ≡ Some stack.new)
        (without (takes op.now) stack.old ≡ None) }
{
    match op {
        Op::Not => take(stack, Kind::Truth),
        Op::And | Op::Or => take_two(stack, Kind::Truth),
        Op::Eq | Op::Gt | Op::Gte | Op::Lt | Op::Lte => take_two(stack, Kind::Number),
        _ => true,
    }
}

/// Takes two values of this kind, if they are at the top.
fn take_two(stack: &mut Stack<Kind>, kind: Kind) -> bool
    ensures { MatchBool result
        (without (kind ∷ kind ∷ []) stack.old ≡ Some stack.new)
        (without (kind ∷ kind ∷ []) stack.old ≡ None) }
{
    if !take(stack, kind) {
        return false;
    }
    take(stack, kind)
}

/// Takes a value of this kind, if it is at the top.
fn take(stack: &mut Stack<Kind>, kind: Kind) -> bool
    ensures { MatchBool result
        (stack.old ≡ kind ∷ stack.new)
        ((more : List Kind) → without (kind ∷ more) stack.old ≡ None) }
{
    match stack.pop() {
        Some(top) => top == kind,
        None => false,
    }
}

/// Leaves what an operation gives.
fn push_result(stack: &mut Stack<Kind>, op: &Op) -> Result<(), NoMemory>
    ensures { OnOk result (stack.new ≡ gives op.now ++ stack.old) }
{
    match op {
        Op::PushGuid(_) | Op::PushVersion(_) => stack.push(Kind::Number),
        Op::VersionStr(_) | Op::End | Op::DeclareLength(_) => Ok(()),
        _ => stack.push(Kind::Truth),
    }
}

/// Whether one truth value is there, and nothing beside it.
fn is_one_truth(mut stack: Stack<Kind>) -> bool
    ensures { result ≡ is_one_truth (Some stack) }
{
    if !take(&mut stack, Kind::Truth) {
        return false;
    }
    stack.is_empty()
}
