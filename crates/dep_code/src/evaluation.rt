//! Whether a section is satisfied by versions.

ghost use Rattle.std.specs.Prelude.{◌≡◌, ◌∷◌, Bool, Some, IsSome, IsTrue, IfOk, OnOk};
ghost use Rattle.std.specs.List.{list_all};
ghost use Rattle.dep_code.specs.Evaluation.{compared_values, has_number, has_truth, knows};
ghost use Rattle.dep_code.specs.Evaluation.{negated_value, values_behind};
ghost use Rattle.dep_code.specs.Sections.{ArePlaced, ops_of};
ghost use Rattle.dep_code.specs.Tree.{Tree};
ghost use Rattle.dep_code.specs.Trees.{IsTreeOf};
ghost use Rattle.dep_code.specs.Values.{IsAnswerOf, holds, value, version_of};

use crate::stack::Stack;
use crate::{CompareKind, Op, Ops, Versions};
use cu_base::{Guid, NoMemory};
use std::alloc::Global;

/// What stands on the stack.
#[derive(Clone, Copy, Debug, PartialEq, Eq)]
pub enum Value {
    Number(u32),
    Truth(bool),
}

/// Whether every GUID that the section names is in the list, and its value is true. A GUID has the
/// version of its first pair.
pub fn eval(alloc: Global, ops: &Ops, versions: &Versions) -> Result<bool, NoMemory>
    ensures { IfOk result (λ answer. IsAnswerOf (ops_of ops.now) versions.now.items answer) }
{
    answer_of(alloc, ops.as_slice(), versions.as_slice())
}

/// The answer for operations that are a section.
fn answer_of(alloc: Global, ops: &[(u32, Op)], versions: &[(Guid, u32)]) -> Result<bool, NoMemory>
    requires { ArePlaced ops.now }
    ensures { IfOk result (λ answer. IsAnswerOf (ops_of ops.now) versions.now answer) }
{
    if !knows_all(ops, versions) {
        return Ok(false);
    }
    compute(alloc, ops, versions)
}

/// Whether every GUID that the operations name is in the list.
fn knows_all(ops: &[(u32, Op)], versions: &[(Guid, u32)]) -> bool
    ensures { result ≡ list_all (λ item. knows versions.now item.1) ops.now }
{
    ops.iter().all(|item| knows(versions, &item.1))
}

/// Whether the GUID that an operation names, if it names one, is in the list.
fn knows(versions: &[(Guid, u32)], op: &Op) -> bool
    ensures { result ≡ knows versions.now op.now }
{
    match op {
        Op::PushGuid(guid) => version_of(versions, guid).is_some(),
        _ => true,
    }
}

/// The version in the first pair of the GUID.
fn version_of(versions: &[(Guid, u32)], guid: &Guid) -> Option<u32>
    ensures { result ≡ version_of versions.now guid.now }
{
    versions
        .iter()
        .find(|pair| pair.0.bytes == guid.bytes)
        .map(|pair| pair.1)
}

/// The value of the section, whose GUIDs are in the list.
fn compute(alloc: Global, ops: &[(u32, Op)], versions: &[(Guid, u32)]) -> Result<bool, NoMemory>
    requires { ArePlaced ops.now }
    ensures { IfOk result (λ truth. (tree : Tree) ×
        IsTreeOf tree (ops_of ops.now) × (truth ≡ value versions.now tree)) }
{
    let mut stack = Stack::new(alloc);
    for item in ops {
        apply(&mut stack, versions, &item.1)?;
    }
    Ok(pop_truth(&mut stack))
}

/// What an operation computes of the values at the top.
fn apply(stack: &mut Stack<Value>, versions: &[(Guid, u32)], op: &Op) -> Result<(), NoMemory>
    requires { IsSome (values_behind versions.now op.now stack.old) }
    ensures { OnOk result (values_behind versions.now op.now stack.old ≡ Some stack.new) }
{
    match op {
        Op::PushGuid(guid) => {
            let version = version_of(versions, guid).unwrap_or(0);
            stack.push(Value::Number(version))
        }
        Op::PushVersion(version) => stack.push(Value::Number(*version)),
        Op::VersionStr(_) | Op::End | Op::DeclareLength(_) => Ok(()),
        Op::True => stack.push(Value::Truth(true)),
        Op::False => stack.push(Value::Truth(false)),
        Op::Not => {
            let truth = pop_truth(stack);
            stack.push(Value::Truth(!truth))
        }
        Op::And => {
            let left = pop_truth(stack);
            let right = pop_truth(stack);
            stack.push(Value::Truth(left && right))
        }
        Op::Or => {
            let left = pop_truth(stack);
            let right = pop_truth(stack);
            stack.push(Value::Truth(left || right))
        }
        Op::Eq => compare(stack, CompareKind::Eq),
        Op::Gt => compare(stack, CompareKind::Gt),
        Op::Gte => compare(stack, CompareKind::Gte),
        Op::Lt => compare(stack, CompareKind::Lt),
        Op::Lte => compare(stack, CompareKind::Lte),
    }
}

/// Compares the two numbers at the top, of which the upper is the left one.
fn compare(stack: &mut Stack<Value>, kind: CompareKind) -> Result<(), NoMemory>
    requires { IsSome (compared_values kind stack.old) }
    ensures { OnOk result (compared_values kind stack.old ≡ Some stack.new) }
{
    let left = pop_number(stack);
    let right = pop_number(stack);
    stack.push(Value::Truth(holds(kind, left, right)))
}

/// Whether the comparison holds of a left and a right number.
fn holds(kind: CompareKind, left: u32, right: u32) -> bool
    ensures { result ≡ holds kind left right }
{
    match kind {
        CompareKind::Eq => left == right,
        CompareKind::Gt => left > right,
        CompareKind::Gte => left >= right,
        CompareKind::Lt => left < right,
        CompareKind::Lte => left <= right,
    }
}

/// Takes the truth value at the top.
fn pop_truth(stack: &mut Stack<Value>) -> bool
    requires { IsTrue (has_truth stack.old) }
    ensures { stack.old ≡ Value.Truth result ∷ stack.new }
{
    match stack.pop() {
        Some(Value::Truth(truth)) => truth,
        _ => unreachable!(),
    }
}

/// Takes the number at the top.
fn pop_number(stack: &mut Stack<Value>) -> u32
    requires { IsTrue (has_number stack.old) }
    ensures { stack.old ≡ Value.Number result ∷ stack.new }
{
    match stack.pop() {
        Some(Value::Number(number)) => number,
        _ => unreachable!(),
    }
}
