//! The tree of a section.

ghost use Rattle.std.specs.Prelude.{◌≡◌, ◌∷◌, Some, IsSome, IsTrue, IfOk, OnOk};
ghost use Rattle.dep_code.specs.Building.{Operand, Subtree, compared_by, entries_behind};
ghost use Rattle.dep_code.specs.Building.{entries_seen, has_operand, has_tree, negated};
ghost use Rattle.dep_code.specs.Sections.{ArePlaced, ops_of};
ghost use Rattle.dep_code.specs.Trees.{IsTreeOf, seen};

use crate::stack::Stack;
use crate::{CompareKind, Compared, DepTree, Op, Ops};
use cu_base::NoMemory;
use std::alloc::Global;

/// What waits on the stack for its operation: an operand of a comparison, or a tree.
#[derive(Drop)]
pub enum Entry {
    Operand(Compared),
    Subtree(DepTree),
}

/// The tree of the section.
pub fn tree_of(alloc: Global, ops: &Ops) -> Result<DepTree, NoMemory>
    ensures { IfOk result (λ tree. IsTreeOf (seen tree) (ops_of ops.now)) }
{
    build(alloc, ops.as_slice())
}

/// The tree of operations that are a section.
fn build(alloc: Global, ops: &[(u32, Op)]) -> Result<DepTree, NoMemory>
    requires { ArePlaced ops.now }
    ensures { IfOk result (λ tree. IsTreeOf (seen tree) (ops_of ops.now)) }
{
    let mut stack = Stack::new(alloc);
    for item in ops {
        apply(alloc, &mut stack, &item.1)?;
    }
    Ok(pop_tree(&mut stack))
}

/// What an operation builds of the entries at the top.
fn apply(alloc: Global, stack: &mut Stack<Entry>, op: &Op) -> Result<(), NoMemory>
    requires { IsSome (entries_behind op.now (entries_seen stack.old)) }
    ensures { OnOk result
        (entries_behind op.now (entries_seen stack.old) ≡ Some (entries_seen stack.new)) }
{
    match op {
        Op::PushGuid(guid) => stack.push(Entry::Operand(Compared::Guid(*guid))),
        Op::PushVersion(version) => stack.push(Entry::Operand(Compared::Version(*version))),
        Op::VersionStr(_) | Op::End | Op::DeclareLength(_) => Ok(()),
        Op::True => stack.push(Entry::Subtree(DepTree::True)),
        Op::False => stack.push(Entry::Subtree(DepTree::False)),
        Op::Not => negate(alloc, stack),
        Op::And => {
            let left = boxed(alloc, pop_tree(stack))?;
            let right = boxed(alloc, pop_tree(stack))?;
            stack.push(Entry::Subtree(DepTree::And(left, right)))
        }
        Op::Or => {
            let left = boxed(alloc, pop_tree(stack))?;
            let right = boxed(alloc, pop_tree(stack))?;
            stack.push(Entry::Subtree(DepTree::Or(left, right)))
        }
        Op::Eq => compare(stack, CompareKind::Eq),
        Op::Gt => compare(stack, CompareKind::Gt),
        Op::Gte => compare(stack, CompareKind::Gte),
        Op::Lt => compare(stack, CompareKind::Lt),
        Op::Lte => compare(stack, CompareKind::Lte),
    }
}

/// Negates the tree at the top.
fn negate(alloc: Global, stack: &mut Stack<Entry>) -> Result<(), NoMemory>
    requires { IsSome (negated (entries_seen stack.old)) }
    ensures { OnOk result (negated (entries_seen stack.old) ≡ Some (entries_seen stack.new)) }
{
    let tree = boxed(alloc, pop_tree(stack))?;
    stack.push(Entry::Subtree(DepTree::Not(tree)))
}

/// Compares the two operands at the top, of which the upper is the left one.
fn compare(stack: &mut Stack<Entry>, kind: CompareKind) -> Result<(), NoMemory>
    requires { IsSome (compared_by kind (entries_seen stack.old)) }
    ensures { OnOk result
        (compared_by kind (entries_seen stack.old) ≡ Some (entries_seen stack.new)) }
{
    let left = pop_operand(stack);
    let right = pop_operand(stack);
    stack.push(Entry::Subtree(DepTree::Compare(kind, left, right)))
}

/// Takes the tree at the top.
fn pop_tree(stack: &mut Stack<Entry>) -> DepTree
    requires { IsTrue (has_tree (entries_seen stack.old)) }
    ensures { entries_seen stack.old ≡ Subtree (seen result) ∷ entries_seen stack.new }
{
    match stack.pop() {
        Some(Entry::Subtree(tree)) => tree,
        _ => unreachable!(),
    }
}

/// Takes the operand at the top.
fn pop_operand(stack: &mut Stack<Entry>) -> Compared
    requires { IsTrue (has_operand (entries_seen stack.old)) }
    ensures { entries_seen stack.old ≡ Operand result ∷ entries_seen stack.new }
{
    match stack.pop() {
        Some(Entry::Operand(operand)) => operand,
        _ => unreachable!(),
    }
}

/// The tree in a box of its own.
fn boxed(alloc: Global, tree: DepTree) -> Result<Box<DepTree>, NoMemory>
    ensures { IfOk result (λ b. b.value ≡ tree) }
{
    match Box::new(alloc, tree) {
        Ok(b) => Ok(b),
        Err(_) => Err(NoMemory),
    }
}
