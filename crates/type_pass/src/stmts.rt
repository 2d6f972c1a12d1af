//! The first fault of statements. The recursion goes down the tree, which the reader bounds; blocks
//! are lists.

ghost use Rattle.std.specs.Prelude.{◌≡◌, flat_map, IfOk};
ghost use Rattle.type_pass.specs.Commands.{stmt_faults, if_faults, else_faults};
ghost use Rattle.type_pass.specs.Faults.{earlier, first};

use crate::commands::{
    assign_fault, call_fault, condition_fault, guard_fault, invariants_fault, names_fault, told_if,
};
use crate::fault::{TypeFault, TypeKind};
use crate::known::{Known, Locals};
use bpl_ast::{Else, If, Stmt};
use std::alloc::{AllocError, Global};

/// The first fault of a statement, unless one that was found before it is told first.
#[cycle(stmts)]
#[tactic(auto, using(crate::proofs::CommandLaws::statements))]
pub fn stmt_fault(
    alloc: Global,
    known: &Known,
    scope: &Locals,
    stmt: &Stmt,
    found: Option<TypeFault>,
) -> Result<Option<TypeFault>, AllocError>
    ensures { IfOk result (λ answer. answer ≡ earlier found (first (stmt_faults known.now scope.now stmt.now))) }
{
    match stmt {
        Stmt::Label { .. } => Ok(found),
        Stmt::Assert { condition, .. } => Ok(condition_fault(known, scope, condition, found)),
        Stmt::Assume { condition, .. } => Ok(condition_fault(known, scope, condition, found)),
        Stmt::Havoc { names, .. } => Ok(names_fault(known, scope, names.as_slice(), found)),
        Stmt::Goto { at, labels, .. } => {
            Ok(told_if(found, labels.len() == 0, *at, TypeKind::Arity))
        }
        Stmt::Return { .. } => Ok(found),
        Stmt::Break { .. } => Ok(found),
        Stmt::Assign {
            at,
            targets,
            values,
        } => assign_fault(
            alloc,
            known,
            scope,
            *at,
            targets.as_slice(),
            values.as_slice(),
            found,
        ),
        Stmt::Call {
            outs,
            procedure,
            arguments,
            ..
        } => call_fault(
            alloc,
            known,
            scope,
            outs.as_slice(),
            procedure,
            arguments.as_slice(),
            found,
        ),
        Stmt::If { inner } => if_fault(alloc, known, scope, inner, found),
        Stmt::While {
            guard,
            invariants,
            body,
            ..
        } => {
            let guarded = guard_fault(known, scope, guard, found);
            let so_far = invariants_fault(known, scope, invariants.as_slice(), guarded);
            stmts_fault(alloc, known, scope, body.as_slice(), so_far)
        }
    }
}

/// The same of statements in order.
#[cycle(stmts)]
pub fn stmts_fault(
    alloc: Global,
    known: &Known,
    scope: &Locals,
    stmts: &[Stmt],
    found: Option<TypeFault>,
) -> Result<Option<TypeFault>, AllocError>
    ensures { IfOk result (λ answer. answer ≡ earlier found (first (flat_map (stmt_faults known.now scope.now) stmts.now))) }
{
    let mut so_far = found;
    for stmt in stmts {
        so_far = stmt_fault(alloc, known, scope, stmt, so_far)?;
    }
    Ok(so_far)
}

// The same of an `if`.
#[cycle(stmts)]
fn if_fault(
    alloc: Global,
    known: &Known,
    scope: &Locals,
    inner: &If,
    found: Option<TypeFault>,
) -> Result<Option<TypeFault>, AllocError>
    ensures { IfOk result (λ answer. answer ≡ earlier found (first (if_faults known.now scope.now inner.now))) }
{
    let guarded = guard_fault(known, scope, &inner.guard, found);
    let so_far = stmts_fault(alloc, known, scope, inner.then.as_slice(), guarded)?;
    else_fault(alloc, known, scope, &inner.other, so_far)
}

// The same of what stands after `else`.
#[cycle(stmts)]
fn else_fault(
    alloc: Global,
    known: &Known,
    scope: &Locals,
    other: &Else,
    found: Option<TypeFault>,
) -> Result<Option<TypeFault>, AllocError>
    ensures { IfOk result (λ answer. answer ≡ earlier found (first (else_faults known.now scope.now other.now))) }
{
    match other {
        Else::Absent => Ok(found),
        Else::If { inner } => if_fault(alloc, known, scope, inner.get(), found),
        Else::Block { body } => stmts_fault(alloc, known, scope, body.as_slice(), found),
    }
}
