//! Typed statements. The recursion goes down the tree, which the reader bounds; blocks are lists.

ghost use Rattle.std.specs.Prelude.{◌≡◌, map, flat_map, IfOk, IsTrue};
ghost use Rattle.std.specs.List.{list_all};
ghost use Rattle.hy_val.specs.Exprs.{is_expr};
ghost use Rattle.type_pass.specs.Declarations.{functions};
ghost use Rattle.type_pass.specs.Scopes.{tables_of};
ghost use Rattle.bpl_type.specs.TypedOf.{guard_of, invariant_of};
ghost use Rattle.bpl_type.specs.WellMade.{guard_is, all_made, is_made, stmt_in, if_in, else_in};

use crate::program::{Program, expression, expressions, pairs, variables};
use crate::typed::{TypedInvariant, TypedStmt};
use bpl_ast::{Else, Guard, If, Invariant, Name, Stmt};
use hy_val::Expr as Nodes;
use sqlite_items::Items;
use std::alloc::{AllocError, Global};
use type_pass::known::Locals;

// ---- names

fn copy_name(alloc: Global, name: &Name) -> Result<Name, AllocError>
    ensures { IfOk result (λ n. n ≡ name.now) }
{
    Ok(Name {
        at: name.at,
        text: Items::from_slice(alloc, name.text.as_slice())?,
    })
}

fn copy_names(alloc: Global, names: &[Name]) -> Result<Items<Name>, AllocError>
    ensures { IfOk result (λ ns. ns ≡ names.now) }
{
    let mut copies = Items::new(alloc);
    for name in names {
        copies.push(copy_name(alloc, name)?)?;
    }
    Ok(copies)
}

fn copy_label(alloc: Global, label: &Option<Name>) -> Result<Option<Name>, AllocError>
    ensures { IfOk result (λ l. l ≡ label.now) }
{
    match label {
        None => Ok(None),
        Some(name) => Ok(Some(copy_name(alloc, name)?)),
    }
}

// ---- parts of statements

// The condition of an `if` or a `while`, or none for `*`.
fn typed_guard(
    alloc: Global,
    program: &Program,
    scope: &Locals,
    guard: &Guard,
) -> Result<Option<Nodes>, AllocError>
    requires { IsTrue (guard_is (guard_of (tables_of program.now.ast.now) (functions program.now.ast.now) scope.now guard.now)) }
    ensures { IfOk result (λ g. g ≡ guard_of (tables_of program.now.ast.now) (functions program.now.ast.now) scope.now guard.now) }
{
    match guard {
        Guard::Any { .. } => Ok(None),
        Guard::Condition { condition } => {
            Ok(Some(expression(alloc, program, scope, condition)?))
        }
    }
}

// The invariants of a `while`.
fn typed_invariants(
    alloc: Global,
    program: &Program,
    scope: &Locals,
    invariants: &[Invariant],
) -> Result<Items<TypedInvariant>, AllocError>
    requires { IsTrue (list_all (λ i. is_expr i.condition) (map (invariant_of (tables_of program.now.ast.now) (functions program.now.ast.now) scope.now) invariants.now)) }
    ensures { IfOk result (λ is. is ≡ map (invariant_of (tables_of program.now.ast.now) (functions program.now.ast.now) scope.now) invariants.now) }
{
    let mut made = Items::new(alloc);
    for invariant in invariants {
        let condition = expression(alloc, program, scope, &invariant.condition)?;
        made.push(TypedInvariant {
            free: invariant.free,
            condition,
        })?;
    }
    Ok(made)
}

// ---- statements

/// The typed form of a statement, whose expressions have sorts.
#[cycle(making)]
#[tactic(auto, using(crate::proofs::MakingEquations::statements))]
pub fn typed_stmt(
    alloc: Global,
    program: &Program,
    scope: &Locals,
    stmt: &Stmt,
) -> Result<TypedStmt, AllocError>
    requires { IsTrue (is_made (stmt_in program.now.ast.now scope.now stmt.now)) }
    ensures { IfOk result (λ s. s ≡ stmt_in program.now.ast.now scope.now stmt.now) }
{
    match stmt {
        Stmt::Label { name } => Ok(TypedStmt::Label {
            name: copy_name(alloc, name)?,
        }),
        Stmt::Assert { condition, .. } => Ok(TypedStmt::Assert {
            condition: expression(alloc, program, scope, condition)?,
        }),
        Stmt::Assume { condition, .. } => Ok(TypedStmt::Assume {
            condition: expression(alloc, program, scope, condition)?,
        }),
        Stmt::Havoc { names, .. } => Ok(TypedStmt::Havoc {
            vars: variables(alloc, program, scope, names.as_slice())?,
        }),
        Stmt::Goto { labels, .. } => Ok(TypedStmt::Goto {
            labels: copy_names(alloc, labels.as_slice())?,
        }),
        Stmt::Return { .. } => Ok(TypedStmt::Return),
        Stmt::Break { at, label, .. } => Ok(TypedStmt::Break {
            at: *at,
            label: copy_label(alloc, label)?,
        }),
        Stmt::Assign {
            targets,
            values,
            ..
        } => Ok(TypedStmt::Assign {
            pairs: pairs(alloc, program, scope, targets.as_slice(), values.as_slice())?,
        }),
        Stmt::Call {
            outs,
            procedure,
            arguments,
            ..
        } => {
            let args = expressions(alloc, program, scope, arguments.as_slice())?;
            Ok(TypedStmt::Call {
                proc: program.known.body_number(procedure.text.as_slice()),
                args,
                outs: variables(alloc, program, scope, outs.as_slice())?,
            })
        }
        Stmt::If { inner } => typed_if(alloc, program, scope, inner),
        Stmt::While {
            guard,
            invariants,
            body,
            ..
        } => {
            let guard = typed_guard(alloc, program, scope, guard)?;
            let invariants = typed_invariants(alloc, program, scope, invariants.as_slice())?;
            let body = typed_block(alloc, program, scope, body.as_slice())?;
            Ok(TypedStmt::While {
                guard,
                invariants,
                body,
            })
        }
    }
}

/// The typed forms of statements in order.
#[cycle(making)]
pub fn typed_block(
    alloc: Global,
    program: &Program,
    scope: &Locals,
    stmts: &[Stmt],
) -> Result<Items<TypedStmt>, AllocError>
    requires { IsTrue (list_all is_made (map (stmt_in program.now.ast.now scope.now) stmts.now)) }
    ensures { IfOk result (λ ss. ss ≡ map (stmt_in program.now.ast.now scope.now) stmts.now) }
{
    let mut made = Items::new(alloc);
    for stmt in stmts {
        made.push(typed_stmt(alloc, program, scope, stmt)?)?;
    }
    Ok(made)
}

// The typed form of an `if`.
#[cycle(making)]
#[tactic(auto, using(crate::proofs::MakingEquations::statements))]
fn typed_if(
    alloc: Global,
    program: &Program,
    scope: &Locals,
    inner: &If,
) -> Result<TypedStmt, AllocError>
    requires { IsTrue (is_made (if_in program.now.ast.now scope.now inner.now)) }
    ensures { IfOk result (λ s. s ≡ if_in program.now.ast.now scope.now inner.now) }
{
    let guard = typed_guard(alloc, program, scope, &inner.guard)?;
    let then = typed_block(alloc, program, scope, inner.then.as_slice())?;
    let other = typed_else(alloc, program, scope, &inner.other)?;
    Ok(TypedStmt::If { guard, then, other })
}

// The typed form of what stands after `else`.
#[cycle(making)]
#[tactic(auto, using(crate::proofs::MakingEquations::statements))]
fn typed_else(
    alloc: Global,
    program: &Program,
    scope: &Locals,
    other: &Else,
) -> Result<Items<TypedStmt>, AllocError>
    requires { IsTrue (list_all is_made (else_in program.now.ast.now scope.now other.now)) }
    ensures { IfOk result (λ ss. ss ≡ else_in program.now.ast.now scope.now other.now) }
{
    match other {
        Else::Absent => Ok(Items::new(alloc)),
        Else::If { inner } => {
            let mut made = Items::new(alloc);
            made.push(typed_if(alloc, program, scope, inner.get())?)?;
            Ok(made)
        }
        Else::Block { body } => typed_block(alloc, program, scope, body.as_slice()),
    }
}
