//! The sorts of expressions, or their first faults. The recursion goes down the tree, which the
//! reader bounds; chains and brackets are lists.

ghost use Rattle.std.specs.Prelude.{◌≡◌, map, fold, Ok};
ghost use Rattle.type_pass.specs.declared.tables.Scope.{Scope};
ghost use Rattle.type_pass.specs.declared.tables.Tables.{Tables};
ghost use Rattle.type_pass.specs.ExprSorts as spec;
ghost use Rattle.type_pass.specs.ExprSorts.{part, bracket_part, with_operand, with_operands};
ghost use Rattle.type_pass.specs.Running.{with_answer};
ghost use Rattle.type_pass.specs.Scopes.{find_name, function_named};

use crate::fault::{TypeFault, TypeKind};
use crate::known::{Known, Locals};
use crate::operand::{Operand, bool_sort, extracted, literal};
use crate::running::{
    applied, argument_sort, choice, comparison, fits, implication, joined, joined_with, negation,
    replacement, selection, unless_told,
};
use bpl_ast::{Bracket, Expr, Name};
use hy_val::Sort;

/// The offset of the first token of an expression.
#[tactic(auto, using(crate::proofs::PartEquations::parts))]
pub fn place(expr: &Expr) -> usize
    ensures { (t : Tables) → (s : Scope) → (part t s expr.now).at ≡ result }
{
    match expr {
        Expr::True { at } => *at,
        Expr::False { at } => *at,
        Expr::Literal { at, .. } => *at,
        Expr::Variable { name } => name.at,
        Expr::Apply { function, .. } => function.at,
        Expr::Post { at, .. } => *at,
        Expr::Not { at, .. } => *at,
        Expr::Concat { at, .. } => *at,
        Expr::Equal { at, .. } => *at,
        Expr::NotEqual { at, .. } => *at,
        Expr::And { at, .. } => *at,
        Expr::Or { at, .. } => *at,
        Expr::Implies { at, .. } => *at,
        Expr::ImpliedBy { at, .. } => *at,
        Expr::Equivalent { at, .. } => *at,
        Expr::Choice { at, .. } => *at,
    }
}

// The sort of a name in a scope: Unknown where it stands for nothing.
fn variable(known: &Known, scope: &Locals, name: &Name) -> Result<Sort, TypeFault>
    ensures { result ≡ spec.sort_if name.now.at (find_name known.now scope.now name.now.text) }
{
    match known.find(scope, name.text.as_slice()) {
        None => Err(TypeFault {
            at: name.at,
            kind: TypeKind::Unknown,
        }),
        Some((_, sort)) => Ok(sort),
    }
}

/// The sort of an expression in a scope, or its first fault: the operands come first, from left to
/// right.
#[cycle(sorting)]
#[tactic(auto, using(crate::proofs::PartEquations::parts))]
pub fn sort_of_expr(known: &Known, scope: &Locals, expr: &Expr) -> Result<Sort, TypeFault>
    ensures { result ≡ (part known.now scope.now expr.now).sort }
{
    match expr {
        Expr::True { .. } => Ok(bool_sort()),
        Expr::False { .. } => Ok(bool_sort()),
        Expr::Literal { at, width, bits } => literal(*at, *width, *bits),
        Expr::Variable { name } => variable(known, scope, name),
        Expr::Apply {
            function,
            arguments,
        } => application(known, scope, function, arguments.as_slice()),
        Expr::Post {
            at,
            operand,
            brackets,
        } => post(
            known,
            scope,
            *at,
            operand_of(known, scope, operand.get()),
            brackets.as_slice(),
        ),
        Expr::Not { operand, .. } => negation(operand_of(known, scope, operand.get())),
        Expr::Concat { at, operands } => concatenation(known, scope, *at, operands.as_slice()),
        Expr::Equal { at, left, right } => comparison(
            *at,
            operand_of(known, scope, left.get()),
            operand_of(known, scope, right.get()),
        ),
        Expr::NotEqual { at, left, right } => comparison(
            *at,
            operand_of(known, scope, left.get()),
            operand_of(known, scope, right.get()),
        ),
        Expr::And { at, operands } => chain(known, scope, *at, operands.as_slice()),
        Expr::Or { at, operands } => chain(known, scope, *at, operands.as_slice()),
        Expr::Implies { left, right, .. } => implication(
            operand_of(known, scope, left.get()),
            operand_of(known, scope, right.get()),
        ),
        Expr::ImpliedBy { at, operands } => chain(known, scope, *at, operands.as_slice()),
        Expr::Equivalent { at, operands } => chain(known, scope, *at, operands.as_slice()),
        Expr::Choice {
            at,
            condition,
            yes,
            no,
        } => choice(
            *at,
            operand_of(known, scope, condition.get()),
            operand_of(known, scope, yes.get()),
            operand_of(known, scope, no.get()),
        ),
    }
}

/// An expression as an operand, or its first fault.
#[cycle(sorting)]
pub fn operand_of(known: &Known, scope: &Locals, expr: &Expr) -> Result<Operand, TypeFault>
    ensures { result ≡ with_operand (part known.now scope.now expr.now) (λ o. Ok o) }
{
    match sort_of_expr(known, scope, expr) {
        Err(fault) => Err(fault),
        Ok(sort) => Ok(Operand {
            at: place(expr),
            sort,
        }),
    }
}

// The sort of a chain of bools. Arity where it has no operand, which no text has.
#[cycle(sorting)]
fn chain(known: &Known, scope: &Locals, at: usize, operands: &[Expr]) -> Result<Sort, TypeFault>
    ensures { result ≡ with_operands (map (part known.now scope.now) operands.now) (spec.chain_of_bools at) }
{
    if operands.is_empty() {
        return Err(TypeFault {
            at,
            kind: TypeKind::Arity,
        });
    }
    let wanted = bool_sort();
    let mut told = None;
    for expr in operands {
        match operand_of(known, scope, expr) {
            Err(fault) => return Err(fault),
            Ok(operand) => told = fits(told, &operand, Some(wanted)),
        }
    }
    unless_told(told, wanted)
}

// The sort of a chain of `++`. Arity where it has no operand, which no text has.
#[cycle(sorting)]
fn concatenation(
    known: &Known,
    scope: &Locals,
    at: usize,
    operands: &[Expr],
) -> Result<Sort, TypeFault>
    ensures { result ≡ with_operands (map (part known.now scope.now) operands.now) (spec.joined at) }
{
    let mut width = None;
    for expr in operands {
        match operand_of(known, scope, expr) {
            Err(fault) => return Err(fault),
            Ok(operand) => width = Some(joined_with(at, width, &operand)),
        }
    }
    joined(at, width)
}

// The sort of a use of a function.
#[cycle(sorting)]
fn application(
    known: &Known,
    scope: &Locals,
    name: &Name,
    arguments: &[Expr],
) -> Result<Sort, TypeFault>
    ensures { result ≡ with_operands (map (part known.now scope.now) arguments.now) (spec.applied name.now.at (function_named known.now name.now.text)) }
{
    let function = known.function(name.text.as_slice());
    let mut told = None;
    for (number, expr) in arguments.iter().enumerate() {
        match operand_of(known, scope, expr) {
            Err(fault) => return Err(fault),
            Ok(operand) => told = fits(told, &operand, argument_sort(function, number)),
        }
    }
    applied(name.at, function, arguments.len(), told)
}

// The sort of an operand with brackets, where the whole begins at an offset.
#[cycle(sorting)]
fn post(
    known: &Known,
    scope: &Locals,
    at: usize,
    inner: Result<Operand, TypeFault>,
    brackets: &[Bracket],
) -> Result<Sort, TypeFault>
    ensures { result ≡ with_answer inner (λ o. (fold (λ p bracket. bracket at p) (record { at = o.at; sort = Ok o.sort }) (map (bracket_part known.now scope.now) brackets.now)).sort) }
{
    let mut operand = match inner {
        Err(fault) => return Err(fault),
        Ok(operand) => operand,
    };
    for bracket in brackets {
        match bracket_sort(known, scope, at, &operand, bracket) {
            Err(fault) => return Err(fault),
            Ok(sort) => operand = Operand { at, sort },
        }
    }
    Ok(operand.sort)
}

// The sort of what stands before a bracket and the bracket.
#[cycle(sorting)]
fn bracket_sort(
    known: &Known,
    scope: &Locals,
    at: usize,
    operand: &Operand,
    bracket: &Bracket,
) -> Result<Sort, TypeFault>
    ensures { result ≡ (bracket_part known.now scope.now bracket.now at (record { at = operand.now.at; sort = Ok operand.now.sort })).sort }
{
    match bracket {
        Bracket::Select { index } => selection(operand, operand_of(known, scope, index)),
        Bracket::Store { index, value } => replacement(
            operand,
            operand_of(known, scope, index),
            operand_of(known, scope, value),
        ),
        Bracket::Extract { high, low } => extracted(at, *high, *low, operand),
    }
}
