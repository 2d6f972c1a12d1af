//! The fifth pass, where no function uses itself: expressions that are too large once functions are
//! replaced. The recursion goes down the tree, which the reader bounds; blocks are lists.

ghost use Rattle.std.specs.Prelude.{◌≡◌, ◌<◌, ◌^◌, ◌-◌, [], map, flat_map, option_to_list, Some, true, IfOk};
ghost use Rattle.bpl_type.specs.Counts.{Alike, affine_at};
ghost use Rattle.type_pass.specs.Declarations.{synonyms, functions};
ghost use Rattle.type_pass.specs.Faults.{earlier, first};
ghost use Rattle.type_pass.specs.Passes.{heads_faults, commands_faults, circle_faults, large_faults, guard_exprs, use_graph};
ghost use Rattle.type_pass.specs.Scopes.{axiom_scope, tables_of};
ghost use Rattle.bpl_type.specs.Sizes.{heavy_fault, heavy_in, heavy_stmt, heavy_body, heavy_decl, exprs_in_if, exprs_in_else};
ghost use Rattle.bpl_type.specs.Tallies.{templates_of};

use crate::count::{Counting, Tally, count, plus};
use crate::tallies::{nodes_alone, tallies};
use bpl_ast::{Ast, Body, Decl, Else, Expr, Guard, Heads, If, Invariant, Stmt, Target};
use sqlite_items::Items;
use std::alloc::{AllocError, Global};
use type_pass::commands::told_if;
use type_pass::exprs::place;
use type_pass::fault::{TypeFault, TypeKind};
use type_pass::known::{Known, Locals};
use type_pass::order::order;
use type_pass::scopes::scope_of_body;
use type_pass::types::Types;

// ---- expressions

// The number of a tally where each local is one node.
fn total(tally: &Tally, most: u64) -> u64
    ensures { Alike most result (affine_at tally.now.base tally.now.slopes (λ n. 1)) }
{
    let mut sum = tally.base;
    for slope in tally.slopes.as_slice() {
        sum = plus(sum, *slope, most);
    }
    sum
}

// Large at an expression that reaches the bound, unless a fault that was found before is told first.
fn large_expr(
    alloc: Global,
    counting: &Counting,
    expr: &Expr,
    found: Option<TypeFault>,
) -> Result<Option<TypeFault>, AllocError>
    requires { counting.now.whole ≡ true }
    ensures { IfOk result (λ answer. answer ≡ earlier found (first (heavy_in counting.now expr.now))) }
{
    let mut tally = nodes_alone(alloc, 0);
    count(counting, 1, expr, &mut tally)?;
    let is_large = total(&tally, counting.most) >= counting.most;
    Ok(told_if(found, is_large, place(expr), TypeKind::Large))
}

// The same of expressions in order.
fn large_exprs(
    alloc: Global,
    counting: &Counting,
    exprs: &[Expr],
    found: Option<TypeFault>,
) -> Result<Option<TypeFault>, AllocError>
    requires { counting.now.whole ≡ true }
    ensures { IfOk result (λ answer. answer ≡ earlier found (first (flat_map (heavy_in counting.now) exprs.now))) }
{
    let mut so_far = found;
    for expr in exprs {
        so_far = large_expr(alloc, counting, expr, so_far)?;
    }
    Ok(so_far)
}

// ---- statements

// The same of a guard.
fn large_guard(
    alloc: Global,
    counting: &Counting,
    guard: &Guard,
    found: Option<TypeFault>,
) -> Result<Option<TypeFault>, AllocError>
    requires { counting.now.whole ≡ true }
    ensures { IfOk result (λ answer. answer ≡ earlier found (first (flat_map (heavy_in counting.now) (guard_exprs guard.now)))) }
{
    match guard {
        Guard::Any { .. } => Ok(found),
        Guard::Condition { condition } => large_expr(alloc, counting, condition, found),
    }
}

// The same of the invariants of a `while`.
fn large_invariants(
    alloc: Global,
    counting: &Counting,
    invariants: &[Invariant],
    found: Option<TypeFault>,
) -> Result<Option<TypeFault>, AllocError>
    requires { counting.now.whole ≡ true }
    ensures { IfOk result (λ answer. answer ≡ earlier found (first (flat_map (λ i. heavy_in counting.now i.condition) invariants.now))) }
{
    let mut so_far = found;
    for invariant in invariants {
        so_far = large_expr(alloc, counting, &invariant.condition, so_far)?;
    }
    Ok(so_far)
}

// The same of the index of a target, if there is one.
fn large_index(
    alloc: Global,
    counting: &Counting,
    index: &Option<Expr>,
    found: Option<TypeFault>,
) -> Result<Option<TypeFault>, AllocError>
    requires { counting.now.whole ≡ true }
    ensures { IfOk result (λ answer. answer ≡ earlier found (first (flat_map (heavy_in counting.now) (option_to_list index.now)))) }
{
    match index {
        None => Ok(found),
        Some(index) => large_expr(alloc, counting, index, found),
    }
}

// The same of the indexes of targets.
fn large_targets(
    alloc: Global,
    counting: &Counting,
    targets: &[Target],
    found: Option<TypeFault>,
) -> Result<Option<TypeFault>, AllocError>
    requires { counting.now.whole ≡ true }
    ensures { IfOk result (λ answer. answer ≡ earlier found (first (flat_map (λ t. flat_map (heavy_in counting.now) (option_to_list t.index)) targets.now))) }
{
    let mut so_far = found;
    for target in targets {
        so_far = large_index(alloc, counting, &target.index, so_far)?;
    }
    Ok(so_far)
}

// The same of a statement.
#[cycle(large)]
#[tactic(auto, using(crate::proofs::SizeLaws::statements))]
fn large_stmt(
    alloc: Global,
    counting: &Counting,
    stmt: &Stmt,
    found: Option<TypeFault>,
) -> Result<Option<TypeFault>, AllocError>
    requires { counting.now.whole ≡ true }
    ensures { IfOk result (λ answer. answer ≡ earlier found (first (heavy_stmt counting.now stmt.now))) }
{
    match stmt {
        Stmt::Label { .. } => Ok(found),
        Stmt::Assert { condition, .. } => large_expr(alloc, counting, condition, found),
        Stmt::Assume { condition, .. } => large_expr(alloc, counting, condition, found),
        Stmt::Havoc { .. } => Ok(found),
        Stmt::Goto { .. } => Ok(found),
        Stmt::Return { .. } => Ok(found),
        Stmt::Break { .. } => Ok(found),
        Stmt::Assign {
            targets,
            values,
            ..
        } => {
            let so_far = large_targets(alloc, counting, targets.as_slice(), found)?;
            large_exprs(alloc, counting, values.as_slice(), so_far)
        }
        Stmt::Call { arguments, .. } => large_exprs(alloc, counting, arguments.as_slice(), found),
        Stmt::If { inner } => large_if(alloc, counting, inner, found),
        Stmt::While {
            guard,
            invariants,
            body,
            ..
        } => {
            let guarded = large_guard(alloc, counting, guard, found)?;
            let so_far = large_invariants(alloc, counting, invariants.as_slice(), guarded)?;
            large_stmts(alloc, counting, body.as_slice(), so_far)
        }
    }
}

// The same of statements in order.
#[cycle(large)]
fn large_stmts(
    alloc: Global,
    counting: &Counting,
    stmts: &[Stmt],
    found: Option<TypeFault>,
) -> Result<Option<TypeFault>, AllocError>
    requires { counting.now.whole ≡ true }
    ensures { IfOk result (λ answer. answer ≡ earlier found (first (flat_map (heavy_stmt counting.now) stmts.now))) }
{
    let mut so_far = found;
    for stmt in stmts {
        so_far = large_stmt(alloc, counting, stmt, so_far)?;
    }
    Ok(so_far)
}

// The same of an `if`.
#[cycle(large)]
fn large_if(
    alloc: Global,
    counting: &Counting,
    inner: &If,
    found: Option<TypeFault>,
) -> Result<Option<TypeFault>, AllocError>
    requires { counting.now.whole ≡ true }
    ensures { IfOk result (λ answer. answer ≡ earlier found (first (flat_map (heavy_in counting.now) (exprs_in_if inner.now)))) }
{
    let guarded = large_guard(alloc, counting, &inner.guard, found)?;
    let so_far = large_stmts(alloc, counting, inner.then.as_slice(), guarded)?;
    large_else(alloc, counting, &inner.other, so_far)
}

// The same of what stands after `else`.
#[cycle(large)]
#[tactic(auto, using(crate::proofs::SizeLaws::statements))]
fn large_else(
    alloc: Global,
    counting: &Counting,
    other: &Else,
    found: Option<TypeFault>,
) -> Result<Option<TypeFault>, AllocError>
    requires { counting.now.whole ≡ true }
    ensures { IfOk result (λ answer. answer ≡ earlier found (first (flat_map (heavy_in counting.now) (exprs_in_else other.now)))) }
{
    match other {
        Else::Absent => Ok(found),
        Else::If { inner } => large_if(alloc, counting, inner.get(), found),
        Else::Block { body } => large_stmts(alloc, counting, body.as_slice(), found),
    }
}

// ---- declarations

// What functions count, up to a bound, and the names of the program.
#[derive(Drop)]
struct Weighing<'a> {
    known: &'a Known<'a>,
    templates: &'a [Tally],
    most: u64,
}

// Large at an axiom that reaches the bound, unless a fault that was found before is told first.
fn large_axiom(
    alloc: Global,
    weighing: &Weighing,
    condition: &Expr,
    found: Option<TypeFault>,
) -> Result<Option<TypeFault>, AllocError>
    ensures { IfOk result (λ answer. answer ≡ earlier found (first (heavy_fault weighing.now.most (templates_of weighing.now.known.now weighing.now.templates.now) weighing.now.known.now axiom_scope condition.now))) }
{
    let scope = Locals::new(alloc, &[], 0, false)?;
    let counting = Counting {
        known: weighing.known,
        scope: &scope,
        templates: weighing.templates,
        most: weighing.most,
        whole: true,
    };
    large_expr(alloc, &counting, condition, found)
}

// The same of the expressions of the body of a procedure.
fn large_body(
    alloc: Global,
    weighing: &Weighing,
    types: &Types,
    heads: &Heads,
    body: &Body,
    found: Option<TypeFault>,
) -> Result<Option<TypeFault>, AllocError>
    ensures { IfOk result (λ answer. answer ≡ earlier found (first (heavy_body weighing.now.most (templates_of weighing.now.known.now weighing.now.templates.now) weighing.now.known.now types.now heads.now (Some body.now)))) }
{
    let names = scope_of_body(alloc, types, heads, body)?;
    let scope = Locals::new(alloc, names.locals.as_slice(), names.ins, names.globals)?;
    let counting = Counting {
        known: weighing.known,
        scope: &scope,
        templates: weighing.templates,
        most: weighing.most,
        whole: true,
    };
    large_stmts(alloc, &counting, body.statements.as_slice(), found)
}

// The same of a declaration.
fn large_decl(
    alloc: Global,
    weighing: &Weighing,
    types: &Types,
    decl: &Decl,
    found: Option<TypeFault>,
) -> Result<Option<TypeFault>, AllocError>
    ensures { IfOk result (λ answer. answer ≡ earlier found (first (heavy_decl weighing.now.most (templates_of weighing.now.known.now weighing.now.templates.now) weighing.now.known.now types.now decl.now))) }
{
    match decl {
        Decl::Synonym(_) => Ok(found),
        Decl::Constants(_) => Ok(found),
        Decl::Function(_) => Ok(found),
        Decl::Axiom(axiom) => large_axiom(alloc, weighing, &axiom.condition, found),
        Decl::Variables(_) => Ok(found),
        Decl::Procedure(procedure) => match &procedure.body {
            None => Ok(found),
            Some(body) => large_body(alloc, weighing, types, &procedure.heads, body, found),
        },
        Decl::Implementation(implementation) => large_body(
            alloc,
            weighing,
            types,
            &implementation.heads,
            &implementation.body,
            found,
        ),
    }
}

// The first of the expressions of a program that reach the bound.
fn large_decls(
    alloc: Global,
    weighing: &Weighing,
    types: &Types,
    decls: &[Decl],
) -> Result<Option<TypeFault>, AllocError>
    ensures { IfOk result (λ found. found ≡ first (flat_map (heavy_decl weighing.now.most (templates_of weighing.now.known.now weighing.now.templates.now) weighing.now.known.now types.now) decls.now)) }
{
    let mut so_far = None;
    for decl in decls {
        so_far = large_decl(alloc, weighing, types, decl, so_far)?;
    }
    Ok(so_far)
}

/// Large at the first expression in the text that has more than `limit` nodes once functions are
/// replaced by their meaning, of a program without other faults. The nodes are counted, not built: each
/// expression of the text is passed once. `graph` has the uses of the functions.
pub fn sizes_fault(
    alloc: Global,
    types: &Types,
    known: &Known,
    ast: &Ast,
    graph: &[Items<usize>],
    limit: u64,
) -> Result<Option<TypeFault>, AllocError>
    requires types { types.now ≡ synonyms ast.now }
    requires known { known.now ≡ tables_of ast.now }
    requires graph { graph.now ≡ use_graph (functions ast.now) }
    requires heads { heads_faults ast.now ≡ [] }
    requires commands { commands_faults ast.now ≡ [] }
    requires circles { circle_faults ast.now ≡ [] }
    requires limit { limit < 2 ^ 64 - 1 }
    ensures { IfOk result (λ found. found ≡ first (large_faults limit ast.now)) }
{
    let nodes = order(alloc, graph)?;
    let most = limit + 1;
    let templates = tallies(alloc, known, ast, nodes.as_slice(), most)?;
    let weighing = Weighing {
        known,
        templates: templates.as_slice(),
        most,
    };
    large_decls(alloc, &weighing, types, ast.decls.as_slice())
}
