//! The functions that expressions use, by number.

ghost use Rattle.std.specs.Prelude.{◌≡◌, ◌++◌, map, flat_map, filter_map, IfOk, OnOk};
ghost use Rattle.std.specs.Option.{option_copied};
ghost use Rattle.type_pass.specs.Declarations.{functions, function_of};
ghost use Rattle.type_pass.specs.Faults.{first};
ghost use Rattle.type_pass.specs.Memos.{number_among};
ghost use Rattle.type_pass.specs.Passes as spec;
ghost use Rattle.type_pass.specs.Passes.{uses, uses_if};
ghost use Rattle.type_pass.specs.Uses.{in_bracket, used_numbers};

use crate::circle::cyclic_name;
use crate::fault::TypeFault;
use crate::numbers::{Numbers, push_number};
use crate::spaces::function_names;
use bpl_ast::{Ast, Bracket, Decl, Expr, Name};
use sqlite_items::Items;
use std::alloc::{AllocError, Global};

// The functions that an expression uses, behind those of a list. A tree is no deeper than the text nests.
#[cycle(uses)]
#[tactic(auto, using(crate::proofs::UsedNumbers::use_laws))]
fn push_uses(expr: &Expr, numbers: &Numbers, edges: &mut Items<usize>) -> Result<(), AllocError>
    ensures { OnOk result (edges.new ≡ edges.old ++ filter_map (number_among numbers.now) (uses expr.now)) }
{
    match expr {
        Expr::True { at: _ } => Ok(()),
        Expr::False { at: _ } => Ok(()),
        Expr::Literal {
            at: _,
            width: _,
            bits: _,
        } => Ok(()),
        Expr::Variable { name: _ } => Ok(()),
        Expr::Apply {
            function,
            arguments,
        } => {
            push_all(arguments.as_slice(), numbers, edges)?;
            push_number(edges, numbers.number(function.text.as_slice()))
        }
        Expr::Post {
            at: _,
            operand,
            brackets,
        } => {
            push_uses(operand.get(), numbers, edges)?;
            push_brackets(brackets.as_slice(), numbers, edges)
        }
        Expr::Not { at: _, operand } => push_uses(operand.get(), numbers, edges),
        Expr::Concat { at: _, operands } => push_all(operands.as_slice(), numbers, edges),
        Expr::Equal { at: _, left, right } => {
            push_uses(left.get(), numbers, edges)?;
            push_uses(right.get(), numbers, edges)
        }
        Expr::NotEqual { at: _, left, right } => {
            push_uses(left.get(), numbers, edges)?;
            push_uses(right.get(), numbers, edges)
        }
        Expr::And { at: _, operands } => push_all(operands.as_slice(), numbers, edges),
        Expr::Or { at: _, operands } => push_all(operands.as_slice(), numbers, edges),
        Expr::Implies { at: _, left, right } => {
            push_uses(left.get(), numbers, edges)?;
            push_uses(right.get(), numbers, edges)
        }
        Expr::ImpliedBy { at: _, operands } => push_all(operands.as_slice(), numbers, edges),
        Expr::Equivalent { at: _, operands } => push_all(operands.as_slice(), numbers, edges),
        Expr::Choice {
            at: _,
            condition,
            yes,
            no,
        } => {
            push_uses(condition.get(), numbers, edges)?;
            push_uses(yes.get(), numbers, edges)?;
            push_uses(no.get(), numbers, edges)
        }
    }
}

#[cycle(uses)]
fn push_all(exprs: &[Expr], numbers: &Numbers, edges: &mut Items<usize>) -> Result<(), AllocError>
    ensures { OnOk result (edges.new ≡ edges.old ++ flat_map (λ x. filter_map (number_among numbers.now) (uses x)) exprs.now) }
{
    for expr in exprs {
        push_uses(expr, numbers, edges)?;
    }
    Ok(())
}

#[cycle(uses)]
fn push_brackets(
    brackets: &[Bracket],
    numbers: &Numbers,
    edges: &mut Items<usize>,
) -> Result<(), AllocError>
    ensures { OnOk result (edges.new ≡ edges.old ++ flat_map (λ b. filter_map (number_among numbers.now) (in_bracket b)) brackets.now) }
{
    for bracket in brackets {
        push_bracket(bracket, numbers, edges)?;
    }
    Ok(())
}

#[cycle(uses)]
#[tactic(auto, using(crate::proofs::UsedNumbers::use_laws))]
fn push_bracket(
    bracket: &Bracket,
    numbers: &Numbers,
    edges: &mut Items<usize>,
) -> Result<(), AllocError>
    ensures { OnOk result (edges.new ≡ edges.old ++ filter_map (number_among numbers.now) (in_bracket bracket.now)) }
{
    match bracket {
        Bracket::Select { index } => push_uses(index, numbers, edges),
        Bracket::Store { index, value } => {
            push_uses(index, numbers, edges)?;
            push_uses(value, numbers, edges)
        }
        Bracket::Extract { high: _, low: _ } => Ok(()),
    }
}

fn edges_of(
    alloc: Global,
    body: Option<&Expr>,
    numbers: &Numbers,
) -> Result<Items<usize>, AllocError>
    ensures { IfOk result (λ edges. edges ≡ filter_map (number_among numbers.now) (uses_if (option_copied body.entry))) }
{
    let mut edges = Items::new(alloc);
    match body {
        None => Ok(edges),
        Some(body) => {
            push_uses(body, numbers, &mut edges)?;
            Ok(edges)
        }
    }
}

// The functions that a function uses, behind those of others.
#[tactic(auto, using(crate::proofs::UsedNumbers::use_laws))]
fn push_function(
    alloc: Global,
    numbers: &Numbers,
    graph: &mut Vec<Items<usize>>,
    decl: &Decl,
) -> Result<(), AllocError>
    ensures { OnOk result (graph.new.items ≡ graph.old.items ++ map (used_numbers numbers.now) (function_of decl.now)) }
{
    match decl {
        Decl::Function(function) => {
            let edges = edges_of(alloc, function.body.as_ref(), numbers)?;
            graph.push(edges)?;
            Ok(())
        }
        _ => Ok(()),
    }
}

fn use_graph(alloc: Global, numbers: &Numbers, ast: &Ast) -> Result<Vec<Items<usize>>, AllocError>
    requires { numbers.now ≡ map (λ f. f.name.text) (functions ast.now) }
    ensures { IfOk result (λ graph. graph.items ≡ spec.use_graph (functions ast.now)) }
{
    let mut graph = Vec::new(alloc);
    for decl in ast.decls.as_slice() {
        push_function(alloc, numbers, &mut graph, decl)?;
    }
    Ok(graph)
}

// The bytes of names.
fn texts_of<'a>(alloc: Global, names: &[&'a Name]) -> Result<Vec<&'a [u8]>, AllocError>
    ensures { IfOk result (λ texts. map (λ t. t.now) texts.items ≡ map (λ n. n.now.text) names.now) }
{
    let mut texts = Vec::new(alloc);
    for name in names {
        texts.push(name.text.as_slice())?;
    }
    Ok(texts)
}

/// The graph of the uses of functions: from each an edge leads to those that its body uses.
pub fn graph_of_uses(alloc: Global, ast: &Ast) -> Result<Vec<Items<usize>>, AllocError>
    ensures { IfOk result (λ graph. graph.items ≡ spec.use_graph (functions ast.now)) }
{
    let names = function_names(alloc, ast)?;
    let texts = texts_of(alloc, names.as_slice())?;
    let numbers = Numbers::new(alloc, texts)?;
    use_graph(alloc, &numbers, ast)
}

/// The first of the functions that use themselves, directly or through others, by the graph of uses.
pub fn circle_fault(
    alloc: Global,
    ast: &Ast,
    graph: &[Items<usize>],
) -> Result<Option<TypeFault>, AllocError>
    requires { graph.now ≡ spec.use_graph (functions ast.now) }
    ensures { IfOk result (λ found. found ≡ first (spec.circle_faults ast.now)) }
{
    let names = function_names(alloc, ast)?;
    cyclic_name(alloc, graph, names.as_slice())
}
