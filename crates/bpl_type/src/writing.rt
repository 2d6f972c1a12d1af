//! Expressions as lists of nodes, in which each function is replaced by its meaning. The recursion goes
//! down the tree, which the reader bounds; chains and brackets are lists.

ghost use Rattle.std.specs.Prelude.{◌≡◌, List, map, fold, slice_get, unwrap_or, OnOk};
ghost use Rattle.std.specs.Option.{option_copied, option_and_then};
ghost use Rattle.hy_val.specs.declared.expr.ExprNode.{ExprNode as Node};
ghost use Rattle.bpl_type.specs.Making.{with_term, term_with, use_with, join_term, read_back};
ghost use Rattle.type_pass.specs.Replaced.{bracket_term, operated, argument};
ghost use Rattle.type_pass.specs.Terms.{Term, chain, substituted, missing, nodes_of};

use crate::nodes::{
    Join, Made, append_body, last, push_bits, push_choice, push_extract, push_join, push_literal,
    push_missing, push_read, push_select, push_store, push_unary,
};
use bpl_ast::{Bracket, Expr, Name};
use hy_val::{Atom, BvOp, ExprNode, UnOp};
use sqlite_items::{Items, at};
use std::alloc::{AllocError, Global};
use type_pass::known::{Known, Locals};
use type_pass::tables::{Builtin, Meaning};

/// What is known where an expression stands.
#[derive(Drop)]
pub struct Place<'a> {
    /// The names of the program.
    pub known: &'a Known<'a>,
    /// The bodies of the functions, in their order.
    pub bodies: &'a [Made],
    /// The names of the scope.
    pub scope: &'a Locals<'a>,
}

// The body of a number.
fn body_of<'a>(bodies: &'a [Made], number: Option<usize>) -> Option<&'a Made>
    ensures { option_copied result ≡ option_and_then (slice_get bodies.now) number }
{
    match number {
        None => None,
        Some(number) => at(bodies, number),
    }
}

/// Puts the nodes of an expression behind the others. Numbers out of range, which no typed text has,
/// count as want of memory.
#[cycle(writing)]
#[tactic(auto, using(crate::proofs::TermEquations::terms))]
pub fn write(
    alloc: Global,
    place: &Place,
    expr: &Expr,
    out: &mut Items<ExprNode>,
) -> Result<(), AllocError>
    ensures { OnOk result (out.new ≡ with_term out.old (term_with place.now.known.now place.now.bodies.now place.now.scope.now expr.now)) }
{
    match expr {
        Expr::True { .. } => push_literal(out, Atom::bool(true)),
        Expr::False { .. } => push_literal(out, Atom::bool(false)),
        Expr::Literal { width, bits, .. } => push_bits(out, *width, *bits),
        Expr::Variable { name } => {
            push_read(out, place.known.find(place.scope, name.text.as_slice()))
        }
        Expr::Apply {
            function,
            arguments,
        } => write_use(alloc, place, function, arguments.as_slice(), out),
        Expr::Post {
            operand,
            brackets,
            ..
        } => {
            write(alloc, place, operand.get(), out)?;
            write_brackets(alloc, place, brackets.as_slice(), out)
        }
        Expr::Not { operand, .. } => {
            write(alloc, place, operand.get(), out)?;
            push_unary(out, UnOp::Not)
        }
        Expr::Concat { operands, .. } => {
            let join = Join::Plain(BvOp::Concat);
            write_chain(alloc, place, join, operands.as_slice(), out)
        }
        Expr::Equal { left, right, .. } => {
            write(alloc, place, left.get(), out)?;
            let first = last(out);
            write(alloc, place, right.get(), out)?;
            push_join(out, Join::Plain(BvOp::Eq), first)
        }
        Expr::NotEqual { left, right, .. } => {
            write(alloc, place, left.get(), out)?;
            let first = last(out);
            write(alloc, place, right.get(), out)?;
            push_join(out, Join::Plain(BvOp::Ne), first)
        }
        Expr::And { operands, .. } => {
            let join = Join::Plain(BvOp::And);
            write_chain(alloc, place, join, operands.as_slice(), out)
        }
        Expr::Or { operands, .. } => {
            let join = Join::Plain(BvOp::Or);
            write_chain(alloc, place, join, operands.as_slice(), out)
        }
        Expr::Implies { left, right, .. } => {
            write(alloc, place, left.get(), out)?;
            let first = last(out);
            write(alloc, place, right.get(), out)?;
            push_join(out, Join::Plain(BvOp::Implies), first)
        }
        Expr::ImpliedBy { operands, .. } => {
            write_chain(alloc, place, Join::Swapped, operands.as_slice(), out)
        }
        Expr::Equivalent { operands, .. } => {
            let join = Join::Plain(BvOp::Iff);
            write_chain(alloc, place, join, operands.as_slice(), out)
        }
        Expr::Choice {
            condition,
            yes,
            no,
            ..
        } => {
            write(alloc, place, condition.get(), out)?;
            let test = last(out);
            write(alloc, place, yes.get(), out)?;
            let first = last(out);
            write(alloc, place, no.get(), out)?;
            push_choice(out, test, first)
        }
    }
}

// Operands that group from the left.
#[cycle(writing)]
fn write_chain(
    alloc: Global,
    place: &Place,
    join: Join,
    operands: &[Expr],
    out: &mut Items<ExprNode>,
) -> Result<(), AllocError>
    ensures { OnOk result (out.new ≡ with_term out.old (chain (join_term join) (map (term_with place.now.known.now place.now.bodies.now place.now.scope.now) operands.now))) }
{
    if operands.is_empty() {
        return push_missing(out);
    }
    for (number, operand) in operands.iter().enumerate() {
        let left = last(out);
        write(alloc, place, operand, out)?;
        if number > 0 {
            push_join(out, join, left)?;
        }
    }
    Ok(())
}

// Brackets after an operand.
#[cycle(writing)]
fn write_brackets(
    alloc: Global,
    place: &Place,
    brackets: &[Bracket],
    out: &mut Items<ExprNode>,
) -> Result<(), AllocError>
    ensures { (o : List Node) → (a : Term) → out.old ≡ with_term o a → OnOk result (out.new ≡ with_term o (fold (λ t b. b t) a (map (bracket_term (use_with place.now.known.now place.now.bodies.now) place.now.known.now place.now.scope.now) brackets.now))) }
{
    for bracket in brackets {
        write_bracket(alloc, place, bracket, out)?;
    }
    Ok(())
}

// A bracket after an operand.
#[cycle(writing)]
#[tactic(auto, using(crate::proofs::TermEquations::terms))]
fn write_bracket(
    alloc: Global,
    place: &Place,
    bracket: &Bracket,
    out: &mut Items<ExprNode>,
) -> Result<(), AllocError>
    ensures { (o : List Node) → (a : Term) → out.old ≡ with_term o a → OnOk result (out.new ≡ with_term o (bracket_term (use_with place.now.known.now place.now.bodies.now) place.now.known.now place.now.scope.now bracket.now a)) }
{
    match bracket {
        Bracket::Select { index } => {
            let table = last(out);
            write(alloc, place, index, out)?;
            push_select(out, table)
        }
        Bracket::Store { index, value } => {
            let table = last(out);
            write(alloc, place, index, out)?;
            let entry = last(out);
            write(alloc, place, value, out)?;
            push_store(out, table, entry)
        }
        Bracket::Extract { high, low } => push_extract(out, *high, *low),
    }
}

// A use of a function.
#[cycle(writing)]
#[tactic(auto, unfolding(crate::specs::Making::use_with))]
fn write_use(
    alloc: Global,
    place: &Place,
    name: &Name,
    arguments: &[Expr],
    out: &mut Items<ExprNode>,
) -> Result<(), AllocError>
    ensures { OnOk result (out.new ≡ with_term out.old (use_with place.now.known.now place.now.bodies.now name.now.text (map (term_with place.now.known.now place.now.bodies.now place.now.scope.now) arguments.now))) }
{
    let text = name.text.as_slice();
    match place.known.function(text) {
        None => push_missing(out),
        Some(signature) => match signature.meaning {
            Meaning::Body => {
                let body = body_of(place.bodies, place.known.function_number(text));
                write_body(alloc, place, body, arguments, out)
            }
            Meaning::Operator(builtin) => write_operator(alloc, place, builtin, arguments, out),
            Meaning::Nothing => push_missing(out),
        },
    }
}

// An operator of the arguments that it asks for.
#[cycle(writing)]
fn write_operator(
    alloc: Global,
    place: &Place,
    builtin: Builtin,
    arguments: &[Expr],
    out: &mut Items<ExprNode>,
) -> Result<(), AllocError>
    ensures { OnOk result (out.new ≡ with_term out.old (operated builtin (map (term_with place.now.known.now place.now.bodies.now place.now.scope.now) arguments.now))) }
{
    match builtin {
        Builtin::Unary(op) => {
            write_first(alloc, place, arguments, out)?;
            push_unary(out, op)
        }
        Builtin::Binary(op) => {
            write_first(alloc, place, arguments, out)?;
            let left = last(out);
            write_second(alloc, place, arguments, out)?;
            push_join(out, Join::Plain(op), left)
        }
    }
}

// The first argument.
#[cycle(writing)]
fn write_first(
    alloc: Global,
    place: &Place,
    arguments: &[Expr],
    out: &mut Items<ExprNode>,
) -> Result<(), AllocError>
    ensures { OnOk result (out.new ≡ with_term out.old (argument (map (term_with place.now.known.now place.now.bodies.now place.now.scope.now) arguments.now) 0)) }
{
    match arguments {
        [] => push_missing(out),
        [first, ..] => write(alloc, place, first, out),
    }
}

// The second argument.
#[cycle(writing)]
fn write_second(
    alloc: Global,
    place: &Place,
    arguments: &[Expr],
    out: &mut Items<ExprNode>,
) -> Result<(), AllocError>
    ensures { OnOk result (out.new ≡ with_term out.old (argument (map (term_with place.now.known.now place.now.bodies.now place.now.scope.now) arguments.now) 1)) }
{
    match arguments {
        [_, second, ..] => write(alloc, place, second, out),
        _ => push_missing(out),
    }
}

// A body, if there is one, with arguments in place of its locals.
#[cycle(writing)]
fn write_body(
    alloc: Global,
    place: &Place,
    body: Option<&Made>,
    arguments: &[Expr],
    out: &mut Items<ExprNode>,
) -> Result<(), AllocError>
    ensures { OnOk result (out.new ≡ with_term out.old (substituted (map (term_with place.now.known.now place.now.bodies.now place.now.scope.now) arguments.now) (read_back (unwrap_or (option_copied body.entry) (nodes_of missing))))) }
{
    let mut made = Items::new(alloc);
    for argument in arguments {
        let mut nodes = Items::new(alloc);
        write(alloc, place, argument, &mut nodes)?;
        made.push(Made::new(nodes))?;
    }
    match body {
        None => push_missing(out),
        Some(body) => append_body(alloc, out, body, made.as_slice()),
    }
}
