//! Expressions: a recursion over their levels, of which the reader lets 200 nest.
ghost use Rattle.std.specs.Prelude.{◌≡◌, ◌++◌, nat_eq, flat_map, if◌then◌else◌, codes, OnOk};
ghost use Rattle.bpl_show.specs.Exprs as spec;
ghost use Rattle.bpl_show.specs.Names.{name as one_name, listed as all_listed};
ghost use Rattle.bpl_show.specs.Tokens.{word as one_word, written};

use crate::lists::Show;
use crate::phrase::{Phrase, kind};
use crate::tokens::{literal, number, word};
use bpl_ast::{Bracket, Expr, Name};
use hy_text::Bytes;
use std::alloc::AllocError;

/// Appends an expression at a place that asks for a kind of phrase: in parentheses where it is of a wider kind.
#[cycle(expressions)]
pub fn expr(out: &mut Bytes, shown: &Expr, asked: Phrase) -> Result<(), AllocError>
    ensures { OnOk result (out.new ≡ written out.old (spec.expr shown.now asked)) }
{
    if kind(shown).rank() < asked.rank() {
        word(out, b"(")?;
        bare(out, shown)?;
        word(out, b")")
    } else {
        bare(out, shown)
    }
}

/// Appends an expression without parentheses around it.
#[cycle(expressions)]
#[tactic(auto, using(crate::proofs::Written::writing, crate::proofs::Equations::equations))]
pub fn bare(out: &mut Bytes, shown: &Expr) -> Result<(), AllocError>
    ensures { OnOk result (out.new ≡ written out.old (spec.whole shown.now)) }
{
    match shown {
        Expr::True { .. } => word(out, b"true"),
        Expr::False { .. } => word(out, b"false"),
        Expr::Literal { width, bits, .. } => literal(out, *width, *bits),
        Expr::Variable { name } => name.show(out),
        Expr::Apply {
            function,
            arguments,
        } => application(out, function, arguments.as_slice()),
        Expr::Post {
            operand,
            brackets: after,
            ..
        } => {
            expr(out, operand.get(), Phrase::Operand)?;
            brackets(out, after.as_slice())
        }
        Expr::Not { operand, .. } => behind(out, b"!", operand.get(), Phrase::Unary),
        Expr::Concat { operands, .. } => chain(out, b"++", operands.as_slice(), Phrase::Unary),
        Expr::Equal { left, right, .. } => {
            expr(out, left.get(), Phrase::Concatenation)?;
            behind(out, b"==", right.get(), Phrase::Concatenation)
        }
        Expr::NotEqual { left, right, .. } => {
            expr(out, left.get(), Phrase::Concatenation)?;
            behind(out, b"!=", right.get(), Phrase::Concatenation)
        }
        Expr::And { operands, .. } => chain(out, b"&&", operands.as_slice(), Phrase::Relation),
        Expr::Or { operands, .. } => chain(out, b"||", operands.as_slice(), Phrase::Relation),
        Expr::Implies { left, right, .. } => {
            expr(out, left.get(), Phrase::Logic)?;
            behind(out, b"==>", right.get(), Phrase::Implication)
        }
        Expr::ImpliedBy { operands, .. } => chain(out, b"<==", operands.as_slice(), Phrase::Logic),
        Expr::Equivalent { operands, .. } => {
            chain(out, b"<==>", operands.as_slice(), Phrase::Implication)
        }
        Expr::Choice {
            condition,
            yes,
            no,
            ..
        } => {
            behind(out, b"if", condition.get(), Phrase::Whole)?;
            behind(out, b"then", yes.get(), Phrase::Whole)?;
            behind(out, b"else", no.get(), Phrase::Whole)
        }
    }
}

/// Appends a function with its arguments.
#[cycle(expressions)]
#[tactic(auto, using(crate::proofs::Written::writing))]
fn application(out: &mut Bytes, function: &Name, arguments: &[Expr]) -> Result<(), AllocError>
    ensures { OnOk result (out.new ≡ written out.old (one_name function.now ++ one_word (codes "(") ++ all_listed spec.whole arguments.now ++ one_word (codes ")"))) }
{
    function.show(out)?;
    word(out, b"(")?;
    chain(out, b",", arguments, Phrase::Whole)?;
    word(out, b")")
}

/// Appends a sign or a word, and the expression after it.
#[cycle(expressions)]
#[tactic(auto, using(crate::proofs::Written::writing))]
fn behind(out: &mut Bytes, sign: &[u8], shown: &Expr, asked: Phrase) -> Result<(), AllocError>
    ensures { OnOk result (out.new ≡ written out.old (one_word sign.now ++ spec.expr shown.now asked)) }
{
    word(out, sign)?;
    expr(out, shown, asked)
}

/// Appends an operand of a chain, by its index: behind a sign, unless it is the first.
#[cycle(expressions)]
fn link(
    out: &mut Bytes,
    index: usize,
    sign: &[u8],
    shown: &Expr,
    asked: Phrase,
) -> Result<(), AllocError>
    ensures { OnOk result (out.new ≡ written out.old (if nat_eq index 0 then spec.expr shown.now asked else one_word sign.now ++ spec.expr shown.now asked)) }
{
    if index == 0 {
        expr(out, shown, asked)
    } else {
        behind(out, sign, shown, asked)
    }
}

/// Appends operands with a sign between them.
#[cycle(expressions)]
pub fn chain(
    out: &mut Bytes,
    sign: &[u8],
    operands: &[Expr],
    asked: Phrase,
) -> Result<(), AllocError>
    ensures { OnOk result (out.new ≡ written out.old (spec.chained sign.now asked operands.now)) }
{
    for (index, operand) in operands.iter().enumerate() {
        link(out, index, sign, operand, asked)?;
    }
    Ok(())
}

/// Appends brackets one after the other.
#[cycle(expressions)]
fn brackets(out: &mut Bytes, shown: &[Bracket]) -> Result<(), AllocError>
    ensures { OnOk result (out.new ≡ written out.old (flat_map spec.bracket shown.now)) }
{
    for one in shown {
        bracket(out, one)?;
    }
    Ok(())
}

/// Appends a bracket.
#[cycle(expressions)]
#[tactic(auto, using(crate::proofs::Written::writing, crate::proofs::Equations::equations))]
fn bracket(out: &mut Bytes, shown: &Bracket) -> Result<(), AllocError>
    ensures { OnOk result (out.new ≡ written out.old (spec.bracket shown.now)) }
{
    word(out, b"[")?;
    match shown {
        Bracket::Select { index } => bare(out, index)?,
        Bracket::Store { index, value } => {
            bare(out, index)?;
            word(out, b":=")?;
            bare(out, value)?;
        }
        Bracket::Extract { high, low } => {
            number(out, *high)?;
            word(out, b":")?;
            number(out, *low)?;
        }
    }
    word(out, b"]")
}
