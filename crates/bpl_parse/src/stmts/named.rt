//! Statements that begin with a name: labels and assignments.

ghost use Rattle.bpl_parse.specs.Decls.{levels};
ghost use Rattle.bpl_parse.specs.Exprs as exprs;
ghost use Rattle.bpl_parse.specs.Gives.{Gives};
ghost use Rattle.bpl_parse.specs.Stmts as spec;
ghost use Rattle.bpl_parse.specs.Tests.{is};
ghost use Rattle.bpl_parse.specs.declared.place.Place.TheVariants as at;
ghost use Rattle.bpl_rules.specs.Rules.{behind, form, maybe, run_many, separated};
ghost use Rattle.bpl_tok.specs.declared.token.Terminal.TheVariants as k;
ghost use Rattle.std.specs.Prelude.{◌≡◌, ◌<◌, ◌-◌, IfOk, length};

use crate::error::ReadError;
use crate::exprs::expr;
use crate::identifiers::name;
use crate::lists::listed;
use crate::parts::NamedRest;
use crate::place::Place;
use crate::tokens::{at_bottom, is_at, take};
use bpl_ast::{Expr, Name, Stmt, Target};
use bpl_tok::{Terminal, Token};
use sqlite_items::Items;
use std::alloc::{AllocError, Global};

fn inside_index<'a>(
    alloc: Global,
    source: &[u8],
    depth: usize,
    tokens: &'a [Token],
) -> Result<(Expr, &'a [Token]), ReadError<'a>>
    requires { 0 < depth }
    ensures { Gives (λ x. (x.0, x.1.now)) result ((form at.Other (is k.LeftBracket) (λ x. x.1) spec.after_target (exprs.expr source.now (levels source.now (depth - 1)))).run tokens.now) }
{
    let (_, rest) = take(Terminal::LeftBracket, Place::Other, tokens)?;
    let (index, rest) = expr(alloc, source, depth - 1, rest)?;
    let (_, rest) = take(Terminal::RightBracket, Place::AfterIndex, rest)?;
    Ok((index, rest))
}

#[tactic(auto, unfolding(crate::specs::Stmts::target_index))]
fn target_index<'a>(
    alloc: Global,
    source: &[u8],
    depth: usize,
    tokens: &'a [Token],
) -> Result<(Expr, &'a [Token]), ReadError<'a>>
    ensures { Gives (λ x. (x.0, x.1.now)) result ((spec.target_index (levels source.now depth)).run tokens.now) }
{
    if depth == 0 {
        return Err(at_bottom(Terminal::LeftBracket, Place::Other, tokens));
    }
    inside_index(alloc, source, depth, tokens)
}

#[tactic(auto, unfolding(crate::specs::Stmts::target_index))]
fn maybe_index<'a>(
    alloc: Global,
    source: &[u8],
    depth: usize,
    tokens: &'a [Token],
) -> Result<(Option<Expr>, &'a [Token]), ReadError<'a>>
    ensures { Gives (λ x. (x.0, x.1.now)) result ((maybe (spec.target_index (levels source.now depth))).run tokens.now) }
{
    if is_at(Terminal::LeftBracket, tokens) {
        let (index, rest) = target_index(alloc, source, depth, tokens)?;
        Ok((Some(index), rest))
    } else {
        Ok((None, tokens))
    }
}

#[tactic(auto, unfolding(crate::specs::Stmts::next_target))]
fn next_target<'a>(
    alloc: Global,
    source: &[u8],
    depth: usize,
    tokens: &'a [Token],
) -> Result<(Target, &'a [Token]), ReadError<'a>>
    ensures { Gives (λ x. (x.0, x.1.now)) result ((spec.next_target source.now (levels source.now depth)).run tokens.now) }
{
    let (_, rest) = take(Terminal::Comma, Place::Other, tokens)?;
    let (name, rest) = name(alloc, source, Place::Other, rest)?;
    let (index, rest) = maybe_index(alloc, source, depth, rest)?;
    Ok((Target { name, index }, rest))
}

fn more_targets<'a>(
    alloc: Global,
    source: &[u8],
    depth: usize,
    tokens: &'a [Token],
) -> Result<(Items<Target>, &'a [Token]), ReadError<'a>>
    ensures { Gives (λ x. (x.0, x.1.now)) result (run_many (spec.next_target source.now (levels source.now depth)) (length tokens.now) tokens.now) }
{
    let mut found = Items::new(alloc);
    let mut rest = tokens;
    for _ in 0..tokens.len() {
        if !is_at(Terminal::Comma, rest) {
            return Ok((found, rest));
        }
        let (next, after) = next_target(alloc, source, depth, rest)?;
        found.push(next)?;
        rest = after;
    }
    Ok((found, rest))
}

fn next_value<'a>(
    alloc: Global,
    source: &[u8],
    depth: usize,
    tokens: &'a [Token],
) -> Result<(Expr, &'a [Token]), ReadError<'a>>
    ensures { Gives (λ x. (x.0, x.1.now)) result ((behind at.AfterOperand (is k.Comma) (exprs.expr source.now (levels source.now depth))).run tokens.now) }
{
    let (_, rest) = take(Terminal::Comma, Place::AfterOperand, tokens)?;
    expr(alloc, source, depth, rest)
}

fn more_values<'a>(
    alloc: Global,
    source: &[u8],
    depth: usize,
    tokens: &'a [Token],
) -> Result<(Items<Expr>, &'a [Token]), ReadError<'a>>
    ensures { Gives (λ x. (x.0, x.1.now)) result (run_many (behind at.AfterOperand (is k.Comma) (exprs.expr source.now (levels source.now depth))) (length tokens.now) tokens.now) }
{
    let mut found = Items::new(alloc);
    let mut rest = tokens;
    for _ in 0..tokens.len() {
        if !is_at(Terminal::Comma, rest) {
            return Ok((found, rest));
        }
        let (next, after) = next_value(alloc, source, depth, rest)?;
        found.push(next)?;
        rest = after;
    }
    Ok((found, rest))
}

#[tactic(auto, unfolding(crate::specs::Stmts::values, crate::specs::Exprs::expr))]
fn values<'a>(
    alloc: Global,
    source: &[u8],
    depth: usize,
    tokens: &'a [Token],
) -> Result<(Items<Expr>, &'a [Token]), ReadError<'a>>
    ensures { Gives (λ x. (x.0, x.1.now)) result ((spec.values source.now (levels source.now depth)).run tokens.now) }
{
    let (first, rest) = expr(alloc, source, depth, tokens)?;
    let (more, rest) = more_values(alloc, source, depth, rest)?;
    let values = listed(alloc, first, more)?;
    let (_, rest) = take(Terminal::Semicolon, Place::AfterOperand, rest)?;
    Ok((values, rest))
}

#[tactic(auto, unfolding(crate::specs::Stmts::assignment, crate::specs::Stmts::next_target))]
fn assignment<'a>(
    alloc: Global,
    source: &[u8],
    depth: usize,
    tokens: &'a [Token],
) -> Result<(NamedRest, &'a [Token]), ReadError<'a>>
    ensures { Gives (λ x. (x.0, x.1.now)) result ((spec.assignment source.now (levels source.now depth)).run tokens.now) }
{
    let (index, rest) = maybe_index(alloc, source, depth, tokens)?;
    let (more, rest) = more_targets(alloc, source, depth, rest)?;
    let (_, rest) = take(Terminal::Assign, Place::Other, rest)?;
    let (values, rest) = values(alloc, source, depth, rest)?;
    Ok((NamedRest::Assign(index, more, values), rest))
}

fn label_colon<'a>(tokens: &'a [Token]) -> Result<(NamedRest, &'a [Token]), ReadError<'a>>
    ensures { Gives (λ x. (x.0, x.1.now)) result (spec.label_colon.run tokens.now) }
{
    let (_, rest) = take(Terminal::Colon, Place::Other, tokens)?;
    Ok((NamedRest::Label, rest))
}

fn named_rest<'a>(
    alloc: Global,
    source: &[u8],
    depth: usize,
    tokens: &'a [Token],
) -> Result<(NamedRest, &'a [Token]), ReadError<'a>>
    ensures { Gives (λ x. (x.0, x.1.now)) result ((spec.named_rest source.now (levels source.now depth)).run tokens.now) }
{
    if is_at(Terminal::Colon, tokens) {
        label_colon(tokens)
    } else {
        assignment(alloc, source, depth, tokens)
    }
}

fn named_stmt_of(alloc: Global, name: Name, rest: NamedRest) -> Result<Stmt, AllocError>
    ensures { IfOk result (λ x. x ≡ spec.named_stmt_of (name, rest)) }
{
    match rest {
        NamedRest::Label => Ok(Stmt::Label { name }),
        NamedRest::Assign(index, more, values) => {
            let at = name.at;
            let targets = listed(alloc, Target { name, index }, more)?;
            Ok(Stmt::Assign {
                at,
                targets,
                values,
            })
        }
    }
}

/// A statement that begins with a name.
#[tactic(auto, unfolding(crate::specs::Stmts::named_stmt))]
pub fn named_stmt<'a>(
    alloc: Global,
    source: &[u8],
    depth: usize,
    tokens: &'a [Token],
) -> Result<(Stmt, &'a [Token]), ReadError<'a>>
    ensures { Gives (λ x. (x.0, x.1.now)) result ((spec.named_stmt source.now (levels source.now depth)).run tokens.now) }
{
    let (name, rest) = name(alloc, source, Place::Statement, tokens)?;
    let (value, rest) = named_rest(alloc, source, depth, rest)?;
    Ok((named_stmt_of(alloc, name, value)?, rest))
}
