//! Statements, and the blocks that nest in them.

ghost use Rattle.std.specs.Prelude.{◌≡◌, ◌<◌, ◌-◌, length};
ghost use Rattle.bpl_parse.specs.Decls.{levels};
ghost use Rattle.bpl_parse.specs.Gives.{Gives};
ghost use Rattle.bpl_parse.specs.Stmts as spec;
ghost use Rattle.bpl_parse.specs.Tests.{begins_simple, begins_stmt, is};
ghost use Rattle.bpl_parse.specs.declared.place.Place.TheVariants as at;
ghost use Rattle.bpl_rules.specs.Rules.{form, heads, maybe, run_many};
ghost use Rattle.bpl_tok.specs.declared.token.Terminal.TheVariants as k;

use super::guards::{guard, invariants};
use super::named::named_stmt;
use super::simple::simple;
use crate::error::ReadError;
use crate::identifiers::attributes;
use crate::parts::IfRest;
use crate::place::Place;
use crate::tokens::{at_bottom, is_at, take};
use bpl_ast::{Else, If, Stmt};
use bpl_tok::{Terminal, Token};
use sqlite_items::{Boxed, Items};
use std::alloc::Global;

fn if_of(token: Token, rest: IfRest) -> If
    ensures { result ≡ spec.if_of (token, rest) }
{
    let IfRest {
        attributes,
        guard,
        then,
        other,
    } = rest;
    If {
        at: token.at,
        attributes,
        guard,
        then,
        other,
    }
}

fn other_of(other: Option<Else>) -> Else
    ensures { result ≡ spec.other_of other }
{
    match other {
        None => Else::Absent,
        Some(other) => other,
    }
}

fn is_at_simple(tokens: &[Token]) -> bool
    ensures { result ≡ heads begins_simple tokens.now }
{
    is_at(Terminal::Assert, tokens)
        || is_at(Terminal::Assume, tokens)
        || is_at(Terminal::Havoc, tokens)
        || is_at(Terminal::Goto, tokens)
        || is_at(Terminal::Return, tokens)
        || is_at(Terminal::Break, tokens)
        || is_at(Terminal::Call, tokens)
}

fn is_at_stmt(tokens: &[Token]) -> bool
    ensures { result ≡ heads begins_stmt tokens.now }
{
    is_at_simple(tokens)
        || is_at(Terminal::If, tokens)
        || is_at(Terminal::While, tokens)
        || is_at(Terminal::Ident, tokens)
}

#[cycle(nesting)]
fn inside_block<'a>(
    alloc: Global,
    source: &[u8],
    depth: usize,
    tokens: &'a [Token],
) -> Result<(Items<Stmt>, &'a [Token]), ReadError<'a>>
    requires { 0 < depth }
    ensures { Gives (λ x. (x.0, x.1.now)) result ((form at.Other (is k.LeftBrace) (λ x. x.1) spec.after_brace (spec.statements source.now (levels source.now (depth - 1)))).run tokens.now) }
{
    let (_, rest) = take(Terminal::LeftBrace, Place::Other, tokens)?;
    let (body, rest) = statements(alloc, source, depth - 1, rest)?;
    let (_, rest) = take(Terminal::RightBrace, Place::Statement, rest)?;
    Ok((body, rest))
}

/// Statements in braces.
#[tactic(auto, unfolding(crate::specs::Stmts::block))]
#[cycle(nesting)]
fn block<'a>(
    alloc: Global,
    source: &[u8],
    depth: usize,
    tokens: &'a [Token],
) -> Result<(Items<Stmt>, &'a [Token]), ReadError<'a>>
    ensures { Gives (λ x. (x.0, x.1.now)) result ((spec.block (levels source.now depth)).run tokens.now) }
{
    if depth == 0 {
        return Err(at_bottom(Terminal::LeftBrace, Place::Other, tokens));
    }
    inside_block(alloc, source, depth, tokens)
}

#[cycle(nesting)]
fn inside_else_if<'a>(
    alloc: Global,
    source: &[u8],
    depth: usize,
    tokens: &'a [Token],
) -> Result<(If, &'a [Token]), ReadError<'a>>
    requires { 0 < depth }
    ensures { Gives (λ x. (x.0, x.1.now)) result ((form at.Other (is k.If) spec.if_of spec.after_else_if (spec.if_rest source.now (levels source.now (depth - 1)))).run tokens.now) }
{
    let (token, rest) = take(Terminal::If, Place::Other, tokens)?;
    let (value, rest) = if_rest(alloc, source, depth - 1, rest)?;
    Ok((if_of(token, value), rest))
}

/// An `if` after `else`.
#[tactic(auto, unfolding(crate::specs::Stmts::else_if))]
#[cycle(nesting)]
fn else_if<'a>(
    alloc: Global,
    source: &[u8],
    depth: usize,
    tokens: &'a [Token],
) -> Result<(If, &'a [Token]), ReadError<'a>>
    ensures { Gives (λ x. (x.0, x.1.now)) result ((spec.else_if (levels source.now depth)).run tokens.now) }
{
    if depth == 0 {
        return Err(at_bottom(Terminal::If, Place::Other, tokens));
    }
    inside_else_if(alloc, source, depth, tokens)
}

#[tactic(auto, unfolding(crate::specs::Stmts::else_if))]
#[cycle(nesting)]
fn else_end<'a>(
    alloc: Global,
    source: &[u8],
    depth: usize,
    tokens: &'a [Token],
) -> Result<(Else, &'a [Token]), ReadError<'a>>
    ensures { Gives (λ x. (x.0, x.1.now)) result ((spec.else_end (levels source.now depth)).run tokens.now) }
{
    if is_at(Terminal::If, tokens) {
        let (inner, rest) = else_if(alloc, source, depth, tokens)?;
        let inner = Boxed::new(alloc, inner)?;
        Ok((Else::If { inner }, rest))
    } else {
        let (body, rest) = block(alloc, source, depth, tokens)?;
        Ok((Else::Block { body }, rest))
    }
}

#[tactic(auto, unfolding(crate::specs::Stmts::else_part))]
#[cycle(nesting)]
fn else_part<'a>(
    alloc: Global,
    source: &[u8],
    depth: usize,
    tokens: &'a [Token],
) -> Result<(Else, &'a [Token]), ReadError<'a>>
    ensures { Gives (λ x. (x.0, x.1.now)) result ((spec.else_part (levels source.now depth)).run tokens.now) }
{
    let (_, rest) = take(Terminal::Else, Place::Other, tokens)?;
    else_end(alloc, source, depth, rest)
}

#[tactic(auto, unfolding(crate::specs::Stmts::else_part))]
#[cycle(nesting)]
fn maybe_else<'a>(
    alloc: Global,
    source: &[u8],
    depth: usize,
    tokens: &'a [Token],
) -> Result<(Option<Else>, &'a [Token]), ReadError<'a>>
    ensures { Gives (λ x. (x.0, x.1.now)) result ((maybe (spec.else_part (levels source.now depth))).run tokens.now) }
{
    if is_at(Terminal::Else, tokens) {
        let (other, rest) = else_part(alloc, source, depth, tokens)?;
        Ok((Some(other), rest))
    } else {
        Ok((None, tokens))
    }
}

/// An `if` without its word.
#[tactic(auto, unfolding(crate::specs::Stmts::if_rest))]
#[cycle(nesting)]
fn if_rest<'a>(
    alloc: Global,
    source: &[u8],
    depth: usize,
    tokens: &'a [Token],
) -> Result<(IfRest, &'a [Token]), ReadError<'a>>
    ensures { Gives (λ x. (x.0, x.1.now)) result ((spec.if_rest source.now (levels source.now depth)).run tokens.now) }
{
    let (attributes, rest) = attributes(alloc, source, tokens)?;
    let (_, rest) = take(Terminal::LeftParen, Place::Other, rest)?;
    let (guard, rest) = guard(alloc, source, depth, rest)?;
    let (then, rest) = block(alloc, source, depth, rest)?;
    let (other, rest) = maybe_else(alloc, source, depth, rest)?;
    let other = other_of(other);
    let value = IfRest {
        attributes,
        guard,
        then,
        other,
    };
    Ok((value, rest))
}

#[tactic(auto, unfolding(crate::specs::Stmts::if_stmt))]
#[cycle(nesting)]
fn if_stmt<'a>(
    alloc: Global,
    source: &[u8],
    depth: usize,
    tokens: &'a [Token],
) -> Result<(Stmt, &'a [Token]), ReadError<'a>>
    ensures { Gives (λ x. (x.0, x.1.now)) result ((spec.if_stmt source.now (levels source.now depth)).run tokens.now) }
{
    let (token, rest) = take(Terminal::If, Place::Statement, tokens)?;
    let (value, rest) = if_rest(alloc, source, depth, rest)?;
    let inner = if_of(token, value);
    Ok((Stmt::If { inner }, rest))
}

#[tactic(auto, unfolding(crate::specs::Stmts::while_stmt))]
#[cycle(nesting)]
fn while_stmt<'a>(
    alloc: Global,
    source: &[u8],
    depth: usize,
    tokens: &'a [Token],
) -> Result<(Stmt, &'a [Token]), ReadError<'a>>
    ensures { Gives (λ x. (x.0, x.1.now)) result ((spec.while_stmt source.now (levels source.now depth)).run tokens.now) }
{
    let (token, rest) = take(Terminal::While, Place::Statement, tokens)?;
    let (attributes, rest) = attributes(alloc, source, rest)?;
    let (_, rest) = take(Terminal::LeftParen, Place::Other, rest)?;
    let (guard, rest) = guard(alloc, source, depth, rest)?;
    let (invariants, rest) = invariants(alloc, source, depth, rest)?;
    let (body, rest) = block(alloc, source, depth, rest)?;
    let at = token.at;
    let value = Stmt::While {
        at,
        attributes,
        guard,
        invariants,
        body,
    };
    Ok((value, rest))
}

#[tactic(auto, unfolding(crate::specs::Stmts::stmt, crate::specs::Stmts::simple, crate::specs::Stmts::if_stmt, crate::specs::Stmts::while_stmt))]
#[cycle(nesting)]
fn stmt<'a>(
    alloc: Global,
    source: &[u8],
    depth: usize,
    tokens: &'a [Token],
) -> Result<(Stmt, &'a [Token]), ReadError<'a>>
    ensures { Gives (λ x. (x.0, x.1.now)) result ((spec.stmt source.now (levels source.now depth)).run tokens.now) }
{
    if is_at_simple(tokens) {
        simple(alloc, source, depth, tokens)
    } else if is_at(Terminal::If, tokens) {
        if_stmt(alloc, source, depth, tokens)
    } else if is_at(Terminal::While, tokens) {
        while_stmt(alloc, source, depth, tokens)
    } else {
        named_stmt(alloc, source, depth, tokens)
    }
}

#[cycle(nesting)]
fn many_stmts<'a>(
    alloc: Global,
    source: &[u8],
    depth: usize,
    tokens: &'a [Token],
) -> Result<(Items<Stmt>, &'a [Token]), ReadError<'a>>
    ensures { Gives (λ x. (x.0, x.1.now)) result (run_many (spec.stmt source.now (levels source.now depth)) (length tokens.now) tokens.now) }
{
    let mut found = Items::new(alloc);
    let mut rest = tokens;
    for _ in 0..tokens.len() {
        if !is_at_stmt(rest) {
            return Ok((found, rest));
        }
        let (next, after) = stmt(alloc, source, depth, rest)?;
        found.push(next)?;
        rest = after;
    }
    Ok((found, rest))
}

/// Statements, any number of them.
#[tactic(auto, unfolding(crate::specs::Stmts::statements, crate::specs::Stmts::stmt))]
#[cycle(nesting)]
pub fn statements<'a>(
    alloc: Global,
    source: &[u8],
    depth: usize,
    tokens: &'a [Token],
) -> Result<(Items<Stmt>, &'a [Token]), ReadError<'a>>
    ensures { Gives (λ x. (x.0, x.1.now)) result ((spec.statements source.now (levels source.now depth)).run tokens.now) }
{
    many_stmts(alloc, source, depth, tokens)
}
