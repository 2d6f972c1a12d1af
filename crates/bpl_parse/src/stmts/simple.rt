//! Statements of one line that begin with a word.

ghost use Rattle.bpl_parse.specs.Decls.{levels};
ghost use Rattle.bpl_parse.specs.Gives.{Gives};
ghost use Rattle.bpl_parse.specs.Names as names_spec;
ghost use Rattle.bpl_parse.specs.Stmts as spec;
ghost use Rattle.bpl_parse.specs.declared.place.Place.TheVariants as at;
ghost use Rattle.bpl_rules.specs.Rules.{maybe, run_many};
ghost use Rattle.std.specs.Prelude.{◌≡◌, IfOk, length};

use crate::error::ReadError;
use crate::exprs::{arguments, condition};
use crate::identifiers::{attributes, name, names};
use crate::lists::listed;
use crate::parts::CalledRest;
use crate::place::Place;
use crate::tokens::{is_at, take};
use bpl_ast::{Attribute, Name, Stmt};
use bpl_tok::{Terminal, Token};
use sqlite_items::Items;
use std::alloc::{AllocError, Global};

#[tactic(auto, unfolding(crate::specs::Stmts::assertion))]
fn assertion<'a>(
    alloc: Global,
    source: &[u8],
    depth: usize,
    tokens: &'a [Token],
) -> Result<(Stmt, &'a [Token]), ReadError<'a>>
    ensures { Gives (λ x. (x.0, x.1.now)) result ((spec.assertion source.now (levels source.now depth)).run tokens.now) }
{
    let (word, rest) = take(Terminal::Assert, Place::Statement, tokens)?;
    let ((attributes, condition), rest) = condition(alloc, source, depth, rest)?;
    let at = word.at;
    let stmt = Stmt::Assert {
        at,
        attributes,
        condition,
    };
    Ok((stmt, rest))
}

#[tactic(auto, unfolding(crate::specs::Stmts::assumption_stmt))]
fn assumption_stmt<'a>(
    alloc: Global,
    source: &[u8],
    depth: usize,
    tokens: &'a [Token],
) -> Result<(Stmt, &'a [Token]), ReadError<'a>>
    ensures { Gives (λ x. (x.0, x.1.now)) result ((spec.assumption_stmt source.now (levels source.now depth)).run tokens.now) }
{
    let (word, rest) = take(Terminal::Assume, Place::Statement, tokens)?;
    let ((attributes, condition), rest) = condition(alloc, source, depth, rest)?;
    let at = word.at;
    let stmt = Stmt::Assume {
        at,
        attributes,
        condition,
    };
    Ok((stmt, rest))
}

fn listing<'a>(
    alloc: Global,
    source: &[u8],
    tokens: &'a [Token],
) -> Result<((Items<Attribute>, Items<Name>), &'a [Token]), ReadError<'a>>
    ensures { Gives (λ x. (x.0, x.1.now)) result ((spec.listing source.now).run tokens.now) }
{
    let (attributes, rest) = attributes(alloc, source, tokens)?;
    let (names, rest) = names(alloc, source, rest)?;
    let (_, rest) = take(Terminal::Semicolon, Place::Other, rest)?;
    Ok(((attributes, names), rest))
}

#[tactic(auto, unfolding(crate::specs::Stmts::havoc))]
fn havoc<'a>(
    alloc: Global,
    source: &[u8],
    tokens: &'a [Token],
) -> Result<(Stmt, &'a [Token]), ReadError<'a>>
    ensures { Gives (λ x. (x.0, x.1.now)) result ((spec.havoc source.now).run tokens.now) }
{
    let (word, rest) = take(Terminal::Havoc, Place::Statement, tokens)?;
    let ((attributes, names), rest) = listing(alloc, source, rest)?;
    let at = word.at;
    let stmt = Stmt::Havoc {
        at,
        attributes,
        names,
    };
    Ok((stmt, rest))
}

#[tactic(auto, unfolding(crate::specs::Stmts::jump))]
fn jump<'a>(
    alloc: Global,
    source: &[u8],
    tokens: &'a [Token],
) -> Result<(Stmt, &'a [Token]), ReadError<'a>>
    ensures { Gives (λ x. (x.0, x.1.now)) result ((spec.jump source.now).run tokens.now) }
{
    let (word, rest) = take(Terminal::Goto, Place::Statement, tokens)?;
    let ((attributes, labels), rest) = listing(alloc, source, rest)?;
    let at = word.at;
    let stmt = Stmt::Goto {
        at,
        attributes,
        labels,
    };
    Ok((stmt, rest))
}

#[tactic(auto, unfolding(crate::specs::Stmts::return_stmt))]
fn return_stmt<'a>(
    alloc: Global,
    source: &[u8],
    tokens: &'a [Token],
) -> Result<(Stmt, &'a [Token]), ReadError<'a>>
    ensures { Gives (λ x. (x.0, x.1.now)) result ((spec.return_stmt source.now).run tokens.now) }
{
    let (word, rest) = take(Terminal::Return, Place::Statement, tokens)?;
    let (attributes, rest) = attributes(alloc, source, rest)?;
    let (_, rest) = take(Terminal::Semicolon, Place::Other, rest)?;
    let at = word.at;
    Ok((Stmt::Return { at, attributes }, rest))
}

fn maybe_name<'a>(
    alloc: Global,
    source: &[u8],
    tokens: &'a [Token],
) -> Result<(Option<Name>, &'a [Token]), ReadError<'a>>
    ensures { Gives (λ x. (x.0, x.1.now)) result ((maybe (names_spec.name source.now at.Other)).run tokens.now) }
{
    if is_at(Terminal::Ident, tokens) {
        let (name, rest) = name(alloc, source, Place::Other, tokens)?;
        Ok((Some(name), rest))
    } else {
        Ok((None, tokens))
    }
}

#[tactic(auto, unfolding(crate::specs::Stmts::break_stmt))]
fn break_stmt<'a>(
    alloc: Global,
    source: &[u8],
    tokens: &'a [Token],
) -> Result<(Stmt, &'a [Token]), ReadError<'a>>
    ensures { Gives (λ x. (x.0, x.1.now)) result ((spec.break_stmt source.now).run tokens.now) }
{
    let (word, rest) = take(Terminal::Break, Place::Statement, tokens)?;
    let (attributes, rest) = attributes(alloc, source, rest)?;
    let (label, rest) = maybe_name(alloc, source, rest)?;
    let (_, rest) = take(Terminal::Semicolon, Place::Other, rest)?;
    let at = word.at;
    let stmt = Stmt::Break {
        at,
        attributes,
        label,
    };
    Ok((stmt, rest))
}

fn next_out<'a>(
    alloc: Global,
    source: &[u8],
    tokens: &'a [Token],
) -> Result<(Name, &'a [Token]), ReadError<'a>>
    ensures { Gives (λ x. (x.0, x.1.now)) result ((spec.next_out source.now).run tokens.now) }
{
    let (_, rest) = take(Terminal::Comma, Place::Other, tokens)?;
    name(alloc, source, Place::Other, rest)
}

fn more_outs<'a>(
    alloc: Global,
    source: &[u8],
    tokens: &'a [Token],
) -> Result<(Items<Name>, &'a [Token]), ReadError<'a>>
    ensures { Gives (λ x. (x.0, x.1.now)) result (run_many (spec.next_out source.now) (length tokens.now) tokens.now) }
{
    let mut found = Items::new(alloc);
    let mut rest = tokens;
    for _ in 0..tokens.len() {
        if !is_at(Terminal::Comma, rest) {
            return Ok((found, rest));
        }
        let (next, after) = next_out(alloc, source, rest)?;
        found.push(next)?;
        rest = after;
    }
    Ok((found, rest))
}

fn call_alone<'a>(
    alloc: Global,
    source: &[u8],
    depth: usize,
    tokens: &'a [Token],
) -> Result<(CalledRest, &'a [Token]), ReadError<'a>>
    ensures { Gives (λ x. (x.0, x.1.now)) result ((spec.call_alone (levels source.now depth)).run tokens.now) }
{
    let (arguments, rest) = arguments(alloc, source, depth, tokens)?;
    Ok((CalledRest::Arguments(arguments), rest))
}

fn call_with_outs<'a>(
    alloc: Global,
    source: &[u8],
    depth: usize,
    tokens: &'a [Token],
) -> Result<(CalledRest, &'a [Token]), ReadError<'a>>
    ensures { Gives (λ x. (x.0, x.1.now)) result ((spec.call_with_outs source.now (levels source.now depth)).run tokens.now) }
{
    let (more, rest) = more_outs(alloc, source, tokens)?;
    let (_, rest) = take(Terminal::Assign, Place::Other, rest)?;
    let (procedure, rest) = name(alloc, source, Place::Other, rest)?;
    let (arguments, rest) = arguments(alloc, source, depth, rest)?;
    Ok((CalledRest::Outs(more, procedure, arguments), rest))
}

#[tactic(auto, unfolding(crate::specs::Exprs::arguments))]
fn called_rest<'a>(
    alloc: Global,
    source: &[u8],
    depth: usize,
    tokens: &'a [Token],
) -> Result<(CalledRest, &'a [Token]), ReadError<'a>>
    ensures { Gives (λ x. (x.0, x.1.now)) result ((spec.called_rest source.now (levels source.now depth)).run tokens.now) }
{
    if is_at(Terminal::LeftParen, tokens) {
        call_alone(alloc, source, depth, tokens)
    } else {
        call_with_outs(alloc, source, depth, tokens)
    }
}

fn call_at(
    alloc: Global,
    at: usize,
    attributes: Items<Attribute>,
    name: Name,
    rest: CalledRest,
) -> Result<Stmt, AllocError>
    ensures { IfOk result (λ x. x ≡ spec.call_at at attributes name rest) }
{
    match rest {
        CalledRest::Arguments(arguments) => Ok(Stmt::Call {
            at,
            attributes,
            outs: Items::new(alloc),
            procedure: name,
            arguments,
        }),
        CalledRest::Outs(more, procedure, arguments) => Ok(Stmt::Call {
            at,
            attributes,
            outs: listed(alloc, name, more)?,
            procedure,
            arguments,
        }),
    }
}

#[tactic(auto, unfolding(crate::specs::Stmts::call_stmt))]
fn call_stmt<'a>(
    alloc: Global,
    source: &[u8],
    depth: usize,
    tokens: &'a [Token],
) -> Result<(Stmt, &'a [Token]), ReadError<'a>>
    ensures { Gives (λ x. (x.0, x.1.now)) result ((spec.call_stmt source.now (levels source.now depth)).run tokens.now) }
{
    let (word, rest) = take(Terminal::Call, Place::Statement, tokens)?;
    let (attributes, rest) = attributes(alloc, source, rest)?;
    let (name, rest) = name(alloc, source, Place::Called, rest)?;
    let (value, rest) = called_rest(alloc, source, depth, rest)?;
    let (_, rest) = take(Terminal::Semicolon, Place::Other, rest)?;
    Ok((call_at(alloc, word.at, attributes, name, value)?, rest))
}

/// A statement of one line that begins with a word.
#[tactic(auto, unfolding(crate::specs::Stmts::simple, crate::specs::Stmts::assertion, crate::specs::Stmts::assumption_stmt, crate::specs::Stmts::havoc, crate::specs::Stmts::jump, crate::specs::Stmts::return_stmt, crate::specs::Stmts::break_stmt, crate::specs::Stmts::call_stmt))]
pub fn simple<'a>(
    alloc: Global,
    source: &[u8],
    depth: usize,
    tokens: &'a [Token],
) -> Result<(Stmt, &'a [Token]), ReadError<'a>>
    ensures { Gives (λ x. (x.0, x.1.now)) result ((spec.simple source.now (levels source.now depth)).run tokens.now) }
{
    if is_at(Terminal::Assert, tokens) {
        assertion(alloc, source, depth, tokens)
    } else if is_at(Terminal::Assume, tokens) {
        assumption_stmt(alloc, source, depth, tokens)
    } else if is_at(Terminal::Havoc, tokens) {
        havoc(alloc, source, tokens)
    } else if is_at(Terminal::Goto, tokens) {
        jump(alloc, source, tokens)
    } else if is_at(Terminal::Return, tokens) {
        return_stmt(alloc, source, tokens)
    } else if is_at(Terminal::Break, tokens) {
        break_stmt(alloc, source, tokens)
    } else {
        call_stmt(alloc, source, depth, tokens)
    }
}
