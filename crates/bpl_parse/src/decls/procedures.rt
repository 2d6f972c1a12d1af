//! Procedures and implementations.

ghost use Rattle.bpl_parse.specs.Decls as spec;
ghost use Rattle.bpl_parse.specs.Decls.{levels};
ghost use Rattle.bpl_parse.specs.Gives.{Gives};
ghost use Rattle.bpl_parse.specs.Tests as tests;
ghost use Rattle.bpl_rules.specs.Rules.{heads as is_first, run_many};
ghost use Rattle.std.specs.Prelude.{◌≡◌, length};

use super::groups::{heads, variables};
use crate::error::ReadError;
use crate::identifiers::{attributes, name, names};
use crate::place::{Place, StopKind};
use crate::stmts::statements;
use crate::tokens::{is_at, take};
use bpl_ast::{Body, Decl, Implementation, Modifies, Name, Procedure, Variables};
use bpl_tok::{Terminal, Token};
use sqlite_items::Items;
use std::alloc::Global;

fn locals<'a>(
    alloc: Global,
    source: &[u8],
    depth: usize,
    tokens: &'a [Token],
) -> Result<(Items<Variables>, &'a [Token]), ReadError<'a>>
    ensures { Gives (λ x. (x.0, x.1.now)) result (run_many (spec.variables source.now (levels source.now depth)) (length tokens.now) tokens.now) }
{
    let mut found = Items::new(alloc);
    let mut rest = tokens;
    for _ in 0..tokens.len() {
        if !is_at(Terminal::Var, rest) {
            return Ok((found, rest));
        }
        let (next, after) = variables(alloc, source, depth, rest)?;
        found.push(next)?;
        rest = after;
    }
    Ok((found, rest))
}

#[tactic(auto, unfolding(crate::specs::Decls::body))]
fn body<'a>(
    alloc: Global,
    source: &[u8],
    depth: usize,
    tokens: &'a [Token],
) -> Result<(Body, &'a [Token]), ReadError<'a>>
    ensures { Gives (λ x. (x.0, x.1.now)) result ((spec.body source.now (levels source.now depth)).run tokens.now) }
{
    let (brace, rest) = take(Terminal::LeftBrace, Place::Other, tokens)?;
    let (locals, rest) = locals(alloc, source, depth, rest)?;
    let (statements, rest) = statements(alloc, source, depth, rest)?;
    let (_, rest) = take(Terminal::RightBrace, Place::Statement, rest)?;
    let at = brace.at;
    let body = Body {
        at,
        locals,
        statements,
    };
    Ok((body, rest))
}

#[tactic(auto, unfolding(crate::specs::Names::names))]
fn maybe_names<'a>(
    alloc: Global,
    source: &[u8],
    tokens: &'a [Token],
) -> Result<(Items<Name>, &'a [Token]), ReadError<'a>>
    ensures { Gives (λ x. (x.0, x.1.now)) result ((spec.maybe_names source.now).run tokens.now) }
{
    if is_at(Terminal::Ident, tokens) {
        names(alloc, source, tokens)
    } else {
        Ok((Items::new(alloc), tokens))
    }
}

#[tactic(auto, unfolding(crate::specs::Decls::modifies))]
fn modifies<'a>(
    alloc: Global,
    source: &[u8],
    tokens: &'a [Token],
) -> Result<(Modifies, &'a [Token]), ReadError<'a>>
    ensures { Gives (λ x. (x.0, x.1.now)) result ((spec.modifies source.now).run tokens.now) }
{
    let (word, rest) = take(Terminal::Modifies, Place::Spec, tokens)?;
    let (attributes, rest) = attributes(alloc, source, rest)?;
    let (names, rest) = maybe_names(alloc, source, rest)?;
    let (_, rest) = take(Terminal::Semicolon, Place::Other, rest)?;
    let at = word.at;
    let modifies = Modifies {
        at,
        attributes,
        names,
    };
    Ok((modifies, rest))
}

/// Each word of a contract is left out, so reading one stops at it.
#[tactic(auto, unfolding(crate::specs::Decls::contract))]
fn contract<'a>(tokens: &'a [Token]) -> Result<(Modifies, &'a [Token]), ReadError<'a>>
    ensures { Gives (λ x. (x.0, x.1.now)) result (spec.contract.run tokens.now) }
{
    Err(ReadError::Stop(StopKind::Refused(Place::Spec), tokens))
}

#[tactic(auto, unfolding(crate::specs::Decls::spec, crate::specs::Decls::modifies, crate::specs::Decls::contract))]
fn spec<'a>(
    alloc: Global,
    source: &[u8],
    tokens: &'a [Token],
) -> Result<(Modifies, &'a [Token]), ReadError<'a>>
    ensures { Gives (λ x. (x.0, x.1.now)) result ((spec.spec source.now).run tokens.now) }
{
    if is_at(Terminal::Modifies, tokens) {
        modifies(alloc, source, tokens)
    } else {
        contract(tokens)
    }
}

fn is_at_contract(tokens: &[Token]) -> bool
    ensures { result ≡ is_first tests.begins_contract tokens.now }
{
    is_at(Terminal::Requires, tokens)
        || is_at(Terminal::Ensures, tokens)
        || is_at(Terminal::Free, tokens)
}

fn is_at_spec(tokens: &[Token]) -> bool
    ensures { result ≡ is_first tests.begins_spec tokens.now }
{
    is_at(Terminal::Modifies, tokens) || is_at_contract(tokens)
}

fn specs_of<'a>(
    alloc: Global,
    source: &[u8],
    tokens: &'a [Token],
) -> Result<(Items<Modifies>, &'a [Token]), ReadError<'a>>
    ensures { Gives (λ x. (x.0, x.1.now)) result (run_many (spec.spec source.now) (length tokens.now) tokens.now) }
{
    let mut found = Items::new(alloc);
    let mut rest = tokens;
    for _ in 0..tokens.len() {
        if !is_at_spec(rest) {
            return Ok((found, rest));
        }
        let (next, after) = spec(alloc, source, rest)?;
        found.push(next)?;
        rest = after;
    }
    Ok((found, rest))
}

#[tactic(auto, unfolding(crate::specs::Decls::spec))]
fn bodiless<'a>(
    alloc: Global,
    source: &[u8],
    tokens: &'a [Token],
) -> Result<((Items<Modifies>, Option<Body>), &'a [Token]), ReadError<'a>>
    ensures { Gives (λ x. (x.0, x.1.now)) result ((spec.bodiless source.now).run tokens.now) }
{
    let (_, rest) = take(Terminal::Semicolon, Place::Other, tokens)?;
    let (specs, rest) = specs_of(alloc, source, rest)?;
    Ok(((specs, None), rest))
}

#[tactic(auto, unfolding(crate::specs::Decls::spec))]
fn bodied<'a>(
    alloc: Global,
    source: &[u8],
    depth: usize,
    tokens: &'a [Token],
) -> Result<((Items<Modifies>, Option<Body>), &'a [Token]), ReadError<'a>>
    ensures { Gives (λ x. (x.0, x.1.now)) result ((spec.bodied source.now (levels source.now depth)).run tokens.now) }
{
    let (specs, rest) = specs_of(alloc, source, tokens)?;
    let (body, rest) = body(alloc, source, depth, rest)?;
    Ok(((specs, Some(body)), rest))
}

#[tactic(auto, unfolding(crate::specs::Decls::procedure_end))]
fn procedure_end<'a>(
    alloc: Global,
    source: &[u8],
    depth: usize,
    tokens: &'a [Token],
) -> Result<((Items<Modifies>, Option<Body>), &'a [Token]), ReadError<'a>>
    ensures { Gives (λ x. (x.0, x.1.now)) result ((spec.procedure_end source.now (levels source.now depth)).run tokens.now) }
{
    if is_at(Terminal::Semicolon, tokens) {
        bodiless(alloc, source, tokens)
    } else {
        bodied(alloc, source, depth, tokens)
    }
}

/// The declaration of a procedure.
#[tactic(auto, unfolding(crate::specs::Decls::procedure))]
pub fn procedure<'a>(
    alloc: Global,
    source: &[u8],
    depth: usize,
    tokens: &'a [Token],
) -> Result<(Decl, &'a [Token]), ReadError<'a>>
    ensures { Gives (λ x. (x.0, x.1.now)) result ((spec.procedure source.now (levels source.now depth)).run tokens.now) }
{
    let (word, rest) = take(Terminal::Procedure, Place::Other, tokens)?;
    let (attributes, rest) = attributes(alloc, source, rest)?;
    let (name, rest) = name(alloc, source, Place::Other, rest)?;
    let (heads, rest) = heads(alloc, source, depth, rest)?;
    let ((specs, body), rest) = procedure_end(alloc, source, depth, rest)?;
    let at = word.at;
    let procedure = Procedure {
        at,
        attributes,
        name,
        heads,
        specs,
        body,
    };
    Ok((Decl::Procedure(procedure), rest))
}

/// An implementation of a procedure.
#[tactic(auto, unfolding(crate::specs::Decls::implementation))]
pub fn implementation<'a>(
    alloc: Global,
    source: &[u8],
    depth: usize,
    tokens: &'a [Token],
) -> Result<(Decl, &'a [Token]), ReadError<'a>>
    ensures { Gives (λ x. (x.0, x.1.now)) result ((spec.implementation source.now (levels source.now depth)).run tokens.now) }
{
    let (word, rest) = take(Terminal::Implementation, Place::Other, tokens)?;
    let (attributes, rest) = attributes(alloc, source, rest)?;
    let (name, rest) = name(alloc, source, Place::Other, rest)?;
    let (heads, rest) = heads(alloc, source, depth, rest)?;
    let (body, rest) = body(alloc, source, depth, rest)?;
    let at = word.at;
    let implementation = Implementation {
        at,
        attributes,
        name,
        heads,
        body,
    };
    Ok((Decl::Implementation(implementation), rest))
}
