//! Names and attributes.

ghost use Rattle.std.specs.Prelude.{◌≡◌, IfOk, length};
ghost use Rattle.bpl_rules.specs.Rules.{behind, one, many, run_many, separated};
ghost use Rattle.bpl_tok.specs.declared.token.Terminal.TheVariants as k;
ghost use Rattle.bpl_parse.specs.declared.place.Place.TheVariants as at;
ghost use Rattle.bpl_parse.specs.Gives.{Gives};
ghost use Rattle.bpl_parse.specs.Names as spec;
ghost use Rattle.bpl_parse.specs.Reader.{name_of};
ghost use Rattle.bpl_parse.specs.Tests.{is, is_no_brace};

use crate::error::ReadError;
use crate::lists::listed;
use crate::place::{Place, StopKind};
use crate::tokens::{is_at, is_at_lexeme, take, text};
use bpl_ast::{Attribute, Lexeme, Name};
use bpl_tok::{Terminal, Token};
use sqlite_items::Items;
use std::alloc::{AllocError, Global};

/// The identifier that is the token.
pub fn name_at(alloc: Global, source: &[u8], token: Token) -> Result<Name, AllocError>
    ensures { IfOk result (λ x. x ≡ name_of source.now token) }
{
    Ok(Name {
        at: token.at,
        text: text(alloc, source, token)?,
    })
}

/// An identifier.
pub fn name<'a>(
    alloc: Global,
    source: &[u8],
    place: Place,
    tokens: &'a [Token],
) -> Result<(Name, &'a [Token]), ReadError<'a>>
    ensures { Gives (λ x. (x.0, x.1.now)) result ((spec.name source.now place).run tokens.now) }
{
    let (token, rest) = take(Terminal::Ident, place, tokens)?;
    Ok((name_at(alloc, source, token)?, rest))
}

fn next_name<'a>(
    alloc: Global,
    source: &[u8],
    tokens: &'a [Token],
) -> Result<(Name, &'a [Token]), ReadError<'a>>
    ensures { Gives (λ x. (x.0, x.1.now)) result ((behind at.Other (is k.Comma) (spec.name source.now at.Other)).run tokens.now) }
{
    let (_, rest) = take(Terminal::Comma, Place::Other, tokens)?;
    name(alloc, source, Place::Other, rest)
}

fn more_names<'a>(
    alloc: Global,
    source: &[u8],
    tokens: &'a [Token],
) -> Result<(Items<Name>, &'a [Token]), ReadError<'a>>
    ensures { Gives (λ x. (x.0, x.1.now)) result (run_many (behind at.Other (is k.Comma) (spec.name source.now at.Other)) (length tokens.now) tokens.now) }
{
    let mut found = Items::new(alloc);
    let mut rest = tokens;
    for _ in 0..tokens.len() {
        if !is_at(Terminal::Comma, rest) {
            return Ok((found, rest));
        }
        let (next, after) = next_name(alloc, source, rest)?;
        found.push(next)?;
        rest = after;
    }
    Ok((found, rest))
}

/// One identifier or more, with commas between them.
#[tactic(auto, unfolding(crate::specs::Names::names))]
pub fn names<'a>(
    alloc: Global,
    source: &[u8],
    tokens: &'a [Token],
) -> Result<(Items<Name>, &'a [Token]), ReadError<'a>>
    ensures { Gives (λ x. (x.0, x.1.now)) result ((spec.names source.now).run tokens.now) }
{
    let (first, rest) = name(alloc, source, Place::Other, tokens)?;
    let (more, rest) = more_names(alloc, source, rest)?;
    Ok((listed(alloc, first, more)?, rest))
}

/// The first token, which may stand inside an attribute, else a fault.
fn take_lexeme<'a>(tokens: &'a [Token]) -> Result<(Token, &'a [Token]), ReadError<'a>>
    ensures { Gives (λ x. (x.0, x.1.now)) result ((one at.Other is_no_brace).run tokens.now) }
{
    if !is_at_lexeme(tokens) {
        return Err(ReadError::Stop(StopKind::Refused(Place::Other), tokens));
    }
    match tokens {
        [token, rest @ ..] => Ok((*token, rest)),
        [] => Err(ReadError::Stop(StopKind::Refused(Place::Other), tokens)),
    }
}

fn lexeme_at(alloc: Global, source: &[u8], token: Token) -> Result<Lexeme, AllocError>
    ensures { IfOk result (λ x. x ≡ spec.lexeme_of source.now token) }
{
    Ok(Lexeme {
        at: token.at,
        text: text(alloc, source, token)?,
    })
}

fn lexeme<'a>(
    alloc: Global,
    source: &[u8],
    tokens: &'a [Token],
) -> Result<(Lexeme, &'a [Token]), ReadError<'a>>
    ensures { Gives (λ x. (x.0, x.1.now)) result ((spec.lexeme source.now).run tokens.now) }
{
    let (token, rest) = take_lexeme(tokens)?;
    Ok((lexeme_at(alloc, source, token)?, rest))
}

fn lexemes<'a>(
    alloc: Global,
    source: &[u8],
    tokens: &'a [Token],
) -> Result<(Items<Lexeme>, &'a [Token]), ReadError<'a>>
    ensures { Gives (λ x. (x.0, x.1.now)) result (run_many (spec.lexeme source.now) (length tokens.now) tokens.now) }
{
    let mut found = Items::new(alloc);
    let mut rest = tokens;
    for _ in 0..tokens.len() {
        if !is_at_lexeme(rest) {
            return Ok((found, rest));
        }
        let (next, after) = lexeme(alloc, source, rest)?;
        found.push(next)?;
        rest = after;
    }
    Ok((found, rest))
}

#[tactic(auto, unfolding(crate::specs::Names::attribute))]
fn attribute<'a>(
    alloc: Global,
    source: &[u8],
    tokens: &'a [Token],
) -> Result<(Attribute, &'a [Token]), ReadError<'a>>
    ensures { Gives (λ x. (x.0, x.1.now)) result ((spec.attribute source.now).run tokens.now) }
{
    let (brace, rest) = take(Terminal::LeftBrace, Place::Other, tokens)?;
    let (_, rest) = take(Terminal::Colon, Place::Other, rest)?;
    let (name, rest) = name(alloc, source, Place::Other, rest)?;
    let (tokens, rest) = lexemes(alloc, source, rest)?;
    let (_, rest) = take(Terminal::RightBrace, Place::Other, rest)?;
    let at = brace.at;
    Ok((Attribute { at, name, tokens }, rest))
}

fn many_attributes<'a>(
    alloc: Global,
    source: &[u8],
    tokens: &'a [Token],
) -> Result<(Items<Attribute>, &'a [Token]), ReadError<'a>>
    ensures { Gives (λ x. (x.0, x.1.now)) result (run_many (spec.attribute source.now) (length tokens.now) tokens.now) }
{
    let mut found = Items::new(alloc);
    let mut rest = tokens;
    for _ in 0..tokens.len() {
        if !is_at(Terminal::LeftBrace, rest) {
            return Ok((found, rest));
        }
        let (next, after) = attribute(alloc, source, rest)?;
        found.push(next)?;
        rest = after;
    }
    Ok((found, rest))
}

/// Attributes, any number of them.
#[tactic(auto, unfolding(crate::specs::Names::attributes))]
pub fn attributes<'a>(
    alloc: Global,
    source: &[u8],
    tokens: &'a [Token],
) -> Result<(Items<Attribute>, &'a [Token]), ReadError<'a>>
    ensures { Gives (λ x. (x.0, x.1.now)) result ((spec.attributes source.now).run tokens.now) }
{
    many_attributes(alloc, source, tokens)
}
