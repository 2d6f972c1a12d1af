//! Sorts.

ghost use Rattle.std.specs.Prelude.{◌≡◌, ◌<◌, ◌-◌};
ghost use Rattle.bpl_rules.specs.Rules.{form};
ghost use Rattle.bpl_tok.specs.declared.token.Terminal.TheVariants as k;
ghost use Rattle.bpl_parse.specs.Decls.{levels};
ghost use Rattle.bpl_parse.specs.Gives.{Gives};
ghost use Rattle.bpl_parse.specs.Sorts as spec;
ghost use Rattle.bpl_parse.specs.Tests.{is};
ghost use Rattle.bpl_parse.specs.declared.place.Place.TheVariants as at;

use crate::error::ReadError;
use crate::identifiers::name;
use crate::place::Place;
use crate::tokens::{at_bottom, is_at, take, text};
use bpl_ast::Sort;
use bpl_tok::{Terminal, TokKind, Token};
use sqlite_items::Boxed;
use std::alloc::Global;

fn width_of(kind: TokKind) -> u32
    ensures { result ≡ spec.width_of kind }
{
    match kind {
        TokKind::Width(Some(width)) => width,
        TokKind::Width(None) => 0,
        TokKind::Ident => 0,
        TokKind::Keyword(_) => 0,
        TokKind::Number(_) => 0,
        TokKind::BvLit { .. } => 0,
        TokKind::Str => 0,
        TokKind::Sign(_) => 0,
    }
}

fn boolean<'a>(tokens: &'a [Token]) -> Result<(Sort, &'a [Token]), ReadError<'a>>
    ensures { Gives (λ x. (x.0, x.1.now)) result (spec.boolean.run tokens.now) }
{
    let (word, rest) = take(Terminal::BoolWord, Place::Sort, tokens)?;
    Ok((Sort::Boolean { at: word.at }, rest))
}

fn vector<'a>(
    alloc: Global,
    source: &[u8],
    tokens: &'a [Token],
) -> Result<(Sort, &'a [Token]), ReadError<'a>>
    ensures { Gives (λ x. (x.0, x.1.now)) result ((spec.vector source.now).run tokens.now) }
{
    let (word, rest) = take(Terminal::Width, Place::Sort, tokens)?;
    let width = width_of(word.kind);
    let text = text(alloc, source, word)?;
    let at = word.at;
    Ok((Sort::Bits { at, width, text }, rest))
}

fn named_sort<'a>(
    alloc: Global,
    source: &[u8],
    tokens: &'a [Token],
) -> Result<(Sort, &'a [Token]), ReadError<'a>>
    ensures { Gives (λ x. (x.0, x.1.now)) result ((spec.named_sort source.now).run tokens.now) }
{
    let (name, rest) = name(alloc, source, Place::Sort, tokens)?;
    Ok((Sort::Named { name }, rest))
}

#[cycle(sorts)]
fn inside_map<'a>(
    alloc: Global,
    source: &[u8],
    depth: usize,
    tokens: &'a [Token],
) -> Result<(Sort, &'a [Token]), ReadError<'a>>
    requires { 0 < depth }
    ensures { Gives (λ x. (x.0, x.1.now)) result ((form at.Sort (is k.LeftBracket) spec.map_of spec.after_map (spec.sort source.now (levels source.now (depth - 1)))).run tokens.now) }
{
    let (bracket, rest) = take(Terminal::LeftBracket, Place::Sort, tokens)?;
    let (index, rest) = sort(alloc, source, depth - 1, rest)?;
    let (_, rest) = take(Terminal::RightBracket, Place::AfterIndexSort, rest)?;
    let (elem, rest) = sort(alloc, source, depth - 1, rest)?;
    let at = bracket.at;
    let index = Boxed::new(alloc, index)?;
    let elem = Boxed::new(alloc, elem)?;
    Ok((Sort::Map { at, index, elem }, rest))
}

#[tactic(auto, unfolding(crate::specs::Sorts::map_sort))]
#[cycle(sorts)]
fn map_sort<'a>(
    alloc: Global,
    source: &[u8],
    depth: usize,
    tokens: &'a [Token],
) -> Result<(Sort, &'a [Token]), ReadError<'a>>
    ensures { Gives (λ x. (x.0, x.1.now)) result ((spec.map_sort (levels source.now depth)).run tokens.now) }
{
    if depth == 0 {
        return Err(at_bottom(Terminal::LeftBracket, Place::Sort, tokens));
    }
    inside_map(alloc, source, depth, tokens)
}

#[cycle(sorts)]
fn inside_group<'a>(
    alloc: Global,
    source: &[u8],
    depth: usize,
    tokens: &'a [Token],
) -> Result<(Sort, &'a [Token]), ReadError<'a>>
    requires { 0 < depth }
    ensures { Gives (λ x. (x.0, x.1.now)) result ((form at.Sort (is k.LeftParen) (λ x. x.1) spec.after_sort_group (spec.sort source.now (levels source.now (depth - 1)))).run tokens.now) }
{
    let (_, rest) = take(Terminal::LeftParen, Place::Sort, tokens)?;
    let (inner, rest) = sort(alloc, source, depth - 1, rest)?;
    let (_, rest) = take(Terminal::RightParen, Place::AfterSort, rest)?;
    Ok((inner, rest))
}

#[tactic(auto, unfolding(crate::specs::Sorts::sort_group))]
#[cycle(sorts)]
fn sort_group<'a>(
    alloc: Global,
    source: &[u8],
    depth: usize,
    tokens: &'a [Token],
) -> Result<(Sort, &'a [Token]), ReadError<'a>>
    ensures { Gives (λ x. (x.0, x.1.now)) result ((spec.sort_group (levels source.now depth)).run tokens.now) }
{
    if depth == 0 {
        return Err(at_bottom(Terminal::LeftParen, Place::Sort, tokens));
    }
    inside_group(alloc, source, depth, tokens)
}

/// A sort that is no name.
#[tactic(auto, unfolding(crate::specs::Sorts::unnamed_sort, crate::specs::Sorts::map_sort, crate::specs::Sorts::sort_group))]
#[cycle(sorts)]
pub fn unnamed_sort<'a>(
    alloc: Global,
    source: &[u8],
    depth: usize,
    tokens: &'a [Token],
) -> Result<(Sort, &'a [Token]), ReadError<'a>>
    ensures { Gives (λ x. (x.0, x.1.now)) result ((spec.unnamed_sort source.now (levels source.now depth)).run tokens.now) }
{
    if is_at(Terminal::BoolWord, tokens) {
        boolean(tokens)
    } else if is_at(Terminal::Width, tokens) {
        vector(alloc, source, tokens)
    } else if is_at(Terminal::LeftBracket, tokens) {
        map_sort(alloc, source, depth, tokens)
    } else {
        sort_group(alloc, source, depth, tokens)
    }
}

/// A sort.
#[tactic(auto, unfolding(crate::specs::Sorts::sort))]
#[cycle(sorts)]
pub fn sort<'a>(
    alloc: Global,
    source: &[u8],
    depth: usize,
    tokens: &'a [Token],
) -> Result<(Sort, &'a [Token]), ReadError<'a>>
    ensures { Gives (λ x. (x.0, x.1.now)) result ((spec.sort source.now (levels source.now depth)).run tokens.now) }
{
    if is_at(Terminal::Ident, tokens) {
        named_sort(alloc, source, tokens)
    } else {
        unnamed_sort(alloc, source, depth, tokens)
    }
}
