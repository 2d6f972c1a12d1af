//! Functions and axioms.

ghost use Rattle.bpl_parse.specs.Decls as spec;
ghost use Rattle.bpl_parse.specs.Decls.{levels};
ghost use Rattle.bpl_parse.specs.Gives.{Gives};
ghost use Rattle.bpl_parse.specs.Tests.{is};
ghost use Rattle.bpl_parse.specs.declared.place.Place.TheVariants as at;
ghost use Rattle.bpl_rules.specs.Rules.{behind, maybe, run_many, seq, separated};
ghost use Rattle.bpl_tok.specs.declared.token.Terminal.TheVariants as k;
ghost use Rattle.std.specs.Prelude.{◌≡◌, length};

use crate::error::ReadError;
use crate::exprs::{condition, expr};
use crate::identifiers::{attributes, name};
use crate::lists::listed;
use crate::place::Place;
use crate::sorts::{sort, unnamed_sort};
use crate::tokens::{at_of, is_at, take};
use bpl_ast::{Axiom, Decl, Expr, Function, FunctionArgument, FunctionResult, Name, Sort};
use bpl_tok::{Terminal, Token};
use sqlite_items::Items;
use std::alloc::{AllocError, Global};

fn argument_sort<'a>(
    alloc: Global,
    source: &[u8],
    depth: usize,
    tokens: &'a [Token],
) -> Result<(Sort, &'a [Token]), ReadError<'a>>
    ensures { Gives (λ x. (x.0, x.1.now)) result ((spec.argument_sort source.now (levels source.now depth)).run tokens.now) }
{
    let (_, rest) = take(Terminal::Colon, Place::AfterSort, tokens)?;
    sort(alloc, source, depth, rest)
}

fn maybe_sort<'a>(
    alloc: Global,
    source: &[u8],
    depth: usize,
    tokens: &'a [Token],
) -> Result<(Option<Sort>, &'a [Token]), ReadError<'a>>
    ensures { Gives (λ x. (x.0, x.1.now)) result ((maybe (spec.argument_sort source.now (levels source.now depth))).run tokens.now) }
{
    if is_at(Terminal::Colon, tokens) {
        let (sort, rest) = argument_sort(alloc, source, depth, tokens)?;
        Ok((Some(sort), rest))
    } else {
        Ok((None, tokens))
    }
}

fn named_argument_of(name: Name, sort: Option<Sort>) -> FunctionArgument
    ensures { result ≡ spec.named_argument_of (name, sort) }
{
    let at = name.at;
    match sort {
        Some(sort) => FunctionArgument {
            at,
            name: Some(name),
            sort,
        },
        None => FunctionArgument {
            at,
            name: None,
            sort: Sort::Named { name },
        },
    }
}

fn named_argument<'a>(
    alloc: Global,
    source: &[u8],
    depth: usize,
    tokens: &'a [Token],
) -> Result<(FunctionArgument, &'a [Token]), ReadError<'a>>
    ensures { Gives (λ x. (x.0, x.1.now)) result ((spec.named_argument source.now (levels source.now depth)).run tokens.now) }
{
    let (name, rest) = name(alloc, source, Place::Sort, tokens)?;
    let (sort, rest) = maybe_sort(alloc, source, depth, rest)?;
    Ok((named_argument_of(name, sort), rest))
}

fn unnamed_argument<'a>(
    alloc: Global,
    source: &[u8],
    depth: usize,
    tokens: &'a [Token],
) -> Result<(FunctionArgument, &'a [Token]), ReadError<'a>>
    ensures { Gives (λ x. (x.0, x.1.now)) result ((spec.unnamed_argument source.now (levels source.now depth)).run tokens.now) }
{
    let at = at_of(tokens);
    let (sort, rest) = unnamed_sort(alloc, source, depth, tokens)?;
    let name = None;
    Ok((FunctionArgument { at, name, sort }, rest))
}

#[tactic(auto, unfolding(crate::specs::Decls::argument))]
fn argument<'a>(
    alloc: Global,
    source: &[u8],
    depth: usize,
    tokens: &'a [Token],
) -> Result<(FunctionArgument, &'a [Token]), ReadError<'a>>
    ensures { Gives (λ x. (x.0, x.1.now)) result ((spec.argument source.now (levels source.now depth)).run tokens.now) }
{
    if is_at(Terminal::Ident, tokens) {
        named_argument(alloc, source, depth, tokens)
    } else {
        unnamed_argument(alloc, source, depth, tokens)
    }
}

fn next_argument<'a>(
    alloc: Global,
    source: &[u8],
    depth: usize,
    tokens: &'a [Token],
) -> Result<(FunctionArgument, &'a [Token]), ReadError<'a>>
    ensures { Gives (λ x. (x.0, x.1.now)) result ((behind at.Other (is k.Comma) (spec.argument source.now (levels source.now depth))).run tokens.now) }
{
    let (_, rest) = take(Terminal::Comma, Place::Other, tokens)?;
    argument(alloc, source, depth, rest)
}

fn more_arguments<'a>(
    alloc: Global,
    source: &[u8],
    depth: usize,
    tokens: &'a [Token],
) -> Result<(Items<FunctionArgument>, &'a [Token]), ReadError<'a>>
    ensures { Gives (λ x. (x.0, x.1.now)) result (run_many (behind at.Other (is k.Comma) (spec.argument source.now (levels source.now depth))) (length tokens.now) tokens.now) }
{
    let mut found = Items::new(alloc);
    let mut rest = tokens;
    for _ in 0..tokens.len() {
        if !is_at(Terminal::Comma, rest) {
            return Ok((found, rest));
        }
        let (next, after) = next_argument(alloc, source, depth, rest)?;
        found.push(next)?;
        rest = after;
    }
    Ok((found, rest))
}

fn argument_list<'a>(
    alloc: Global,
    source: &[u8],
    depth: usize,
    tokens: &'a [Token],
) -> Result<(Items<FunctionArgument>, &'a [Token]), ReadError<'a>>
    ensures { Gives (λ x. (x.0, x.1.now)) result ((separated at.Other (is k.Comma) (spec.argument source.now (levels source.now depth))).run tokens.now) }
{
    let (first, rest) = argument(alloc, source, depth, tokens)?;
    let (more, rest) = more_arguments(alloc, source, depth, rest)?;
    Ok((listed(alloc, first, more)?, rest))
}

fn no_arguments<'a>(
    alloc: Global,
    tokens: &'a [Token],
) -> Result<(Items<FunctionArgument>, &'a [Token]), ReadError<'a>>
    ensures { Gives (λ x. (x.0, x.1.now)) result (spec.no_function_arguments.run tokens.now) }
{
    let (_, rest) = take(Terminal::RightParen, Place::Sort, tokens)?;
    Ok((Items::new(alloc), rest))
}

fn some_arguments<'a>(
    alloc: Global,
    source: &[u8],
    depth: usize,
    tokens: &'a [Token],
) -> Result<(Items<FunctionArgument>, &'a [Token]), ReadError<'a>>
    ensures { Gives (λ x. (x.0, x.1.now)) result ((spec.some_function_arguments source.now (levels source.now depth)).run tokens.now) }
{
    let (arguments, rest) = argument_list(alloc, source, depth, tokens)?;
    let (_, rest) = take(Terminal::RightParen, Place::AfterSort, rest)?;
    Ok((arguments, rest))
}

fn function_arguments<'a>(
    alloc: Global,
    source: &[u8],
    depth: usize,
    tokens: &'a [Token],
) -> Result<(Items<FunctionArgument>, &'a [Token]), ReadError<'a>>
    ensures { Gives (λ x. (x.0, x.1.now)) result ((spec.function_arguments source.now (levels source.now depth)).run tokens.now) }
{
    if is_at(Terminal::RightParen, tokens) {
        no_arguments(alloc, tokens)
    } else {
        some_arguments(alloc, source, depth, tokens)
    }
}

fn some_body<'a>(
    alloc: Global,
    source: &[u8],
    place: Place,
    depth: usize,
    tokens: &'a [Token],
) -> Result<(Option<Expr>, &'a [Token]), ReadError<'a>>
    ensures { Gives (λ x. (x.0, x.1.now)) result ((spec.some_body source.now (levels source.now depth) place).run tokens.now) }
{
    let (_, rest) = take(Terminal::LeftBrace, place, tokens)?;
    let (body, rest) = expr(alloc, source, depth, rest)?;
    let (_, rest) = take(Terminal::RightBrace, Place::AfterOperand, rest)?;
    Ok((Some(body), rest))
}

fn function_body<'a>(
    alloc: Global,
    source: &[u8],
    place: Place,
    depth: usize,
    tokens: &'a [Token],
) -> Result<(Option<Expr>, &'a [Token]), ReadError<'a>>
    ensures { Gives (λ x. (x.0, x.1.now)) result ((spec.function_body source.now (levels source.now depth) place).run tokens.now) }
{
    if is_at(Terminal::Semicolon, tokens) {
        let (_, rest) = take(Terminal::Semicolon, place, tokens)?;
        Ok((None, rest))
    } else {
        some_body(alloc, source, place, depth, tokens)
    }
}

fn returned<'a>(
    alloc: Global,
    source: &[u8],
    depth: usize,
    tokens: &'a [Token],
) -> Result<(FunctionResult, &'a [Token]), ReadError<'a>>
    ensures { Gives (λ x. (x.0, x.1.now)) result ((spec.returned source.now (levels source.now depth)).run tokens.now) }
{
    let (word, rest) = take(Terminal::Returns, Place::Other, tokens)?;
    let (_, rest) = take(Terminal::LeftParen, Place::Other, rest)?;
    let (argument, rest) = argument(alloc, source, depth, rest)?;
    let (_, rest) = take(Terminal::RightParen, Place::AfterSort, rest)?;
    let at = word.at;
    Ok((FunctionResult::Returns { at, argument }, rest))
}

fn plain<'a>(
    alloc: Global,
    source: &[u8],
    depth: usize,
    tokens: &'a [Token],
) -> Result<(FunctionResult, &'a [Token]), ReadError<'a>>
    ensures { Gives (λ x. (x.0, x.1.now)) result ((spec.plain source.now (levels source.now depth)).run tokens.now) }
{
    let (colon, rest) = take(Terminal::Colon, Place::Other, tokens)?;
    let (sort, rest) = sort(alloc, source, depth, rest)?;
    let at = colon.at;
    Ok((FunctionResult::Plain { at, sort }, rest))
}

fn returned_end<'a>(
    alloc: Global,
    source: &[u8],
    depth: usize,
    tokens: &'a [Token],
) -> Result<((FunctionResult, Option<Expr>), &'a [Token]), ReadError<'a>>
    ensures { Gives (λ x. (x.0, x.1.now)) result ((seq (spec.returned source.now (levels source.now depth)) (spec.function_body source.now (levels source.now depth) at.Other)).run tokens.now) }
{
    let (output, rest) = returned(alloc, source, depth, tokens)?;
    let (body, rest) = function_body(alloc, source, Place::Other, depth, rest)?;
    Ok(((output, body), rest))
}

fn plain_end<'a>(
    alloc: Global,
    source: &[u8],
    depth: usize,
    tokens: &'a [Token],
) -> Result<((FunctionResult, Option<Expr>), &'a [Token]), ReadError<'a>>
    ensures { Gives (λ x. (x.0, x.1.now)) result ((seq (spec.plain source.now (levels source.now depth)) (spec.function_body source.now (levels source.now depth) at.AfterSort)).run tokens.now) }
{
    let (output, rest) = plain(alloc, source, depth, tokens)?;
    let (body, rest) = function_body(alloc, source, Place::AfterSort, depth, rest)?;
    Ok(((output, body), rest))
}

fn function_end<'a>(
    alloc: Global,
    source: &[u8],
    depth: usize,
    tokens: &'a [Token],
) -> Result<((FunctionResult, Option<Expr>), &'a [Token]), ReadError<'a>>
    ensures { Gives (λ x. (x.0, x.1.now)) result ((spec.function_end source.now (levels source.now depth)).run tokens.now) }
{
    if is_at(Terminal::Returns, tokens) {
        returned_end(alloc, source, depth, tokens)
    } else {
        plain_end(alloc, source, depth, tokens)
    }
}

/// The declaration of a function.
#[tactic(auto, unfolding(crate::specs::Decls::function))]
pub fn function<'a>(
    alloc: Global,
    source: &[u8],
    depth: usize,
    tokens: &'a [Token],
) -> Result<(Decl, &'a [Token]), ReadError<'a>>
    ensures { Gives (λ x. (x.0, x.1.now)) result ((spec.function source.now (levels source.now depth)).run tokens.now) }
{
    let (word, rest) = take(Terminal::Function, Place::Other, tokens)?;
    let (attributes, rest) = attributes(alloc, source, rest)?;
    let (name, rest) = name(alloc, source, Place::Other, rest)?;
    let (_, rest) = take(Terminal::LeftParen, Place::AfterDeclaredName, rest)?;
    let (arguments, rest) = function_arguments(alloc, source, depth, rest)?;
    let ((output, body), rest) = function_end(alloc, source, depth, rest)?;
    let at = word.at;
    let function = Function {
        at,
        attributes,
        name,
        arguments,
        output,
        body,
    };
    Ok((Decl::Function(function), rest))
}

/// An axiom.
#[tactic(auto, unfolding(crate::specs::Decls::axiom_decl))]
pub fn axiom<'a>(
    alloc: Global,
    source: &[u8],
    depth: usize,
    tokens: &'a [Token],
) -> Result<(Decl, &'a [Token]), ReadError<'a>>
    ensures { Gives (λ x. (x.0, x.1.now)) result ((spec.axiom_decl source.now (levels source.now depth)).run tokens.now) }
{
    let (word, rest) = take(Terminal::Axiom, Place::Other, tokens)?;
    let ((attributes, condition), rest) = condition(alloc, source, depth, rest)?;
    let at = word.at;
    let axiom = Axiom {
        at,
        attributes,
        condition,
    };
    Ok((Decl::Axiom(axiom), rest))
}
