//! Variables and parameters.

ghost use Rattle.bpl_parse.specs.Decls as spec;
ghost use Rattle.bpl_parse.specs.Decls.{levels};
ghost use Rattle.bpl_parse.specs.Gives.{Gives};
ghost use Rattle.bpl_parse.specs.Tests.{is};
ghost use Rattle.bpl_parse.specs.declared.place.Place.TheVariants as at;
ghost use Rattle.bpl_rules.specs.Rules.{behind, maybe, run_many, separated};
ghost use Rattle.bpl_tok.specs.declared.token.Terminal.TheVariants as k;
ghost use Rattle.std.specs.Prelude.{◌≡◌, length};

use crate::error::ReadError;
use crate::identifiers::{attributes, names};
use crate::lists::listed;
use crate::place::Place;
use crate::sorts::sort;
use crate::tokens::{at_of, is_at, take};
use bpl_ast::{Decl, Group, Heads, ParameterGroup, Variables};
use bpl_tok::{Terminal, Token};
use sqlite_items::Items;
use std::alloc::Global;

#[tactic(auto, unfolding(crate::specs::Decls::variable_group))]
fn variable_group<'a>(
    alloc: Global,
    source: &[u8],
    depth: usize,
    tokens: &'a [Token],
) -> Result<(Group, &'a [Token]), ReadError<'a>>
    ensures { Gives (λ x. (x.0, x.1.now)) result ((spec.variable_group source.now (levels source.now depth)).run tokens.now) }
{
    let at = at_of(tokens);
    let (names, rest) = names(alloc, source, tokens)?;
    let (_, rest) = take(Terminal::Colon, Place::Other, rest)?;
    let (sort, rest) = sort(alloc, source, depth, rest)?;
    Ok((Group { at, names, sort }, rest))
}

fn next_group<'a>(
    alloc: Global,
    source: &[u8],
    depth: usize,
    tokens: &'a [Token],
) -> Result<(Group, &'a [Token]), ReadError<'a>>
    ensures { Gives (λ x. (x.0, x.1.now)) result ((behind at.Other (is k.Comma) (spec.variable_group source.now (levels source.now depth))).run tokens.now) }
{
    let (_, rest) = take(Terminal::Comma, Place::Other, tokens)?;
    variable_group(alloc, source, depth, rest)
}

fn more_groups<'a>(
    alloc: Global,
    source: &[u8],
    depth: usize,
    tokens: &'a [Token],
) -> Result<(Items<Group>, &'a [Token]), ReadError<'a>>
    ensures { Gives (λ x. (x.0, x.1.now)) result (run_many (behind at.Other (is k.Comma) (spec.variable_group source.now (levels source.now depth))) (length tokens.now) tokens.now) }
{
    let mut found = Items::new(alloc);
    let mut rest = tokens;
    for _ in 0..tokens.len() {
        if !is_at(Terminal::Comma, rest) {
            return Ok((found, rest));
        }
        let (next, after) = next_group(alloc, source, depth, rest)?;
        found.push(next)?;
        rest = after;
    }
    Ok((found, rest))
}

#[tactic(auto, unfolding(crate::specs::Decls::variable_group))]
fn groups<'a>(
    alloc: Global,
    source: &[u8],
    depth: usize,
    tokens: &'a [Token],
) -> Result<(Items<Group>, &'a [Token]), ReadError<'a>>
    ensures { Gives (λ x. (x.0, x.1.now)) result ((separated at.Other (is k.Comma) (spec.variable_group source.now (levels source.now depth))).run tokens.now) }
{
    let (first, rest) = variable_group(alloc, source, depth, tokens)?;
    let (more, rest) = more_groups(alloc, source, depth, rest)?;
    Ok((listed(alloc, first, more)?, rest))
}

/// Variables, of the program or of a body.
#[tactic(auto, unfolding(crate::specs::Decls::variables))]
pub fn variables<'a>(
    alloc: Global,
    source: &[u8],
    depth: usize,
    tokens: &'a [Token],
) -> Result<(Variables, &'a [Token]), ReadError<'a>>
    ensures { Gives (λ x. (x.0, x.1.now)) result ((spec.variables source.now (levels source.now depth)).run tokens.now) }
{
    let (word, rest) = take(Terminal::Var, Place::Statement, tokens)?;
    let (attributes, rest) = attributes(alloc, source, rest)?;
    let (groups, rest) = groups(alloc, source, depth, rest)?;
    let (_, rest) = take(Terminal::Semicolon, Place::AfterSort, rest)?;
    let at = word.at;
    Ok((
        Variables {
            at,
            attributes,
            groups,
        },
        rest,
    ))
}

/// The declaration of global variables.
pub fn globals<'a>(
    alloc: Global,
    source: &[u8],
    depth: usize,
    tokens: &'a [Token],
) -> Result<(Decl, &'a [Token]), ReadError<'a>>
    ensures { Gives (λ x. (x.0, x.1.now)) result ((spec.globals source.now (levels source.now depth)).run tokens.now) }
{
    let (variables, rest) = variables(alloc, source, depth, tokens)?;
    Ok((Decl::Variables(variables), rest))
}

#[tactic(auto, unfolding(crate::specs::Decls::parameter_group))]
fn parameter_group<'a>(
    alloc: Global,
    source: &[u8],
    depth: usize,
    tokens: &'a [Token],
) -> Result<(ParameterGroup, &'a [Token]), ReadError<'a>>
    ensures { Gives (λ x. (x.0, x.1.now)) result ((spec.parameter_group source.now (levels source.now depth)).run tokens.now) }
{
    let at = at_of(tokens);
    let (attributes, rest) = attributes(alloc, source, tokens)?;
    let (names, rest) = names(alloc, source, rest)?;
    let (_, rest) = take(Terminal::Colon, Place::Other, rest)?;
    let (sort, rest) = sort(alloc, source, depth, rest)?;
    let group = ParameterGroup {
        at,
        attributes,
        names,
        sort,
    };
    Ok((group, rest))
}

fn next_parameter_group<'a>(
    alloc: Global,
    source: &[u8],
    depth: usize,
    tokens: &'a [Token],
) -> Result<(ParameterGroup, &'a [Token]), ReadError<'a>>
    ensures { Gives (λ x. (x.0, x.1.now)) result ((behind at.Other (is k.Comma) (spec.parameter_group source.now (levels source.now depth))).run tokens.now) }
{
    let (_, rest) = take(Terminal::Comma, Place::Other, tokens)?;
    parameter_group(alloc, source, depth, rest)
}

fn more_parameter_groups<'a>(
    alloc: Global,
    source: &[u8],
    depth: usize,
    tokens: &'a [Token],
) -> Result<(Items<ParameterGroup>, &'a [Token]), ReadError<'a>>
    ensures { Gives (λ x. (x.0, x.1.now)) result (run_many (behind at.Other (is k.Comma) (spec.parameter_group source.now (levels source.now depth))) (length tokens.now) tokens.now) }
{
    let mut found = Items::new(alloc);
    let mut rest = tokens;
    for _ in 0..tokens.len() {
        if !is_at(Terminal::Comma, rest) {
            return Ok((found, rest));
        }
        let (next, after) = next_parameter_group(alloc, source, depth, rest)?;
        found.push(next)?;
        rest = after;
    }
    Ok((found, rest))
}

#[tactic(auto, unfolding(crate::specs::Decls::parameter_group))]
fn parameter_groups<'a>(
    alloc: Global,
    source: &[u8],
    depth: usize,
    tokens: &'a [Token],
) -> Result<(Items<ParameterGroup>, &'a [Token]), ReadError<'a>>
    ensures { Gives (λ x. (x.0, x.1.now)) result ((separated at.Other (is k.Comma) (spec.parameter_group source.now (levels source.now depth))).run tokens.now) }
{
    let (first, rest) = parameter_group(alloc, source, depth, tokens)?;
    let (more, rest) = more_parameter_groups(alloc, source, depth, rest)?;
    Ok((listed(alloc, first, more)?, rest))
}

fn no_parameters<'a>(
    alloc: Global,
    tokens: &'a [Token],
) -> Result<(Items<ParameterGroup>, &'a [Token]), ReadError<'a>>
    ensures { Gives (λ x. (x.0, x.1.now)) result (spec.no_parameters.run tokens.now) }
{
    let (_, rest) = take(Terminal::RightParen, Place::Other, tokens)?;
    Ok((Items::new(alloc), rest))
}

fn some_parameters<'a>(
    alloc: Global,
    source: &[u8],
    depth: usize,
    tokens: &'a [Token],
) -> Result<(Items<ParameterGroup>, &'a [Token]), ReadError<'a>>
    ensures { Gives (λ x. (x.0, x.1.now)) result ((spec.some_parameters source.now (levels source.now depth)).run tokens.now) }
{
    let (groups, rest) = parameter_groups(alloc, source, depth, tokens)?;
    let (_, rest) = take(Terminal::RightParen, Place::AfterSort, rest)?;
    Ok((groups, rest))
}

fn parameters<'a>(
    alloc: Global,
    source: &[u8],
    depth: usize,
    tokens: &'a [Token],
) -> Result<(Items<ParameterGroup>, &'a [Token]), ReadError<'a>>
    ensures { Gives (λ x. (x.0, x.1.now)) result ((spec.parameters source.now (levels source.now depth)).run tokens.now) }
{
    if is_at(Terminal::RightParen, tokens) {
        no_parameters(alloc, tokens)
    } else {
        some_parameters(alloc, source, depth, tokens)
    }
}

fn outs<'a>(
    alloc: Global,
    source: &[u8],
    depth: usize,
    tokens: &'a [Token],
) -> Result<(Items<ParameterGroup>, &'a [Token]), ReadError<'a>>
    ensures { Gives (λ x. (x.0, x.1.now)) result ((spec.outs source.now (levels source.now depth)).run tokens.now) }
{
    let (_, rest) = take(Terminal::Returns, Place::Other, tokens)?;
    let (_, rest) = take(Terminal::LeftParen, Place::Other, rest)?;
    parameters(alloc, source, depth, rest)
}

fn maybe_outs<'a>(
    alloc: Global,
    source: &[u8],
    depth: usize,
    tokens: &'a [Token],
) -> Result<(Items<ParameterGroup>, &'a [Token]), ReadError<'a>>
    ensures { Gives (λ x. (x.0, x.1.now)) result ((spec.maybe_outs source.now (levels source.now depth)).run tokens.now) }
{
    if is_at(Terminal::Returns, tokens) {
        outs(alloc, source, depth, tokens)
    } else {
        Ok((Items::new(alloc), tokens))
    }
}

/// The parameters of a procedure.
#[tactic(auto, unfolding(crate::specs::Decls::heads))]
pub fn heads<'a>(
    alloc: Global,
    source: &[u8],
    depth: usize,
    tokens: &'a [Token],
) -> Result<(Heads, &'a [Token]), ReadError<'a>>
    ensures { Gives (λ x. (x.0, x.1.now)) result ((spec.heads source.now (levels source.now depth)).run tokens.now) }
{
    let (paren, rest) = take(Terminal::LeftParen, Place::AfterDeclaredName, tokens)?;
    let (ins, rest) = parameters(alloc, source, depth, rest)?;
    let (outs, rest) = maybe_outs(alloc, source, depth, rest)?;
    let at = paren.at;
    Ok((Heads { at, ins, outs }, rest))
}
