//! Guards of `if` and `while`, and invariants.

ghost use Rattle.std.specs.Prelude.{◌≡◌, length};
ghost use Rattle.bpl_parse.specs.Decls.{levels};
ghost use Rattle.bpl_parse.specs.Gives.{Gives};
ghost use Rattle.bpl_parse.specs.Stmts as spec;
ghost use Rattle.bpl_parse.specs.Tests.{begins_invariant};
ghost use Rattle.bpl_rules.specs.Rules.{heads, run_many};

use crate::error::ReadError;
use crate::exprs::{condition, expr};
use crate::place::Place;
use crate::tokens::{at_of, is_at, take};
use bpl_ast::{Guard, Invariant};
use bpl_tok::{Terminal, Token};
use sqlite_items::Items;
use std::alloc::Global;

fn any_guard<'a>(tokens: &'a [Token]) -> Result<(Guard, &'a [Token]), ReadError<'a>>
    ensures { Gives (λ x. (x.0, x.1.now)) result ((spec.any_guard).run tokens.now) }
{
    let (star, rest) = take(Terminal::Star, Place::Operand, tokens)?;
    let (_, rest) = take(Terminal::RightParen, Place::Other, rest)?;
    Ok((Guard::Any { at: star.at }, rest))
}

fn condition_guard<'a>(
    alloc: Global,
    source: &[u8],
    depth: usize,
    tokens: &'a [Token],
) -> Result<(Guard, &'a [Token]), ReadError<'a>>
    ensures { Gives (λ x. (x.0, x.1.now)) result ((spec.condition_guard source.now (levels source.now depth)).run tokens.now) }
{
    let (condition, rest) = expr(alloc, source, depth, tokens)?;
    let (_, rest) = take(Terminal::RightParen, Place::AfterOperand, rest)?;
    Ok((Guard::Condition { condition }, rest))
}

/// A guard and the parenthesis after it.
#[tactic(auto, unfolding(crate::specs::Stmts::guard))]
pub fn guard<'a>(
    alloc: Global,
    source: &[u8],
    depth: usize,
    tokens: &'a [Token],
) -> Result<(Guard, &'a [Token]), ReadError<'a>>
    ensures { Gives (λ x. (x.0, x.1.now)) result ((spec.guard source.now (levels source.now depth)).run tokens.now) }
{
    if is_at(Terminal::Star, tokens) {
        any_guard(tokens)
    } else {
        condition_guard(alloc, source, depth, tokens)
    }
}

fn freedom<'a>(tokens: &'a [Token]) -> Result<(bool, &'a [Token]), ReadError<'a>>
    ensures { Gives (λ x. (x.0, x.1.now)) result ((spec.freedom).run tokens.now) }
{
    if is_at(Terminal::Free, tokens) {
        let (_, rest) = take(Terminal::Free, Place::Other, tokens)?;
        Ok((true, rest))
    } else {
        Ok((false, tokens))
    }
}

#[tactic(auto, unfolding(crate::specs::Stmts::invariant))]
fn invariant<'a>(
    alloc: Global,
    source: &[u8],
    depth: usize,
    tokens: &'a [Token],
) -> Result<(Invariant, &'a [Token]), ReadError<'a>>
    ensures { Gives (λ x. (x.0, x.1.now)) result ((spec.invariant source.now (levels source.now depth)).run tokens.now) }
{
    let at = at_of(tokens);
    let (free, rest) = freedom(tokens)?;
    let (_, rest) = take(Terminal::Invariant, Place::Other, rest)?;
    let ((attributes, condition), rest) = condition(alloc, source, depth, rest)?;
    let invariant = Invariant {
        at,
        free,
        attributes,
        condition,
    };
    Ok((invariant, rest))
}

fn is_at_invariant(tokens: &[Token]) -> bool
    ensures { result ≡ heads begins_invariant tokens.now }
{
    is_at(Terminal::Free, tokens) || is_at(Terminal::Invariant, tokens)
}

/// Invariants, any number of them.
pub fn invariants<'a>(
    alloc: Global,
    source: &[u8],
    depth: usize,
    tokens: &'a [Token],
) -> Result<(Items<Invariant>, &'a [Token]), ReadError<'a>>
    ensures { Gives (λ x. (x.0, x.1.now)) result (run_many (spec.invariant source.now (levels source.now depth)) (length tokens.now) tokens.now) }
{
    let mut found = Items::new(alloc);
    let mut rest = tokens;
    for _ in 0..tokens.len() {
        if !is_at_invariant(rest) {
            return Ok((found, rest));
        }
        let (next, after) = invariant(alloc, source, depth, rest)?;
        found.push(next)?;
        rest = after;
    }
    Ok((found, rest))
}
