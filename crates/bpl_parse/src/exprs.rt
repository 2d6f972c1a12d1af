//! Expressions.

ghost use Rattle.bpl_parse.specs.Decls.{levels};
ghost use Rattle.bpl_parse.specs.Exprs as spec;
ghost use Rattle.bpl_parse.specs.Gives.{Gives};
ghost use Rattle.bpl_parse.specs.Stmts as stmts;

use crate::error::ReadError;
use crate::identifiers::attributes;
use crate::parts::Level;
use crate::place::Place;
use crate::tokens::take;
use bpl_ast::{Attribute, Expr};
use bpl_tok::{Terminal, Token};
use grammar::Grammar;
use sqlite_items::Items;
use std::alloc::Global;

mod atoms;
mod calls;
mod chains;
mod grammar;
mod implications;
mod operators;
mod suffixes;

/// What nests in an expression.
fn nested<'a>(
    alloc: Global,
    source: &[u8],
    level: Level,
    depth: usize,
    tokens: &'a [Token],
) -> Result<(Expr, &'a [Token]), ReadError<'a>>
    ensures { Gives (λ x. (x.0, x.1.now)) result ((spec.nested_expr level source.now (levels source.now depth)).run tokens.now) }
{
    let grammar = Grammar {
        alloc,
        source,
        depth,
        nested,
    };
    match level {
        Level::Expr => grammar.expr(tokens),
        Level::Implication => grammar.implication(tokens),
        Level::Unary => grammar.unary(tokens),
    }
}

/// An expression.
pub fn expr<'a>(
    alloc: Global,
    source: &[u8],
    depth: usize,
    tokens: &'a [Token],
) -> Result<(Expr, &'a [Token]), ReadError<'a>>
    ensures { Gives (λ x. (x.0, x.1.now)) result ((spec.expr source.now (levels source.now depth)).run tokens.now) }
{
    nested(alloc, source, Level::Expr, depth, tokens)
}

/// Any number of expressions in parentheses.
pub fn arguments<'a>(
    alloc: Global,
    source: &[u8],
    depth: usize,
    tokens: &'a [Token],
) -> Result<(Items<Expr>, &'a [Token]), ReadError<'a>>
    ensures { Gives (λ x. (x.0, x.1.now)) result ((spec.arguments (levels source.now depth)).run tokens.now) }
{
    let grammar = Grammar {
        alloc,
        source,
        depth,
        nested,
    };
    grammar.arguments(tokens)
}

/// Attributes, an expression and the semicolon after it.
pub fn condition<'a>(
    alloc: Global,
    source: &[u8],
    depth: usize,
    tokens: &'a [Token],
) -> Result<((Items<Attribute>, Expr), &'a [Token]), ReadError<'a>>
    ensures { Gives (λ x. (x.0, x.1.now)) result ((stmts.condition source.now (levels source.now depth)).run tokens.now) }
{
    let (attributes, rest) = attributes(alloc, source, tokens)?;
    let (condition, rest) = expr(alloc, source, depth, rest)?;
    let (_, rest) = take(Terminal::Semicolon, Place::AfterOperand, rest)?;
    Ok(((attributes, condition), rest))
}
