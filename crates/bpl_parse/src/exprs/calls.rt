//! Arguments in parentheses.

ghost use Rattle.std.specs.Prelude.{◌≡◌, ◌<◌, ◌-◌, length};
ghost use Rattle.bpl_parse.specs.Decls.{levels};
ghost use Rattle.bpl_parse.specs.Exprs as spec;
ghost use Rattle.bpl_parse.specs.Gives.{Gives};
ghost use Rattle.bpl_parse.specs.Nests.{Nests, inner_expr};
ghost use Rattle.bpl_parse.specs.Reader.{as_expr};
ghost use Rattle.bpl_parse.specs.Tests.{is};
ghost use Rattle.bpl_parse.specs.declared.place.Place.TheVariants as at;
ghost use Rattle.bpl_rules.specs.Rules.{behind, form, maybe, run_many};
ghost use Rattle.bpl_tok.specs.declared.token.Terminal.TheVariants as k;

use super::grammar::Grammar;
use crate::error::ReadError;
use crate::lists::listed;
use crate::parts::Level;
use crate::place::Place;
use crate::tokens::{at_bottom, is_at, take};
use bpl_ast::Expr;
use bpl_tok::{Terminal, Token};
use sqlite_items::Items;
use std::alloc::Global;

fn no_arguments<'a>(
    alloc: Global,
    tokens: &'a [Token],
) -> Result<(Items<Expr>, &'a [Token]), ReadError<'a>>
    ensures { Gives (λ x. (x.0, x.1.now)) result ((spec.no_arguments).run tokens.now) }
{
    let (_, rest) = take(Terminal::RightParen, Place::Operand, tokens)?;
    Ok((Items::new(alloc), rest))
}

impl<
    's,
    F: for<'a> Fn(
        Global,
        &'s [u8],
        Level,
        usize,
        &'a [Token],
    ) -> Result<(Expr, &'a [Token]), ReadError<'a>>,
> Grammar<'s, F> {
    fn next_argument<'a>(&self, tokens: &'a [Token]) -> Result<(Expr, &'a [Token]), ReadError<'a>>
        requires deep { 0 < self.now.depth }
        requires nests { Nests self.now.source.now self.now.depth (F.pre self.now.nested) (F.post self.now.nested) }
        ensures { Gives (λ x. (x.0, x.1.now)) result ((behind at.AfterOperand (is k.Comma) (as_expr (inner_expr self.now.source.now self.now.depth))).run tokens.now) }
    {
        let (_, rest) = take(Terminal::Comma, Place::AfterOperand, tokens)?;
        self.nested(Level::Expr, rest)
    }

    fn more_arguments<'a>(
        &self,
        tokens: &'a [Token],
    ) -> Result<(Items<Expr>, &'a [Token]), ReadError<'a>>
        requires deep { 0 < self.now.depth }
        requires nests { Nests self.now.source.now self.now.depth (F.pre self.now.nested) (F.post self.now.nested) }
        ensures { Gives (λ x. (x.0, x.1.now)) result (run_many (behind at.AfterOperand (is k.Comma) (as_expr (inner_expr self.now.source.now self.now.depth))) (length tokens.now) tokens.now) }
    {
        let mut found = Items::new(self.alloc);
        let mut rest = tokens;
        for _ in 0..tokens.len() {
            if !is_at(Terminal::Comma, rest) {
                return Ok((found, rest));
            }
            let (next, after) = self.next_argument(rest)?;
            found.push(next)?;
            rest = after;
        }
        Ok((found, rest))
    }

    fn some_arguments<'a>(
        &self,
        tokens: &'a [Token],
    ) -> Result<(Items<Expr>, &'a [Token]), ReadError<'a>>
        requires deep { 0 < self.now.depth }
        requires nests { Nests self.now.source.now self.now.depth (F.pre self.now.nested) (F.post self.now.nested) }
        ensures { Gives (λ x. (x.0, x.1.now)) result ((spec.some_arguments (inner_expr self.now.source.now self.now.depth)).run tokens.now) }
    {
        let (first, rest) = self.nested(Level::Expr, tokens)?;
        let (more, rest) = self.more_arguments(rest)?;
        let (_, rest) = take(Terminal::RightParen, Place::AfterOperand, rest)?;
        Ok((listed(self.alloc, first, more)?, rest))
    }

    fn after_arguments<'a>(
        &self,
        tokens: &'a [Token],
    ) -> Result<(Items<Expr>, &'a [Token]), ReadError<'a>>
        requires deep { 0 < self.now.depth }
        requires nests { Nests self.now.source.now self.now.depth (F.pre self.now.nested) (F.post self.now.nested) }
        ensures { Gives (λ x. (x.0, x.1.now)) result ((spec.after_arguments (inner_expr self.now.source.now self.now.depth)).run tokens.now) }
    {
        if is_at(Terminal::RightParen, tokens) {
            no_arguments(self.alloc, tokens)
        } else {
            self.some_arguments(tokens)
        }
    }

    fn inside_arguments<'a>(
        &self,
        tokens: &'a [Token],
    ) -> Result<(Items<Expr>, &'a [Token]), ReadError<'a>>
        requires deep { 0 < self.now.depth }
        requires nests { Nests self.now.source.now self.now.depth (F.pre self.now.nested) (F.post self.now.nested) }
        ensures { Gives (λ x. (x.0, x.1.now)) result ((form at.Other (is k.LeftParen) (λ x. x.1) spec.after_arguments (inner_expr self.now.source.now self.now.depth)).run tokens.now) }
    {
        let (_, rest) = take(Terminal::LeftParen, Place::Other, tokens)?;
        self.after_arguments(rest)
    }

    /// Any number of expressions in parentheses.
    #[tactic(auto, unfolding(crate::specs::Exprs::arguments))]
    pub fn arguments<'a>(
        &self,
        tokens: &'a [Token],
    ) -> Result<(Items<Expr>, &'a [Token]), ReadError<'a>>
        requires nests { Nests self.now.source.now self.now.depth (F.pre self.now.nested) (F.post self.now.nested) }
        ensures { Gives (λ x. (x.0, x.1.now)) result ((spec.arguments (levels self.now.source.now self.now.depth)).run tokens.now) }
    {
        if self.depth == 0 {
            return Err(at_bottom(Terminal::LeftParen, Place::Other, tokens));
        }
        self.inside_arguments(tokens)
    }

    /// Arguments, or none.
    #[tactic(auto, unfolding(crate::specs::Exprs::arguments))]
    pub fn maybe_arguments<'a>(
        &self,
        tokens: &'a [Token],
    ) -> Result<(Option<Items<Expr>>, &'a [Token]), ReadError<'a>>
        requires nests { Nests self.now.source.now self.now.depth (F.pre self.now.nested) (F.post self.now.nested) }
        ensures { Gives (λ x. (x.0, x.1.now)) result ((maybe (spec.arguments (levels self.now.source.now self.now.depth))).run tokens.now) }
    {
        if is_at(Terminal::LeftParen, tokens) {
            let (values, rest) = self.arguments(tokens)?;
            Ok((Some(values), rest))
        } else {
            Ok((None, tokens))
        }
    }
}
