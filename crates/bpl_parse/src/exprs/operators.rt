//! Negations, concatenations and equations.

ghost use Rattle.std.specs.Prelude.{◌≡◌, ◌<◌, ◌-◌, ◌∷◌, IfOk, length};
ghost use Rattle.bpl_ast.specs.declared.expr.Expr.TheVariants as e;
ghost use Rattle.bpl_parse.specs.Decls.{levels};
ghost use Rattle.bpl_parse.specs.Exprs as spec;
ghost use Rattle.bpl_parse.specs.Exprs.{unary};
ghost use Rattle.bpl_parse.specs.Gives.{Gives};
ghost use Rattle.bpl_parse.specs.Nests.{Nests};
ghost use Rattle.bpl_parse.specs.Tests.{is};
ghost use Rattle.bpl_parse.specs.declared.place.Place.TheVariants as at;
ghost use Rattle.bpl_rules.specs.Rules.{behind, form, run_many};
ghost use Rattle.bpl_tok.specs.declared.token.Terminal.TheVariants as k;

use super::grammar::Grammar;
use crate::error::ReadError;
use crate::lists::listed;
use crate::parts::{Level, RelationTail};
use crate::place::Place;
use crate::tokens::{at_bottom, at_of, is_at, take};
use bpl_ast::Expr;
use bpl_tok::{Terminal, Token};
use sqlite_items::{Boxed, Items};
use std::alloc::{AllocError, Global};

fn concatenation(
    alloc: Global,
    at: usize,
    first: Expr,
    more: Items<Expr>,
) -> Result<Expr, AllocError>
    ensures { IfOk result (λ x. x ≡ spec.chain_of (e.Concat at) (first ∷ more)) }
{
    if more.is_empty() {
        return Ok(first);
    }
    let operands = listed(alloc, first, more)?;
    Ok(Expr::Concat { at, operands })
}

fn relation_of(alloc: Global, at: usize, left: Expr, tail: RelationTail) -> Result<Expr, AllocError>
    ensures { IfOk result (λ x. x ≡ spec.relation_of at (left, tail)) }
{
    match tail {
        RelationTail::Alone => Ok(left),
        RelationTail::Equal(right) => {
            let left = Boxed::new(alloc, left)?;
            let right = Boxed::new(alloc, right)?;
            Ok(Expr::Equal { at, left, right })
        }
        RelationTail::NotEqual(right) => {
            let left = Boxed::new(alloc, left)?;
            let right = Boxed::new(alloc, right)?;
            Ok(Expr::NotEqual { at, left, right })
        }
    }
}

impl<
    's,
    F: for<'a> Fn(
        Global,
        &'s [u8],
        Level,
        usize,
        &'a [Token],
    ) -> Result<(Expr, &'a [Token]), ReadError<'a>>,
> Grammar<'s, F> {
    fn inside_negation<'a>(&self, tokens: &'a [Token]) -> Result<(Expr, &'a [Token]), ReadError<'a>>
        requires deep { 0 < self.now.depth }
        requires nests { Nests self.now.source.now self.now.depth (F.pre self.now.nested) (F.post self.now.nested) }
        ensures { Gives (λ x. (x.0, x.1.now)) result ((form at.Operand (is k.Bang) spec.negation_of spec.after_bang (unary self.now.source.now (levels self.now.source.now (self.now.depth - 1)))).run tokens.now) }
    {
        let (bang, rest) = take(Terminal::Bang, Place::Operand, tokens)?;
        let (operand, rest) = self.nested(Level::Unary, rest)?;
        let at = bang.at;
        let operand = Boxed::new(self.alloc, operand)?;
        Ok((Expr::Not { at, operand }, rest))
    }

    /// `!` and its operand.
    #[tactic(auto, unfolding(crate::specs::Exprs::negation))]
    pub fn negation<'a>(&self, tokens: &'a [Token]) -> Result<(Expr, &'a [Token]), ReadError<'a>>
        requires nests { Nests self.now.source.now self.now.depth (F.pre self.now.nested) (F.post self.now.nested) }
        ensures { Gives (λ x. (x.0, x.1.now)) result ((spec.negation (levels self.now.source.now self.now.depth)).run tokens.now) }
    {
        if self.depth == 0 {
            return Err(at_bottom(Terminal::Bang, Place::Operand, tokens));
        }
        self.inside_negation(tokens)
    }

    /// An operand, with `!` before it or without.
    #[tactic(auto, unfolding(crate::specs::Exprs::unary, crate::specs::Exprs::negation))]
    pub fn unary<'a>(&self, tokens: &'a [Token]) -> Result<(Expr, &'a [Token]), ReadError<'a>>
        requires nests { Nests self.now.source.now self.now.depth (F.pre self.now.nested) (F.post self.now.nested) }
        ensures { Gives (λ x. (x.0, x.1.now)) result ((spec.unary self.now.source.now (levels self.now.source.now self.now.depth)).run tokens.now) }
    {
        if is_at(Terminal::Bang, tokens) {
            self.negation(tokens)
        } else {
            self.post(tokens)
        }
    }

    fn next_unary<'a>(&self, tokens: &'a [Token]) -> Result<(Expr, &'a [Token]), ReadError<'a>>
        requires nests { Nests self.now.source.now self.now.depth (F.pre self.now.nested) (F.post self.now.nested) }
        ensures { Gives (λ x. (x.0, x.1.now)) result ((behind at.AfterOperand (is k.PlusPlus) (spec.unary self.now.source.now (levels self.now.source.now self.now.depth))).run tokens.now) }
    {
        let (_, rest) = take(Terminal::PlusPlus, Place::AfterOperand, tokens)?;
        self.unary(rest)
    }

    fn more_unaries<'a>(
        &self,
        tokens: &'a [Token],
    ) -> Result<(Items<Expr>, &'a [Token]), ReadError<'a>>
        requires nests { Nests self.now.source.now self.now.depth (F.pre self.now.nested) (F.post self.now.nested) }
        ensures { Gives (λ x. (x.0, x.1.now)) result (run_many (behind at.AfterOperand (is k.PlusPlus) (spec.unary self.now.source.now (levels self.now.source.now self.now.depth))) (length tokens.now) tokens.now) }
    {
        let mut found = Items::new(self.alloc);
        let mut rest = tokens;
        for _ in 0..tokens.len() {
            if !is_at(Terminal::PlusPlus, rest) {
                return Ok((found, rest));
            }
            let (next, after) = self.next_unary(rest)?;
            found.push(next)?;
            rest = after;
        }
        Ok((found, rest))
    }

    #[tactic(auto, unfolding(crate::specs::Exprs::cat))]
    fn cat<'a>(&self, tokens: &'a [Token]) -> Result<(Expr, &'a [Token]), ReadError<'a>>
        requires nests { Nests self.now.source.now self.now.depth (F.pre self.now.nested) (F.post self.now.nested) }
        ensures { Gives (λ x. (x.0, x.1.now)) result ((spec.cat self.now.source.now (levels self.now.source.now self.now.depth)).run tokens.now) }
    {
        let at = at_of(tokens);
        let (first, rest) = self.unary(tokens)?;
        let (more, rest) = self.more_unaries(rest)?;
        Ok((concatenation(self.alloc, at, first, more)?, rest))
    }

    fn equal_to<'a>(
        &self,
        tokens: &'a [Token],
    ) -> Result<(RelationTail, &'a [Token]), ReadError<'a>>
        requires nests { Nests self.now.source.now self.now.depth (F.pre self.now.nested) (F.post self.now.nested) }
        ensures { Gives (λ x. (x.0, x.1.now)) result ((spec.equal_to self.now.source.now (levels self.now.source.now self.now.depth)).run tokens.now) }
    {
        let (_, rest) = take(Terminal::Equal, Place::AfterOperand, tokens)?;
        let (right, rest) = self.cat(rest)?;
        Ok((RelationTail::Equal(right), rest))
    }

    fn unequal_to<'a>(
        &self,
        tokens: &'a [Token],
    ) -> Result<(RelationTail, &'a [Token]), ReadError<'a>>
        requires nests { Nests self.now.source.now self.now.depth (F.pre self.now.nested) (F.post self.now.nested) }
        ensures { Gives (λ x. (x.0, x.1.now)) result ((spec.unequal_to self.now.source.now (levels self.now.source.now self.now.depth)).run tokens.now) }
    {
        let (_, rest) = take(Terminal::NotEqual, Place::AfterOperand, tokens)?;
        let (right, rest) = self.cat(rest)?;
        Ok((RelationTail::NotEqual(right), rest))
    }

    #[tactic(auto, unfolding(crate::specs::Exprs::relation_tail))]
    fn relation_tail<'a>(
        &self,
        tokens: &'a [Token],
    ) -> Result<(RelationTail, &'a [Token]), ReadError<'a>>
        requires nests { Nests self.now.source.now self.now.depth (F.pre self.now.nested) (F.post self.now.nested) }
        ensures { Gives (λ x. (x.0, x.1.now)) result ((spec.relation_tail self.now.source.now (levels self.now.source.now self.now.depth)).run tokens.now) }
    {
        if is_at(Terminal::Equal, tokens) {
            self.equal_to(tokens)
        } else if is_at(Terminal::NotEqual, tokens) {
            self.unequal_to(tokens)
        } else {
            Ok((RelationTail::Alone, tokens))
        }
    }

    /// An equation, or one side alone.
    #[tactic(auto, unfolding(crate::specs::Exprs::rel))]
    pub fn rel<'a>(&self, tokens: &'a [Token]) -> Result<(Expr, &'a [Token]), ReadError<'a>>
        requires nests { Nests self.now.source.now self.now.depth (F.pre self.now.nested) (F.post self.now.nested) }
        ensures { Gives (λ x. (x.0, x.1.now)) result ((spec.rel self.now.source.now (levels self.now.source.now self.now.depth)).run tokens.now) }
    {
        let at = at_of(tokens);
        let (left, rest) = self.cat(tokens)?;
        let (tail, rest) = self.relation_tail(rest)?;
        Ok((relation_of(self.alloc, at, left, tail)?, rest))
    }
}
