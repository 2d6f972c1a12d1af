//! Chains of `&&` and of `||`.

ghost use Rattle.std.specs.Prelude.{◌≡◌, ◌<◌, ◌-◌, IfOk, length};
ghost use Rattle.bpl_parse.specs.Decls.{levels};
ghost use Rattle.bpl_parse.specs.Exprs as spec;
ghost use Rattle.bpl_parse.specs.Gives.{Gives};
ghost use Rattle.bpl_parse.specs.Nests.{Nests};
ghost use Rattle.bpl_rules.specs.Rules.{run_many};

use super::grammar::Grammar;
use crate::error::ReadError;
use crate::lists::listed;
use crate::parts::{Level, LogicTail};
use crate::place::Place;
use crate::tokens::{at_of, is_at, take};
use bpl_ast::Expr;
use bpl_tok::{Terminal, Token};
use sqlite_items::Items;
use std::alloc::{AllocError, Global};

fn logic_of(alloc: Global, at: usize, first: Expr, tail: LogicTail) -> Result<Expr, AllocError>
    ensures { IfOk result (λ x. x ≡ spec.logic_of at (first, tail)) }
{
    match tail {
        LogicTail::Alone => Ok(first),
        LogicTail::Ands(more) => {
            let operands = listed(alloc, first, more)?;
            Ok(Expr::And { at, operands })
        }
        LogicTail::Ors(more) => {
            let operands = listed(alloc, first, more)?;
            Ok(Expr::Or { at, operands })
        }
    }
}

impl<
    's,
    F: for<'a> Fn(
        Global,
        &'s [u8],
        Level,
        usize,
        &'a [Token],
    ) -> Result<(Expr, &'a [Token]), ReadError<'a>>,
> Grammar<'s, F> {
    #[tactic(auto, unfolding(crate::specs::Exprs::conjunct))]
    fn conjunct<'a>(&self, tokens: &'a [Token]) -> Result<(Expr, &'a [Token]), ReadError<'a>>
        requires nests { Nests self.now.source.now self.now.depth (F.pre self.now.nested) (F.post self.now.nested) }
        ensures { Gives (λ x. (x.0, x.1.now)) result ((spec.conjunct self.now.source.now (levels self.now.source.now self.now.depth)).run tokens.now) }
    {
        let (_, rest) = take(Terminal::AndAnd, Place::AfterOperand, tokens)?;
        self.rel(rest)
    }

    fn conjuncts<'a>(
        &self,
        tokens: &'a [Token],
    ) -> Result<(Items<Expr>, &'a [Token]), ReadError<'a>>
        requires nests { Nests self.now.source.now self.now.depth (F.pre self.now.nested) (F.post self.now.nested) }
        ensures { Gives (λ x. (x.0, x.1.now)) result (run_many (spec.conjunct self.now.source.now (levels self.now.source.now self.now.depth)) (length tokens.now) tokens.now) }
    {
        let mut found = Items::new(self.alloc);
        let mut rest = tokens;
        for _ in 0..tokens.len() {
            if !is_at(Terminal::AndAnd, rest) {
                return Ok((found, rest));
            }
            let (next, after) = self.conjunct(rest)?;
            found.push(next)?;
            rest = after;
        }
        Ok((found, rest))
    }

    fn ands<'a>(&self, tokens: &'a [Token]) -> Result<(LogicTail, &'a [Token]), ReadError<'a>>
        requires nests { Nests self.now.source.now self.now.depth (F.pre self.now.nested) (F.post self.now.nested) }
        ensures { Gives (λ x. (x.0, x.1.now)) result ((spec.ands self.now.source.now (levels self.now.source.now self.now.depth)).run tokens.now) }
    {
        let (first, rest) = self.conjunct(tokens)?;
        let (more, rest) = self.conjuncts(rest)?;
        let operands = listed(self.alloc, first, more)?;
        Ok((LogicTail::Ands(operands), rest))
    }

    #[tactic(auto, unfolding(crate::specs::Exprs::disjunct))]
    fn disjunct<'a>(&self, tokens: &'a [Token]) -> Result<(Expr, &'a [Token]), ReadError<'a>>
        requires nests { Nests self.now.source.now self.now.depth (F.pre self.now.nested) (F.post self.now.nested) }
        ensures { Gives (λ x. (x.0, x.1.now)) result ((spec.disjunct self.now.source.now (levels self.now.source.now self.now.depth)).run tokens.now) }
    {
        let (_, rest) = take(Terminal::OrOr, Place::AfterOperand, tokens)?;
        self.rel(rest)
    }

    fn disjuncts<'a>(
        &self,
        tokens: &'a [Token],
    ) -> Result<(Items<Expr>, &'a [Token]), ReadError<'a>>
        requires nests { Nests self.now.source.now self.now.depth (F.pre self.now.nested) (F.post self.now.nested) }
        ensures { Gives (λ x. (x.0, x.1.now)) result (run_many (spec.disjunct self.now.source.now (levels self.now.source.now self.now.depth)) (length tokens.now) tokens.now) }
    {
        let mut found = Items::new(self.alloc);
        let mut rest = tokens;
        for _ in 0..tokens.len() {
            if !is_at(Terminal::OrOr, rest) {
                return Ok((found, rest));
            }
            let (next, after) = self.disjunct(rest)?;
            found.push(next)?;
            rest = after;
        }
        Ok((found, rest))
    }

    fn ors<'a>(&self, tokens: &'a [Token]) -> Result<(LogicTail, &'a [Token]), ReadError<'a>>
        requires nests { Nests self.now.source.now self.now.depth (F.pre self.now.nested) (F.post self.now.nested) }
        ensures { Gives (λ x. (x.0, x.1.now)) result ((spec.ors self.now.source.now (levels self.now.source.now self.now.depth)).run tokens.now) }
    {
        let (first, rest) = self.disjunct(tokens)?;
        let (more, rest) = self.disjuncts(rest)?;
        let operands = listed(self.alloc, first, more)?;
        Ok((LogicTail::Ors(operands), rest))
    }

    #[tactic(auto, unfolding(crate::specs::Exprs::logic_tail, crate::specs::Exprs::conjunct, crate::specs::Exprs::disjunct))]
    fn logic_tail<'a>(&self, tokens: &'a [Token]) -> Result<(LogicTail, &'a [Token]), ReadError<'a>>
        requires nests { Nests self.now.source.now self.now.depth (F.pre self.now.nested) (F.post self.now.nested) }
        ensures { Gives (λ x. (x.0, x.1.now)) result ((spec.logic_tail self.now.source.now (levels self.now.source.now self.now.depth)).run tokens.now) }
    {
        if is_at(Terminal::AndAnd, tokens) {
            self.ands(tokens)
        } else if is_at(Terminal::OrOr, tokens) {
            self.ors(tokens)
        } else {
            Ok((LogicTail::Alone, tokens))
        }
    }

    /// A chain of `&&` or of `||`, or one operand alone.
    #[tactic(auto, unfolding(crate::specs::Exprs::logic))]
    pub fn logic<'a>(&self, tokens: &'a [Token]) -> Result<(Expr, &'a [Token]), ReadError<'a>>
        requires nests { Nests self.now.source.now self.now.depth (F.pre self.now.nested) (F.post self.now.nested) }
        ensures { Gives (λ x. (x.0, x.1.now)) result ((spec.logic self.now.source.now (levels self.now.source.now self.now.depth)).run tokens.now) }
    {
        let at = at_of(tokens);
        let (first, rest) = self.rel(tokens)?;
        let (tail, rest) = self.logic_tail(rest)?;
        Ok((logic_of(self.alloc, at, first, tail)?, rest))
    }
}
