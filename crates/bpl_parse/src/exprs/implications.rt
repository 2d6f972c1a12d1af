//! Implications, equivalences and choices.

ghost use Rattle.std.specs.Prelude.{◌≡◌, ◌<◌, ◌-◌, ◌∷◌, IfOk, length};
ghost use Rattle.bpl_ast.specs.declared.expr.Expr.TheVariants as e;
ghost use Rattle.bpl_parse.specs.Decls.{levels};
ghost use Rattle.bpl_parse.specs.Exprs as spec;
ghost use Rattle.bpl_parse.specs.Exprs.{implication};
ghost use Rattle.bpl_parse.specs.Gives.{Gives};
ghost use Rattle.bpl_parse.specs.Nests.{Nests, inner_expr};
ghost use Rattle.bpl_parse.specs.Tests.{is};
ghost use Rattle.bpl_parse.specs.declared.place.Place.TheVariants as at;
ghost use Rattle.bpl_rules.specs.Rules.{behind, form, run_many};
ghost use Rattle.bpl_tok.specs.declared.token.Terminal.TheVariants as k;

use super::grammar::Grammar;
use crate::error::ReadError;
use crate::lists::listed;
use crate::parts::{ImplicationTail, Level};
use crate::place::Place;
use crate::tokens::{at_bottom, at_of, is_at, take};
use bpl_ast::Expr;
use bpl_tok::{Terminal, Token};
use sqlite_items::{Boxed, Items};
use std::alloc::{AllocError, Global};

fn implication_of(
    alloc: Global,
    at: usize,
    first: Expr,
    tail: ImplicationTail,
) -> Result<Expr, AllocError>
    ensures { IfOk result (λ x. x ≡ spec.implication_of at (first, tail)) }
{
    match tail {
        ImplicationTail::Alone => Ok(first),
        ImplicationTail::Right(right) => {
            let left = Boxed::new(alloc, first)?;
            let right = Boxed::new(alloc, right)?;
            Ok(Expr::Implies { at, left, right })
        }
        ImplicationTail::Lefts(more) => {
            let operands = listed(alloc, first, more)?;
            Ok(Expr::ImpliedBy { at, operands })
        }
    }
}

fn equivalence(alloc: Global, at: usize, first: Expr, more: Items<Expr>) -> Result<Expr, AllocError>
    ensures { IfOk result (λ x. x ≡ spec.chain_of (e.Equivalent at) (first ∷ more)) }
{
    if more.is_empty() {
        return Ok(first);
    }
    let operands = listed(alloc, first, more)?;
    Ok(Expr::Equivalent { at, operands })
}

fn choice_of(
    alloc: Global,
    at: usize,
    condition: Expr,
    yes: Expr,
    no: Expr,
) -> Result<Expr, AllocError>
    ensures { IfOk result (λ x. x ≡ e.Choice at condition yes no) }
{
    let condition = Boxed::new(alloc, condition)?;
    let yes = Boxed::new(alloc, yes)?;
    let no = Boxed::new(alloc, no)?;
    Ok(Expr::Choice {
        at,
        condition,
        yes,
        no,
    })
}

impl<
    's,
    F: for<'a> Fn(
        Global,
        &'s [u8],
        Level,
        usize,
        &'a [Token],
    ) -> Result<(Expr, &'a [Token]), ReadError<'a>>,
> Grammar<'s, F> {
    fn inside_right<'a>(&self, tokens: &'a [Token]) -> Result<(Expr, &'a [Token]), ReadError<'a>>
        requires deep { 0 < self.now.depth }
        requires nests { Nests self.now.source.now self.now.depth (F.pre self.now.nested) (F.post self.now.nested) }
        ensures { Gives (λ x. (x.0, x.1.now)) result ((form at.AfterOperand (is k.Implies) (λ x. x.1) spec.after_implies (implication self.now.source.now (levels self.now.source.now (self.now.depth - 1)))).run tokens.now) }
    {
        let (_, rest) = take(Terminal::Implies, Place::AfterOperand, tokens)?;
        self.nested(Level::Implication, rest)
    }

    /// `==>` and its right side.
    #[tactic(auto, unfolding(crate::specs::Exprs::right))]
    pub fn right<'a>(&self, tokens: &'a [Token]) -> Result<(Expr, &'a [Token]), ReadError<'a>>
        requires nests { Nests self.now.source.now self.now.depth (F.pre self.now.nested) (F.post self.now.nested) }
        ensures { Gives (λ x. (x.0, x.1.now)) result ((spec.right (levels self.now.source.now self.now.depth)).run tokens.now) }
    {
        if self.depth == 0 {
            return Err(at_bottom(Terminal::Implies, Place::AfterOperand, tokens));
        }
        self.inside_right(tokens)
    }

    fn rights<'a>(
        &self,
        tokens: &'a [Token],
    ) -> Result<(ImplicationTail, &'a [Token]), ReadError<'a>>
        requires nests { Nests self.now.source.now self.now.depth (F.pre self.now.nested) (F.post self.now.nested) }
        ensures { Gives (λ x. (x.0, x.1.now)) result ((spec.rights (levels self.now.source.now self.now.depth)).run tokens.now) }
    {
        let (right, rest) = self.right(tokens)?;
        Ok((ImplicationTail::Right(right), rest))
    }

    #[tactic(auto, unfolding(crate::specs::Exprs::left))]
    fn left<'a>(&self, tokens: &'a [Token]) -> Result<(Expr, &'a [Token]), ReadError<'a>>
        requires nests { Nests self.now.source.now self.now.depth (F.pre self.now.nested) (F.post self.now.nested) }
        ensures { Gives (λ x. (x.0, x.1.now)) result ((spec.left self.now.source.now (levels self.now.source.now self.now.depth)).run tokens.now) }
    {
        let (_, rest) = take(Terminal::ImpliedBy, Place::AfterOperand, tokens)?;
        self.logic(rest)
    }

    fn more_lefts<'a>(
        &self,
        tokens: &'a [Token],
    ) -> Result<(Items<Expr>, &'a [Token]), ReadError<'a>>
        requires nests { Nests self.now.source.now self.now.depth (F.pre self.now.nested) (F.post self.now.nested) }
        ensures { Gives (λ x. (x.0, x.1.now)) result (run_many (spec.left self.now.source.now (levels self.now.source.now self.now.depth)) (length tokens.now) tokens.now) }
    {
        let mut found = Items::new(self.alloc);
        let mut rest = tokens;
        for _ in 0..tokens.len() {
            if !is_at(Terminal::ImpliedBy, rest) {
                return Ok((found, rest));
            }
            let (next, after) = self.left(rest)?;
            found.push(next)?;
            rest = after;
        }
        Ok((found, rest))
    }

    fn lefts<'a>(
        &self,
        tokens: &'a [Token],
    ) -> Result<(ImplicationTail, &'a [Token]), ReadError<'a>>
        requires nests { Nests self.now.source.now self.now.depth (F.pre self.now.nested) (F.post self.now.nested) }
        ensures { Gives (λ x. (x.0, x.1.now)) result ((spec.lefts self.now.source.now (levels self.now.source.now self.now.depth)).run tokens.now) }
    {
        let (first, rest) = self.left(tokens)?;
        let (more, rest) = self.more_lefts(rest)?;
        let operands = listed(self.alloc, first, more)?;
        Ok((ImplicationTail::Lefts(operands), rest))
    }

    #[tactic(auto, unfolding(crate::specs::Exprs::impl_tail, crate::specs::Exprs::right, crate::specs::Exprs::left))]
    fn impl_tail<'a>(
        &self,
        tokens: &'a [Token],
    ) -> Result<(ImplicationTail, &'a [Token]), ReadError<'a>>
        requires nests { Nests self.now.source.now self.now.depth (F.pre self.now.nested) (F.post self.now.nested) }
        ensures { Gives (λ x. (x.0, x.1.now)) result ((spec.impl_tail self.now.source.now (levels self.now.source.now self.now.depth)).run tokens.now) }
    {
        if is_at(Terminal::Implies, tokens) {
            self.rights(tokens)
        } else if is_at(Terminal::ImpliedBy, tokens) {
            self.lefts(tokens)
        } else {
            Ok((ImplicationTail::Alone, tokens))
        }
    }

    /// An implication, a chain of `<==`, or one operand alone.
    #[tactic(auto, unfolding(crate::specs::Exprs::implication))]
    pub fn implication<'a>(&self, tokens: &'a [Token]) -> Result<(Expr, &'a [Token]), ReadError<'a>>
        requires nests { Nests self.now.source.now self.now.depth (F.pre self.now.nested) (F.post self.now.nested) }
        ensures { Gives (λ x. (x.0, x.1.now)) result ((spec.implication self.now.source.now (levels self.now.source.now self.now.depth)).run tokens.now) }
    {
        let at = at_of(tokens);
        let (first, rest) = self.logic(tokens)?;
        let (tail, rest) = self.impl_tail(rest)?;
        Ok((implication_of(self.alloc, at, first, tail)?, rest))
    }

    fn next_implication<'a>(
        &self,
        tokens: &'a [Token],
    ) -> Result<(Expr, &'a [Token]), ReadError<'a>>
        requires nests { Nests self.now.source.now self.now.depth (F.pre self.now.nested) (F.post self.now.nested) }
        ensures { Gives (λ x. (x.0, x.1.now)) result ((behind at.AfterOperand (is k.Equivalent) (spec.implication self.now.source.now (levels self.now.source.now self.now.depth))).run tokens.now) }
    {
        let (_, rest) = take(Terminal::Equivalent, Place::AfterOperand, tokens)?;
        self.implication(rest)
    }

    fn more_implications<'a>(
        &self,
        tokens: &'a [Token],
    ) -> Result<(Items<Expr>, &'a [Token]), ReadError<'a>>
        requires nests { Nests self.now.source.now self.now.depth (F.pre self.now.nested) (F.post self.now.nested) }
        ensures { Gives (λ x. (x.0, x.1.now)) result (run_many (behind at.AfterOperand (is k.Equivalent) (spec.implication self.now.source.now (levels self.now.source.now self.now.depth))) (length tokens.now) tokens.now) }
    {
        let mut found = Items::new(self.alloc);
        let mut rest = tokens;
        for _ in 0..tokens.len() {
            if !is_at(Terminal::Equivalent, rest) {
                return Ok((found, rest));
            }
            let (next, after) = self.next_implication(rest)?;
            found.push(next)?;
            rest = after;
        }
        Ok((found, rest))
    }

    #[tactic(auto, unfolding(crate::specs::Exprs::equiv))]
    fn equiv<'a>(&self, tokens: &'a [Token]) -> Result<(Expr, &'a [Token]), ReadError<'a>>
        requires nests { Nests self.now.source.now self.now.depth (F.pre self.now.nested) (F.post self.now.nested) }
        ensures { Gives (λ x. (x.0, x.1.now)) result ((spec.equiv self.now.source.now (levels self.now.source.now self.now.depth)).run tokens.now) }
    {
        let at = at_of(tokens);
        let (first, rest) = self.implication(tokens)?;
        let (more, rest) = self.more_implications(rest)?;
        Ok((equivalence(self.alloc, at, first, more)?, rest))
    }

    fn inside_choice<'a>(&self, tokens: &'a [Token]) -> Result<(Expr, &'a [Token]), ReadError<'a>>
        requires deep { 0 < self.now.depth }
        requires nests { Nests self.now.source.now self.now.depth (F.pre self.now.nested) (F.post self.now.nested) }
        ensures { Gives (λ x. (x.0, x.1.now)) result ((form at.Operand (is k.If) spec.choice_of spec.after_if (inner_expr self.now.source.now self.now.depth)).run tokens.now) }
    {
        let (token, rest) = take(Terminal::If, Place::Operand, tokens)?;
        let (condition, rest) = self.nested(Level::Expr, rest)?;
        let (_, rest) = take(Terminal::Then, Place::AfterOperand, rest)?;
        let (yes, rest) = self.nested(Level::Expr, rest)?;
        let (_, rest) = take(Terminal::Else, Place::AfterOperand, rest)?;
        let (no, rest) = self.nested(Level::Expr, rest)?;
        Ok((choice_of(self.alloc, token.at, condition, yes, no)?, rest))
    }

    /// `if condition then yes else no`
    #[tactic(auto, unfolding(crate::specs::Exprs::choice))]
    pub fn choice<'a>(&self, tokens: &'a [Token]) -> Result<(Expr, &'a [Token]), ReadError<'a>>
        requires nests { Nests self.now.source.now self.now.depth (F.pre self.now.nested) (F.post self.now.nested) }
        ensures { Gives (λ x. (x.0, x.1.now)) result ((spec.choice (levels self.now.source.now self.now.depth)).run tokens.now) }
    {
        if self.depth == 0 {
            return Err(at_bottom(Terminal::If, Place::Operand, tokens));
        }
        self.inside_choice(tokens)
    }

    /// An expression.
    #[tactic(auto, unfolding(crate::specs::Exprs::expr, crate::specs::Exprs::choice))]
    pub fn expr<'a>(&self, tokens: &'a [Token]) -> Result<(Expr, &'a [Token]), ReadError<'a>>
        requires nests { Nests self.now.source.now self.now.depth (F.pre self.now.nested) (F.post self.now.nested) }
        ensures { Gives (λ x. (x.0, x.1.now)) result ((spec.expr self.now.source.now (levels self.now.source.now self.now.depth)).run tokens.now) }
    {
        if is_at(Terminal::If, tokens) {
            self.choice(tokens)
        } else {
            self.equiv(tokens)
        }
    }
}
