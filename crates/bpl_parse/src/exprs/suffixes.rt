//! Brackets after an operand.

ghost use Rattle.std.specs.Prelude.{◌≡◌, ◌<◌, ◌-◌, IfOk, length};
ghost use Rattle.bpl_parse.specs.Decls.{levels};
ghost use Rattle.bpl_parse.specs.Exprs as spec;
ghost use Rattle.bpl_parse.specs.Gives.{Gives};
ghost use Rattle.bpl_parse.specs.Nests.{Nests, inner_expr};
ghost use Rattle.bpl_parse.specs.Tests.{is};
ghost use Rattle.bpl_parse.specs.declared.place.Place.TheVariants as at;
ghost use Rattle.bpl_rules.specs.Rules.{form, run_many};
ghost use Rattle.bpl_tok.specs.declared.token.Terminal.TheVariants as k;

use super::grammar::Grammar;
use crate::error::ReadError;
use crate::parts::Level;
use crate::place::Place;
use crate::tokens::{at_bottom, at_of, is_at, take, take_two};
use bpl_ast::{Bracket, Expr};
use bpl_tok::{Terminal, TokKind, Token};
use sqlite_items::{Boxed, Items};
use std::alloc::{AllocError, Global};

fn number_in(kind: TokKind) -> u128
    ensures { result ≡ spec.number_of kind }
{
    match kind {
        TokKind::Number(value) => value,
        TokKind::Width(_) => 0,
        TokKind::Ident => 0,
        TokKind::Keyword(_) => 0,
        TokKind::BvLit { .. } => 0,
        TokKind::Str => 0,
        TokKind::Sign(_) => 0,
    }
}

fn bracket_of(index: Expr, value: Option<Expr>) -> Bracket
    ensures { result ≡ spec.index_of (index, value) }
{
    match value {
        None => Bracket::Select { index },
        Some(value) => Bracket::Store { index, value },
    }
}

fn post_of(
    alloc: Global,
    at: usize,
    operand: Expr,
    brackets: Items<Bracket>,
) -> Result<Expr, AllocError>
    ensures { IfOk result (λ x. x ≡ spec.post_of at (operand, brackets)) }
{
    if brackets.is_empty() {
        return Ok(operand);
    }
    let operand = Boxed::new(alloc, operand)?;
    Ok(Expr::Post {
        at,
        operand,
        brackets,
    })
}

fn bit_range<'a>(tokens: &'a [Token]) -> Result<(Bracket, &'a [Token]), ReadError<'a>>
    ensures { Gives (λ x. (x.0, x.1.now)) result ((spec.bit_range).run tokens.now) }
{
    let (high, _, rest) = take_two(Terminal::Number, Terminal::Colon, Place::Operand, tokens)?;
    let (low, rest) = take(Terminal::Number, Place::Other, rest)?;
    let (_, rest) = take(Terminal::RightBracket, Place::Other, rest)?;
    let high = number_in(high.kind);
    let low = number_in(low.kind);
    Ok((Bracket::Extract { high, low }, rest))
}

fn selected<'a>(tokens: &'a [Token]) -> Result<(Option<Expr>, &'a [Token]), ReadError<'a>>
    ensures { Gives (λ x. (x.0, x.1.now)) result ((spec.selected).run tokens.now) }
{
    let (_, rest) = take(Terminal::RightBracket, Place::AfterIndex, tokens)?;
    Ok((None, rest))
}

impl<
    's,
    F: for<'a> Fn(
        Global,
        &'s [u8],
        Level,
        usize,
        &'a [Token],
    ) -> Result<(Expr, &'a [Token]), ReadError<'a>>,
> Grammar<'s, F> {
    fn stored<'a>(&self, tokens: &'a [Token]) -> Result<(Option<Expr>, &'a [Token]), ReadError<'a>>
        requires deep { 0 < self.now.depth }
        requires nests { Nests self.now.source.now self.now.depth (F.pre self.now.nested) (F.post self.now.nested) }
        ensures { Gives (λ x. (x.0, x.1.now)) result ((spec.stored (inner_expr self.now.source.now self.now.depth)).run tokens.now) }
    {
        let (_, rest) = take(Terminal::Assign, Place::AfterIndex, tokens)?;
        let (value, rest) = self.nested(Level::Expr, rest)?;
        let (_, rest) = take(Terminal::RightBracket, Place::AfterOperand, rest)?;
        Ok((Some(value), rest))
    }

    fn after_index<'a>(
        &self,
        tokens: &'a [Token],
    ) -> Result<(Option<Expr>, &'a [Token]), ReadError<'a>>
        requires deep { 0 < self.now.depth }
        requires nests { Nests self.now.source.now self.now.depth (F.pre self.now.nested) (F.post self.now.nested) }
        ensures { Gives (λ x. (x.0, x.1.now)) result ((spec.after_index (inner_expr self.now.source.now self.now.depth)).run tokens.now) }
    {
        if is_at(Terminal::RightBracket, tokens) {
            selected(tokens)
        } else {
            self.stored(tokens)
        }
    }

    fn indexed<'a>(&self, tokens: &'a [Token]) -> Result<(Bracket, &'a [Token]), ReadError<'a>>
        requires deep { 0 < self.now.depth }
        requires nests { Nests self.now.source.now self.now.depth (F.pre self.now.nested) (F.post self.now.nested) }
        ensures { Gives (λ x. (x.0, x.1.now)) result ((spec.indexed (inner_expr self.now.source.now self.now.depth)).run tokens.now) }
    {
        let (index, rest) = self.nested(Level::Expr, tokens)?;
        let (value, rest) = self.after_index(rest)?;
        Ok((bracket_of(index, value), rest))
    }

    fn after_bracket<'a>(
        &self,
        tokens: &'a [Token],
    ) -> Result<(Bracket, &'a [Token]), ReadError<'a>>
        requires deep { 0 < self.now.depth }
        requires nests { Nests self.now.source.now self.now.depth (F.pre self.now.nested) (F.post self.now.nested) }
        ensures { Gives (λ x. (x.0, x.1.now)) result ((spec.after_bracket (inner_expr self.now.source.now self.now.depth)).run tokens.now) }
    {
        if is_at(Terminal::Number, tokens) {
            bit_range(tokens)
        } else {
            self.indexed(tokens)
        }
    }

    fn inside_suffix<'a>(
        &self,
        tokens: &'a [Token],
    ) -> Result<(Bracket, &'a [Token]), ReadError<'a>>
        requires deep { 0 < self.now.depth }
        requires nests { Nests self.now.source.now self.now.depth (F.pre self.now.nested) (F.post self.now.nested) }
        ensures { Gives (λ x. (x.0, x.1.now)) result ((form at.AfterOperand (is k.LeftBracket) (λ x. x.1) spec.after_bracket (inner_expr self.now.source.now self.now.depth)).run tokens.now) }
    {
        let (_, rest) = take(Terminal::LeftBracket, Place::AfterOperand, tokens)?;
        self.after_bracket(rest)
    }

    /// What stands in brackets after an operand.
    #[tactic(auto, unfolding(crate::specs::Exprs::suffix))]
    pub fn suffix<'a>(&self, tokens: &'a [Token]) -> Result<(Bracket, &'a [Token]), ReadError<'a>>
        requires nests { Nests self.now.source.now self.now.depth (F.pre self.now.nested) (F.post self.now.nested) }
        ensures { Gives (λ x. (x.0, x.1.now)) result ((spec.suffix (levels self.now.source.now self.now.depth)).run tokens.now) }
    {
        if self.depth == 0 {
            return Err(at_bottom(Terminal::LeftBracket, Place::AfterOperand, tokens));
        }
        self.inside_suffix(tokens)
    }

    fn suffixes<'a>(
        &self,
        tokens: &'a [Token],
    ) -> Result<(Items<Bracket>, &'a [Token]), ReadError<'a>>
        requires nests { Nests self.now.source.now self.now.depth (F.pre self.now.nested) (F.post self.now.nested) }
        ensures { Gives (λ x. (x.0, x.1.now)) result (run_many (spec.suffix (levels self.now.source.now self.now.depth)) (length tokens.now) tokens.now) }
    {
        let mut found = Items::new(self.alloc);
        let mut rest = tokens;
        for _ in 0..tokens.len() {
            if !is_at(Terminal::LeftBracket, rest) {
                return Ok((found, rest));
            }
            let (next, after) = self.suffix(rest)?;
            found.push(next)?;
            rest = after;
        }
        Ok((found, rest))
    }

    /// An operand and the brackets after it.
    #[tactic(auto, unfolding(crate::specs::Exprs::post))]
    pub fn post<'a>(&self, tokens: &'a [Token]) -> Result<(Expr, &'a [Token]), ReadError<'a>>
        requires nests { Nests self.now.source.now self.now.depth (F.pre self.now.nested) (F.post self.now.nested) }
        ensures { Gives (λ x. (x.0, x.1.now)) result ((spec.post self.now.source.now (levels self.now.source.now self.now.depth)).run tokens.now) }
    {
        let at = at_of(tokens);
        let (operand, rest) = self.atom(tokens)?;
        let (brackets, rest) = self.suffixes(rest)?;
        Ok((post_of(self.alloc, at, operand, brackets)?, rest))
    }
}
