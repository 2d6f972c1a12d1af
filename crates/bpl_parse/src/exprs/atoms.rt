//! Operands without signs and brackets.

ghost use Rattle.std.specs.Prelude.{◌≡◌, ◌<◌, ◌-◌};
ghost use Rattle.bpl_parse.specs.Decls.{levels};
ghost use Rattle.bpl_parse.specs.Exprs as spec;
ghost use Rattle.bpl_parse.specs.Gives.{Gives};
ghost use Rattle.bpl_parse.specs.Nests.{Nests, inner_expr};
ghost use Rattle.bpl_parse.specs.Tests.{is};
ghost use Rattle.bpl_parse.specs.declared.place.Place.TheVariants as at;
ghost use Rattle.bpl_rules.specs.Rules.{form};
ghost use Rattle.bpl_tok.specs.declared.token.Terminal.TheVariants as k;

use super::grammar::Grammar;
use crate::error::ReadError;
use crate::identifiers::name;
use crate::parts::Level;
use crate::place::Place;
use crate::tokens::{at_bottom, is_at, take};
use bpl_ast::{Expr, Name};
use bpl_tok::{Terminal, TokKind, Token};
use sqlite_items::Items;
use std::alloc::Global;

fn literal_at(token: Token) -> Expr
    ensures { result ≡ spec.literal_of token.at token.kind }
{
    let at = token.at;
    let (width, bits) = match token.kind {
        TokKind::BvLit { width, bits } => (width, bits),
        TokKind::Ident => (0, 0),
        TokKind::Keyword(_) => (0, 0),
        TokKind::Width(_) => (0, 0),
        TokKind::Number(_) => (0, 0),
        TokKind::Str => (0, 0),
        TokKind::Sign(_) => (0, 0),
    };
    Expr::Literal { at, width, bits }
}

fn named_expr(name: Name, values: Option<Items<Expr>>) -> Expr
    ensures { result ≡ spec.named_expr name values }
{
    match values {
        None => Expr::Variable { name },
        Some(arguments) => Expr::Apply {
            function: name,
            arguments,
        },
    }
}

fn truth<'a>(tokens: &'a [Token]) -> Result<(Expr, &'a [Token]), ReadError<'a>>
    ensures { Gives (λ x. (x.0, x.1.now)) result ((spec.truth).run tokens.now) }
{
    let (token, rest) = take(Terminal::True, Place::Operand, tokens)?;
    Ok((Expr::True { at: token.at }, rest))
}

fn falsehood<'a>(tokens: &'a [Token]) -> Result<(Expr, &'a [Token]), ReadError<'a>>
    ensures { Gives (λ x. (x.0, x.1.now)) result ((spec.falsehood).run tokens.now) }
{
    let (token, rest) = take(Terminal::False, Place::Operand, tokens)?;
    Ok((Expr::False { at: token.at }, rest))
}

fn literal<'a>(tokens: &'a [Token]) -> Result<(Expr, &'a [Token]), ReadError<'a>>
    ensures { Gives (λ x. (x.0, x.1.now)) result ((spec.literal).run tokens.now) }
{
    let (token, rest) = take(Terminal::Literal, Place::Operand, tokens)?;
    Ok((literal_at(token), rest))
}

impl<
    's,
    F: for<'a> Fn(
        Global,
        &'s [u8],
        Level,
        usize,
        &'a [Token],
    ) -> Result<(Expr, &'a [Token]), ReadError<'a>>,
> Grammar<'s, F> {
    fn inside_group<'a>(&self, tokens: &'a [Token]) -> Result<(Expr, &'a [Token]), ReadError<'a>>
        requires deep { 0 < self.now.depth }
        requires nests { Nests self.now.source.now self.now.depth (F.pre self.now.nested) (F.post self.now.nested) }
        ensures { Gives (λ x. (x.0, x.1.now)) result ((form at.Operand (is k.LeftParen) (λ x. x.1) spec.after_group (inner_expr self.now.source.now self.now.depth)).run tokens.now) }
    {
        let (_, rest) = take(Terminal::LeftParen, Place::Operand, tokens)?;
        let (inner, rest) = self.nested(Level::Expr, rest)?;
        let (_, rest) = take(Terminal::RightParen, Place::AfterOperand, rest)?;
        Ok((inner, rest))
    }

    /// An expression in parentheses.
    #[tactic(auto, unfolding(crate::specs::Exprs::group))]
    pub fn group<'a>(&self, tokens: &'a [Token]) -> Result<(Expr, &'a [Token]), ReadError<'a>>
        requires nests { Nests self.now.source.now self.now.depth (F.pre self.now.nested) (F.post self.now.nested) }
        ensures { Gives (λ x. (x.0, x.1.now)) result ((spec.group (levels self.now.source.now self.now.depth)).run tokens.now) }
    {
        if self.depth == 0 {
            return Err(at_bottom(Terminal::LeftParen, Place::Operand, tokens));
        }
        self.inside_group(tokens)
    }

    #[tactic(auto, unfolding(crate::specs::Exprs::named))]
    fn named<'a>(&self, tokens: &'a [Token]) -> Result<(Expr, &'a [Token]), ReadError<'a>>
        requires nests { Nests self.now.source.now self.now.depth (F.pre self.now.nested) (F.post self.now.nested) }
        ensures { Gives (λ x. (x.0, x.1.now)) result ((spec.named self.now.source.now (levels self.now.source.now self.now.depth)).run tokens.now) }
    {
        let (name, rest) = name(self.alloc, self.source, Place::Operand, tokens)?;
        let (values, rest) = self.maybe_arguments(rest)?;
        Ok((named_expr(name, values), rest))
    }

    /// An operand without signs and brackets.
    #[tactic(auto, unfolding(crate::specs::Exprs::atom, crate::specs::Exprs::group))]
    pub fn atom<'a>(&self, tokens: &'a [Token]) -> Result<(Expr, &'a [Token]), ReadError<'a>>
        requires nests { Nests self.now.source.now self.now.depth (F.pre self.now.nested) (F.post self.now.nested) }
        ensures { Gives (λ x. (x.0, x.1.now)) result ((spec.atom self.now.source.now (levels self.now.source.now self.now.depth)).run tokens.now) }
    {
        if is_at(Terminal::True, tokens) {
            truth(tokens)
        } else if is_at(Terminal::False, tokens) {
            falsehood(tokens)
        } else if is_at(Terminal::Literal, tokens) {
            literal(tokens)
        } else if is_at(Terminal::LeftParen, tokens) {
            self.group(tokens)
        } else {
            self.named(tokens)
        }
    }
}
