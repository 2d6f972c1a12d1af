//! The kinds of phrase of an expression.
ghost use Rattle.std.specs.Prelude.{◌≡◌};
ghost use Rattle.bpl_show.specs.Exprs as spec;

use bpl_ast::Expr;

/// What the grammar asks for at a place of an expression, from the widest kind of phrase to the narrowest. Each kind holds all
/// narrower ones.
#[derive(Clone, Copy, Debug, PartialEq, Eq)]
pub enum Phrase {
    /// Any expression; only here an `if` needs no parentheses.
    Whole,
    /// A chain of `<==>`.
    Equivalence,
    /// `==>`, or a chain of `<==`.
    Implication,
    /// A chain of `&&` or of `||`.
    Logic,
    /// `==` or `!=`.
    Relation,
    /// A chain of `++`.
    Concatenation,
    /// `!`.
    Unary,
    /// An operand, with brackets after it or without.
    Operand,
}

impl Phrase {
    /// The number of the kind, from the widest on.
    pub fn rank(self) -> u8
        ensures { result ≡ spec.rank self }
    {
        self as u8
    }
}

/// The kind of phrase that an expression is.
#[tactic(auto, using(crate::proofs::KindLaws::kinds))]
pub fn kind(shown: &Expr) -> Phrase
    ensures { result ≡ spec.kind shown.now }
{
    match shown {
        Expr::True { .. }
        | Expr::False { .. }
        | Expr::Literal { .. }
        | Expr::Variable { .. }
        | Expr::Apply { .. }
        | Expr::Post { .. } => Phrase::Operand,
        Expr::Not { .. } => Phrase::Unary,
        Expr::Concat { .. } => Phrase::Concatenation,
        Expr::Equal { .. } | Expr::NotEqual { .. } => Phrase::Relation,
        Expr::And { .. } | Expr::Or { .. } => Phrase::Logic,
        Expr::Implies { .. } | Expr::ImpliedBy { .. } => Phrase::Implication,
        Expr::Equivalent { .. } => Phrase::Equivalence,
        Expr::Choice { .. } => Phrase::Whole,
    }
}
