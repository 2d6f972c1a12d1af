//! Parts of phrases, before they are put together.

use bpl_ast::{Attribute, Else, Expr, Guard, Name, Stmt, Target};
use sqlite_items::Items;

/// What may nest in an expression.
#[derive(Clone, Copy, Debug)]
pub enum Level {
    /// A whole expression.
    Expr,
    /// The right side of `==>`.
    Implication,
    /// The operand of `!`.
    Unary,
}

/// What follows the first side of an equation.
#[derive(Debug, Drop)]
pub enum RelationTail {
    /// Nothing.
    Alone,
    /// `== side`
    Equal(Expr),
    /// `!= side`
    NotEqual(Expr),
}

/// What follows the first operand of a chain of `&&` or `||`.
#[derive(Debug, Drop)]
pub enum LogicTail {
    /// Nothing.
    Alone,
    /// The other operands of `&&`.
    Ands(Items<Expr>),
    /// The other operands of `||`.
    Ors(Items<Expr>),
}

/// What follows the first operand of an implication.
#[derive(Debug, Drop)]
pub enum ImplicationTail {
    /// Nothing.
    Alone,
    /// `==> right`
    Right(Expr),
    /// The other operands of `<==`.
    Lefts(Items<Expr>),
}

/// What follows the name at which a statement begins.
#[derive(Debug, Drop)]
pub enum NamedRest {
    /// `:`
    Label,
    /// The index of the first target, the other targets, and the values.
    Assign(Option<Expr>, Items<Target>, Items<Expr>),
}

/// What follows the first name of a call.
#[derive(Debug, Drop)]
pub enum CalledRest {
    /// The arguments; the name is the procedure's.
    Arguments(Items<Expr>),
    /// The other names that take outs, the procedure's name and the arguments.
    Outs(Items<Name>, Name, Items<Expr>),
}

/// An `if` statement without its word.
#[derive(Debug, Drop)]
pub struct IfRest {
    /// Its attributes.
    pub attributes: Items<Attribute>,
    /// The guard.
    pub guard: Guard,
    /// The part after the guard.
    pub then: Items<Stmt>,
    /// The part after `else`.
    pub other: Else,
}
