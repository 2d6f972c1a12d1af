//! Statements.

use crate::expr::Expr;
use crate::name::{Attribute, Name};
use sqlite_items::{Boxed, Items};

/// The condition of an `if` or a `while`.
#[derive(Debug, Drop)]
pub enum Guard {
    /// `*`
    Any {
        /// The offset of the star.
        at: usize,
    },
    /// An expression.
    Condition {
        /// The expression.
        condition: Expr,
    },
}

/// What an assignment changes: a variable, or a map at an index.
#[derive(Debug, Drop)]
pub struct Target {
    /// The name of the variable.
    pub name: Name,
    /// The index in brackets.
    pub index: Option<Expr>,
}

/// `invariant condition;` of a `while`.
#[derive(Debug, Drop)]
pub struct Invariant {
    /// The offset of the first word, which is `free` where that stands.
    pub at: usize,
    /// Whether `free` stands before it.
    pub free: bool,
    /// Its attributes.
    pub attributes: Items<Attribute>,
    /// The condition.
    pub condition: Expr,
}

/// A statement.
#[derive(Debug, Drop)]
#[cycle(statements)]
pub enum Stmt {
    /// `name:`
    Label {
        /// The name of the label.
        name: Name,
    },
    /// `assert condition;`
    Assert {
        /// The offset of the word.
        at: usize,
        /// Its attributes.
        attributes: Items<Attribute>,
        /// The condition.
        condition: Expr,
    },
    /// `assume condition;`
    Assume {
        /// The offset of the word.
        at: usize,
        /// Its attributes.
        attributes: Items<Attribute>,
        /// The condition.
        condition: Expr,
    },
    /// `havoc name, ..;`
    Havoc {
        /// The offset of the word.
        at: usize,
        /// Its attributes.
        attributes: Items<Attribute>,
        /// One name or more.
        names: Items<Name>,
    },
    /// `goto label, ..;`
    Goto {
        /// The offset of the word.
        at: usize,
        /// Its attributes.
        attributes: Items<Attribute>,
        /// One label or more.
        labels: Items<Name>,
    },
    /// `return;`
    Return {
        /// The offset of the word.
        at: usize,
        /// Its attributes.
        attributes: Items<Attribute>,
    },
    /// `break label;` or `break;`
    Break {
        /// The offset of the word.
        at: usize,
        /// Its attributes.
        attributes: Items<Attribute>,
        /// The label.
        label: Option<Name>,
    },
    /// `target, .. := value, ..;`
    Assign {
        /// The offset of the first target.
        at: usize,
        /// One target or more.
        targets: Items<Target>,
        /// One value or more.
        values: Items<Expr>,
    },
    /// `call out, .. := procedure(argument, ..);`
    Call {
        /// The offset of the word.
        at: usize,
        /// Its attributes.
        attributes: Items<Attribute>,
        /// What takes the outs; empty where no `:=` stands.
        outs: Items<Name>,
        /// The name of the procedure.
        procedure: Name,
        /// The arguments, any number of them.
        arguments: Items<Expr>,
    },
    /// `if (guard) { .. } else ..`
    If {
        /// The statement.
        inner: If,
    },
    /// `while (guard) invariant ..; { .. }`
    While {
        /// The offset of the word.
        at: usize,
        /// Its attributes.
        attributes: Items<Attribute>,
        /// The guard.
        guard: Guard,
        /// The invariants, any number of them.
        invariants: Items<Invariant>,
        /// The body.
        body: Items<Stmt>,
    },
}

/// An `if` statement.
#[derive(Debug, Drop)]
#[cycle(statements)]
pub struct If {
    /// The offset of the word.
    pub at: usize,
    /// Its attributes.
    pub attributes: Items<Attribute>,
    /// The guard.
    pub guard: Guard,
    /// The part after the guard.
    pub then: Items<Stmt>,
    /// The part after `else`.
    pub other: Else,
}

/// The part of an `if` after `else`.
#[derive(Debug, Drop)]
#[cycle(statements)]
pub enum Else {
    /// No `else` stands.
    Absent,
    /// Another `if`.
    If {
        /// The statement.
        inner: Boxed<If>,
    },
    /// A block.
    Block {
        /// Its statements.
        body: Items<Stmt>,
    },
}
