//! Typed programs.

use bpl_ast::Name;
use hy_val::{Expr, Var};
use sqlite_items::Items;
use type_pass::tables::Named;

/// An invariant of a `while`.
#[derive(Drop)]
pub struct TypedInvariant {
    /// Whether it is assumed and not asserted.
    pub free: bool,
    /// The condition, a bool.
    pub condition: Expr,
}

/// A statement whose names are resolved and whose expressions have no functions.
///
/// Local variables are numbered from 0: the ins of the procedure, then its outs, then its locals.
#[derive(Drop)]
pub enum TypedStmt {
    /// A label.
    Label {
        /// Its name.
        name: Name,
    },
    /// An assertion.
    Assert {
        /// A bool.
        condition: Expr,
    },
    /// An assumption.
    Assume {
        /// A bool.
        condition: Expr,
    },
    /// Any values for some variables.
    Havoc {
        /// The variables in the order of the text.
        vars: Items<Var>,
    },
    /// A jump to one of some labels.
    Goto {
        /// The names of the labels, one or more.
        labels: Items<Name>,
    },
    /// The end of the procedure.
    Return,
    /// The end of a statement.
    Break {
        /// The offset of the word `break`.
        at: usize,
        /// The label of the statement that ends, or none for the innermost `while`.
        label: Option<Name>,
    },
    /// An assignment, of which all values are evaluated first.
    Assign {
        /// Each variable, with its new value, which has its sort. Where one stands twice, there was a fault.
        pairs: Items<(Var, Expr)>,
    },
    /// A call.
    Call {
        /// The number of the procedure among those with a body, in the order of their declarations.
        proc: u32,
        /// The arguments, with the sorts of the ins.
        args: Items<Expr>,
        /// What takes the outs, with their sorts. Where one stands twice, there was a fault.
        outs: Items<Var>,
    },
    /// A choice between two parts.
    If {
        /// A bool, or none for `*`.
        guard: Option<Expr>,
        /// What is done where the guard is true.
        then: Items<TypedStmt>,
        /// What is done where it is false; empty where no `else` stands, and one `If` for an `else if`.
        other: Items<TypedStmt>,
    },
    /// A loop.
    While {
        /// A bool, or none for `*`.
        guard: Option<Expr>,
        /// The invariants in the order of the text.
        invariants: Items<TypedInvariant>,
        /// What is done in each turn.
        body: Items<TypedStmt>,
    },
}

/// The body of a procedure.
#[derive(Drop)]
pub struct TypedBody {
    /// The local variables, without the parameters.
    pub locals: Items<Named>,
    /// The statements.
    pub statements: Items<TypedStmt>,
}

/// A procedure. Where an implementation of its own stands in the text, the names are those of the implementation.
#[derive(Drop)]
pub struct TypedProc {
    /// The bytes of the name.
    pub name: Items<u8>,
    /// The in-parameters.
    pub ins: Items<Named>,
    /// The out-parameters.
    pub outs: Items<Named>,
    /// The body, where the procedure or an implementation has one.
    pub body: Option<TypedBody>,
}

/// A typed program. Constants, globals and procedures stand in the order of their declarations.
#[derive(Drop)]
pub struct Typed {
    /// The constants.
    pub consts: Items<Named>,
    /// The numbers of the unique constants, ascending.
    pub uniques: Items<u32>,
    /// The axioms, each a bool over the constants.
    pub axioms: Items<Expr>,
    /// The global variables.
    pub globals: Items<Named>,
    /// The procedures.
    pub procs: Items<TypedProc>,
}
