//! What is known of the names of a program.

use hy_val::{BvOp, Sort, UnOp};
use sqlite_items::Items;

/// A declared name with its sort.
#[derive(Drop)]
pub struct Named {
    /// The bytes of the name.
    pub name: Items<u8>,
    /// The sort.
    pub sort: Sort,
}

/// The meaning of a function that an attribute names.
#[derive(Clone, Copy, Debug, PartialEq, Eq)]
pub enum Builtin {
    /// An operator with one operand.
    Unary(UnOp),
    /// An operator with two operands.
    Binary(BvOp),
}

/// What a function means.
#[derive(Clone, Copy, Debug, PartialEq, Eq)]
pub enum Meaning {
    /// Its body.
    Body,
    /// An operator.
    Operator(Builtin),
    /// Nothing: it may be declared and not used.
    Nothing,
}

/// A function as its uses see it.
#[derive(Drop)]
pub struct Signature {
    /// The bytes of the name.
    pub name: Items<u8>,
    /// The arguments; one without a name has the empty name, which no identifier is.
    pub arguments: Items<Named>,
    /// The sort of the result.
    pub output: Sort,
    /// What it means.
    pub meaning: Meaning,
}

/// A procedure as its calls see it.
#[derive(Drop)]
pub struct Heading {
    /// The bytes of the name.
    pub name: Items<u8>,
    /// The sorts of the in-parameters.
    pub ins: Items<Sort>,
    /// The sorts of the out-parameters.
    pub outs: Items<Sort>,
    /// Whether it has a body or an implementation.
    pub has_body: bool,
}

/// The names of a program, in the order of their declarations.
#[derive(Drop)]
pub struct Tables {
    /// The constants.
    pub consts: Items<Named>,
    /// The global variables.
    pub globals: Items<Named>,
    /// The functions.
    pub functions: Items<Signature>,
    /// The procedures.
    pub procedures: Items<Heading>,
}

/// The names that an expression may have besides the constants.
#[derive(Drop)]
pub struct Scope {
    /// The arguments of a function; or the ins, then the outs, then the locals of a procedure.
    pub locals: Items<Named>,
    /// How many of them, from the first on, are ins.
    pub ins: usize,
    /// Whether the global variables are known.
    pub globals: bool,
}
