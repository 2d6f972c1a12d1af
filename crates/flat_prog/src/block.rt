//! Blocks of flat procedures: commands in order, and how they end.

use hy_val::{Expr, Var};
use sqlite_items::Items;

/// A command of a block (This is Boogie 2, commands). Its variables are those of the procedure that it
/// stands in: constants and globals by their numbers in the program, locals by theirs in the procedure.
#[derive(Drop)]
pub enum FlatCmd {
    /// Each variable takes the value of its expression, in order. All expressions are evaluated first.
    Assign(Items<(Var, Expr)>),
    /// Each variable takes any value of its sort, in order.
    Havoc(Items<Var>),
    /// A run in which the bool expression is false goes no further.
    Assume(Expr),
    /// A run in which the bool expression is false fails here.
    Assert {
        /// The number of the source procedure whose assert it is.
        proc: u32,
        /// The number of the assert among those of that procedure, from 1.
        number: u32,
        /// What is asserted.
        expr: Expr,
    },
    /// The flat procedure runs on the values of the arguments; then the variables take the values of its
    /// outs, in order.
    Call {
        /// The number of the flat procedure.
        proc: u32,
        /// One expression for each of its ins, in order, of its sort.
        args: Items<Expr>,
        /// One variable for each of its outs, in order, of its sort.
        outs: Items<Var>,
    },
}

/// How a block ends.
#[derive(Drop)]
pub enum FlatNext {
    /// The run goes on at one of these blocks of the procedure, of which there is one at least. A block
    /// may be named twice; the run then chooses a place of the list.
    Goto(Items<u32>),
    /// The procedure returns.
    Return,
}

/// A block: its commands in order, and how it ends.
#[derive(Drop)]
pub struct FlatBlock {
    /// The commands, in the order in which a run passes them.
    pub cmds: Items<FlatCmd>,
    /// How the block ends.
    pub next: FlatNext,
}
