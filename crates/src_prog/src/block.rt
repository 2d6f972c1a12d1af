//! Blocks: commands in order, and how they end.

use hy_val::{Expr, Var};
use sqlite_items::Items;

/// A command of a block (This is Boogie 2, commands).
#[derive(Drop)]
pub enum Cmd {
    /// Each variable takes the value of its expression. All expressions are evaluated first.
    Assign(Items<(Var, Expr)>),
    /// Each variable takes any value of its sort, in order.
    Havoc(Items<Var>),
    /// A run in which the expression is false is blocked.
    Assume(Expr),
    /// A run in which the expression is false fails.
    Assert {
        /// The number of the assert in its procedure, from 1.
        number: u32,
        /// What is asserted.
        expr: Expr,
    },
    /// The procedure runs on the values of the arguments; then the variables take the values of its outs.
    Call {
        /// The number of the procedure.
        proc: u32,
        /// One expression for each of its ins.
        args: Items<Expr>,
        /// One variable for each of its outs.
        outs: Items<Var>,
    },
}

/// How a block ends.
#[derive(Drop)]
pub enum Next {
    /// The run goes on at one of these blocks, of which there is one at least.
    Goto(Items<u32>),
    /// The procedure ends.
    Return,
}

/// A block: its commands in order, and how it ends.
#[derive(Drop)]
pub struct SrcBlock {
    /// The commands.
    pub cmds: Items<Cmd>,
    /// How the block ends.
    pub next: Next,
}
