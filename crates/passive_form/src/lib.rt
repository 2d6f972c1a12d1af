//! The passive form of a flat procedure: each assignment makes a version of its variable, and versions never change. It is what the
//! formula of the procedure is made of.
#![tactic(auto)]

mod commands;
mod current;
mod laws;
mod making;
mod numbers;
mod program;
mod renaming;
mod sites;
mod starting;
mod whole;

use flat_prog::FlatNext;
use hy_val::{Expr, Sort};
pub use laws::{
    items_say_what_commands_do, limited_runs_are_runs, ordered_blocks_are_there,
    plain_runs_are_runs, procedures_have_their_sorts, runs_begin_alike,
};
pub use making::passive_of;
use sqlite_items::Items;
pub use whole::passive_form_of;

/// What a block says of its versions, one item for each assignment, condition, havoc or call, in order. The versions of a block are
/// numbered from 0: first those with which it is entered, of the globals and then of the locals, then those that the items make. An
/// expression names the version k as `Local(k)`, a constant as itself, and no global.
#[derive(Drop)]
pub enum Item {
    /// The version has the value of the expression.
    Let {
        /// The number of the version.
        version: u32,
        /// Its value.
        expr: Expr,
    },
    /// The version is the zero of the sort.
    Zero {
        /// The number of the version.
        version: u32,
        /// Its sort.
        sort: Sort,
    },
    /// The version has any value of the sort.
    Free {
        /// The number of the version.
        version: u32,
        /// Its sort.
        sort: Sort,
    },
    /// A run in which the expression is false goes no further.
    Need(Expr),
    /// The assert at this position of the block: a run in which the expression is false fails.
    Check {
        /// The position of the command in the block, from 0.
        position: u32,
        /// What is asserted.
        expr: Expr,
    },
    /// A call. The version `failed` says whether the callee fails. The next versions are the outs that it returns, and then the
    /// globals that it may change, in order. The other globals keep their versions.
    Site {
        /// The number of the flat procedure that is called.
        proc: u32,
        /// The number of the version that says whether the callee fails.
        failed: u32,
        /// The arguments, one for each of the callee's ins.
        args: Items<Expr>,
        /// The versions of all globals before the call.
        before: Items<u32>,
        /// The sorts of the callee's outs.
        outs: Items<Sort>,
        /// For each global, whether the callee may change it; those behind the list's end it may not.
        changes: Items<bool>,
        /// The sorts of the globals that it may change.
        after: Items<Sort>,
    },
}

/// A block over versions.
#[derive(Drop)]
pub struct PassiveBlock {
    /// The number of the block in its procedure.
    pub number: u32,
    /// What it says, in order.
    pub items: Items<Item>,
    /// The versions of the globals at its end.
    pub globals: Items<u32>,
    /// The versions of the locals at its end.
    pub locals: Items<u32>,
    /// How it ends.
    pub next: FlatNext,
}

/// The start of a procedure over versions of its own, numbered from 0: those of the globals, those of the ins, and then those that its
/// items make.
#[derive(Drop)]
pub struct PassiveStart {
    /// What it says of the outs and the other locals: any values in a source procedure, zeros in a loop procedure.
    pub items: Items<Item>,
    /// The versions of the globals with which block 0 is entered.
    pub globals: Items<u32>,
    /// The versions of the locals with which block 0 is entered.
    pub locals: Items<u32>,
}

/// A procedure in passive form (Flanagan and Saxe, POPL 2001; Barnett and Leino, PASTE 2005): each assignment makes a version of its
/// variable, and a version never changes. The versions are each block's own; a block is entered with a version of each variable, and
/// what those have at a join is left to the edges that lead to it.
#[derive(Drop)]
pub struct Passive {
    /// The sorts of the constants.
    pub consts: Items<Sort>,
    /// The sorts of the globals.
    pub globals: Items<Sort>,
    /// The sorts of the ins.
    pub ins: Items<Sort>,
    /// The sorts of the outs.
    pub outs: Items<Sort>,
    /// The sorts of all locals: ins, outs and the others.
    pub locals: Items<Sort>,
    /// The start.
    pub start: PassiveStart,
    /// The blocks, in the order that was given.
    pub blocks: Items<PassiveBlock>,
}
