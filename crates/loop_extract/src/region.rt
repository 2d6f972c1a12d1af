//! What extraction keeps of a scope while it makes the blocks of its flat procedure.

use crate::ascending::Ascending;
use crate::edges::Exits;
use crate::spans::Inside;
use extract_def::Scope;
use hy_val::Sort;
use sqlite_items::Items;

/// A scope of a source procedure.
#[derive(Drop)]
pub struct Region {
    /// The number of the source procedure.
    pub proc: u32,
    /// The number of the scope's flat procedure.
    pub number: u32,
    /// The scope.
    pub scope: Scope,
    /// How much further behind the source procedure's variables stand.
    pub by: u32,
    /// The local for the exit number.
    pub local: u32,
    /// The sorts of the source procedure's variables.
    pub sorts: Items<Sort>,
    /// The blocks that the scope keeps.
    pub kept: Ascending,
    /// The loops directly inside, by head.
    pub inside: Inside,
    /// The exits of the scope's loop, none where it is the whole procedure.
    pub exits: Exits,
    /// The number of the block for the first of these exits.
    pub leave: u32,
    /// The number of the block that calls the scope's loop again.
    pub again: u32,
}
