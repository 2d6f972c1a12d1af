//! What extraction keeps of a source procedure while it makes its flat procedures.

use crate::spans::Heads;
use extract_def::Scope;
use hy_val::Sort;
use sqlite_items::Items;

/// A source procedure.
#[derive(Drop)]
pub struct Plan {
    /// Its number.
    pub proc: u32,
    /// The number of the flat procedure of its first loop.
    pub base: u32,
    /// A flag for each block, up where it is reached.
    pub up: Items<bool>,
    /// The scope of each block.
    pub scopes: Items<Scope>,
    /// The loops whose heads are reached, by head.
    pub heads: Heads,
    /// The sorts of its variables.
    pub sorts: Items<Sort>,
}
