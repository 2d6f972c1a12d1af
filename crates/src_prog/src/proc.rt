//! Declared names, loops, and procedures.

use crate::block::SrcBlock;
use hy_val::Sort;
use sqlite_items::Items;

/// A declared name and its sort.
#[derive(Drop)]
pub struct Named {
    /// The bytes of the name.
    pub name: Items<u8>,
    /// The sort.
    pub sort: Sort,
}

/// A `while`: its blocks are those numbered from the head on, below the exit.
#[derive(Clone, Copy, Debug, PartialEq, Eq)]
pub struct SrcLoop {
    /// The number of the block at which the loop is entered.
    pub head: u32,
    /// The number of the block to which the loop leads, above all blocks of the loop.
    pub exit: u32,
}

/// A procedure with a body. Its run begins at block 0. `Local(k)` counts the ins, then the outs, then the locals, from 0.
#[derive(Drop)]
pub struct SrcProc {
    /// The bytes of the name.
    pub name: Items<u8>,
    /// The in-parameters.
    pub ins: Items<Named>,
    /// The out-parameters.
    pub outs: Items<Named>,
    /// The other local variables.
    pub locals: Items<Named>,
    /// The blocks, numbered from 0.
    pub blocks: Items<SrcBlock>,
    /// One loop for each `while`, ascending by head.
    pub loops: Items<SrcLoop>,
}
