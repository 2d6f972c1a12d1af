//! Flat procedures.

use crate::block::FlatBlock;
use hy_val::Sort;
use sqlite_items::Items;

/// What a flat procedure stands for.
#[derive(Clone, Copy, Debug, PartialEq, Eq)]
pub enum FlatKind {
    /// A procedure of the source program.
    Source {
        /// Its number there, from 0.
        proc: u32,
    },
    /// A loop of a procedure of the source program: its body, turned any number of times.
    Loop {
        /// The number of the source procedure, from 0.
        proc: u32,
        /// The number of the loop's head among the blocks of the source procedure, from 0.
        head: u32,
    },
}

/// A flat procedure. Its run begins at block 0. `Local(k)` counts the ins, then the outs, then the other
/// locals, from 0; all together there are fewer than 2^32.
#[derive(Drop)]
pub struct FlatProc {
    /// What it stands for.
    pub kind: FlatKind,
    /// The sorts of the in-parameters, in order.
    pub ins: Items<Sort>,
    /// The sorts of the out-parameters, in order.
    pub outs: Items<Sort>,
    /// The sorts of the other local variables, in order.
    pub locals: Items<Sort>,
    /// The blocks, numbered from 0, at least one and fewer than 2^32; no path leads from a block back to it.
    pub blocks: Items<FlatBlock>,
}
