//! The loops directly inside a scope.

use extract_def::Edge;
use sqlite_items::Items;
use src_prog::SrcLoop;

/// A loop directly inside a scope.
#[derive(Drop)]
pub struct Inner {
    /// The loop.
    pub span: SrcLoop,
    /// The number of its flat procedure.
    pub number: u32,
    /// The number of the block for its first exit in the scope's flat procedure.
    pub first: u32,
    /// Its exits, by block and place.
    pub exits: Items<Edge>,
}
