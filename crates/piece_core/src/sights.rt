//! What a worker sees of a live leaf while it thinks about it.
ghost use Rattle.std.specs.Prelude.{◌≡◌, IfOk};
ghost use Rattle.std.specs.Arc.{arc_value};

use crate::leaves::Leaf;
use crate::tasks::Task;
use call_tree::{PartTree, Piece};
use std::alloc::{AllocError, Global};
use std::sync::Arc;

/// A live leaf as it was seen.
#[derive(Drop)]
pub struct Sight {
    /// The task of its book.
    pub task: Arc<Task, Global>,
    /// The number of the leaf.
    pub node: usize,
    /// Its piece.
    pub piece: Piece,
    /// Its tree.
    pub tree: PartTree,
    /// How many sites it had inlined.
    pub inlined: u32,
}

// A copy of what is seen of a leaf.
pub(crate) fn see(
    alloc: Global,
    task: &Arc<Task, Global>,
    node: usize,
    leaf: &Leaf,
) -> Result<Sight, AllocError>
    ensures { IfOk result (λ s. (arc_value s.task ≡ arc_value task.now) × (s.node ≡ node) × (s.piece ≡ leaf.now.piece) × (s.tree ≡ leaf.now.tree) × (s.inlined ≡ leaf.now.inlined)) }
{
    let task = Arc::try_clone(task)?;
    let piece = leaf.piece.copy(alloc)?;
    let tree = leaf.tree.copy(alloc)?;
    Ok(Sight {
        task,
        node,
        piece,
        tree,
        inlined: leaf.inlined,
    })
}
