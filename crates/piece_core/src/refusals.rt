//! Why an event is refused.
ghost use Rattle.std.specs.Prelude.{◌≡◌, ◌↔◌, IsTrue};
ghost use Rattle.std.specs.Arc.{arc_value};
ghost use Rattle.piece_core.specs.Refusals.{take_refusal, back_refusal, EventRefused, IsAsSeen};

use crate::leaves::{Leaf, StatusKind, is_alive, kind};
use crate::sights::Sight;
use crate::tasks::Task;

/// Why an event is refused, in the order in which the causes are tried.
#[derive(Clone, Copy, Debug)]
pub enum EventRefusal {
    /// There is no such node.
    NoNode {
        /// How many nodes there are.
        nodes: usize,
    },
    /// The node is not live.
    Stale {
        /// What it is.
        status: StatusKind,
    },
    /// A worker holds the leaf; from `take` alone.
    Held {
        /// Its number.
        by: u32,
    },
    /// The worker is not the holder; from `back`, nobody is.
    NotHeld,
    /// The leaf is not as it was seen, or the book is one of another task.
    Moved,
    /// There is no memory; from `sight`, `inline` and `split` alone.
    NoMemory,
}

pub(crate) fn refuse_take(nodes: &[Leaf], node: usize) -> Option<EventRefusal>
    ensures { result ≡ take_refusal nodes.now node }
{
    let Some(leaf) = nodes.get(node) else {
        return Some(EventRefusal::NoNode { nodes: nodes.len() });
    };
    if !is_alive(&leaf.status) {
        return Some(EventRefusal::Stale {
            status: kind(&leaf.status),
        });
    }
    match leaf.holder {
        None => None,
        Some(by) => Some(EventRefusal::Held { by }),
    }
}

pub(crate) fn refuse_back(nodes: &[Leaf], node: usize) -> Option<EventRefusal>
    ensures { result ≡ back_refusal nodes.now node }
{
    let Some(leaf) = nodes.get(node) else {
        return Some(EventRefusal::NoNode { nodes: nodes.len() });
    };
    if !is_alive(&leaf.status) {
        return Some(EventRefusal::Stale {
            status: kind(&leaf.status),
        });
    }
    match leaf.holder {
        None => Some(EventRefusal::NotHeld),
        Some(_) => None,
    }
}

// Whether a leaf is as it was seen. What is cheap is compared first, and the tasks, which have a whole program each, last and only where they are not known to be one.
fn is_as_seen(task: &Task, leaf: &Leaf, sight: &Sight, is_own: bool) -> bool
    requires { IsTrue is_own → task.now ≡ arc_value sight.now.task }
    ensures { IsTrue result ↔ IsAsSeen task.now leaf.now sight.now }
{
    if leaf.inlined != sight.inlined {
        return false;
    }
    if !leaf.piece.same(&sight.piece) {
        return false;
    }
    if !leaf.tree.same(&sight.tree) {
        return false;
    }
    if is_own {
        return true;
    }
    let seen: &Task = &sight.task;
    task.same(seen)
}

// The refusal of an event on what was seen. `is_own` says that the task is known to be the sight's.
pub(crate) fn refuse_event(
    task: &Task,
    nodes: &[Leaf],
    worker: u32,
    sight: &Sight,
    is_own: bool,
) -> Option<EventRefusal>
    requires { IsTrue is_own → task.now ≡ arc_value sight.now.task }
    ensures { EventRefused task.now nodes.now worker sight.now result }
{
    let Some(leaf) = nodes.get(sight.node) else {
        return Some(EventRefusal::NoNode { nodes: nodes.len() });
    };
    if !is_alive(&leaf.status) {
        return Some(EventRefusal::Stale {
            status: kind(&leaf.status),
        });
    }
    match leaf.holder {
        None => Some(EventRefusal::NotHeld),
        Some(by) => {
            if by != worker {
                return Some(EventRefusal::NotHeld);
            }
            if is_as_seen(task, leaf, sight, is_own) {
                None
            } else {
                Some(EventRefusal::Moved)
            }
        }
    }
}
