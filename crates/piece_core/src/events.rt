//! The journal of a book.
ghost use Rattle.std.specs.Prelude.{◌≡◌};
ghost use Rattle.piece_core.specs.Book.{entry};

use call_tree::SitePath;
use sqlite_items::Items;

/// What is done with a live leaf.
#[derive(Drop)]
pub enum Event {
    /// The worker holds it from now on.
    Take,
    /// Its tree grows by these nodes.
    Inline {
        /// Their paths.
        sites: Items<SitePath>,
    },
    /// It is split into two halves.
    Split {
        /// The path that is reached in the first half and not in the second.
        site: SitePath,
    },
    /// No run in it fails.
    Close,
    /// A run in it fails.
    Found,
    /// Nobody holds it from now on.
    Back,
}

/// One event of a journal.
#[derive(Drop)]
pub struct Entry {
    /// The number of the worker that books it.
    pub worker: u32,
    /// The number of the leaf.
    pub node: usize,
    /// What is done with it.
    pub event: Event,
}

pub(crate) fn noted(worker: u32, node: usize, event: Event) -> Entry
    ensures { result ≡ entry worker node event }
{
    Entry {
        worker,
        node,
        event,
    }
}
