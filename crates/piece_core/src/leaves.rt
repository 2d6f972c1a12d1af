//! The nodes of a book, and what is known of each.
ghost use Rattle.std.specs.Prelude.{◌≡◌};
ghost use Rattle.std.specs.Bool.{OnTrue};
ghost use Rattle.piece_core.specs.declared.leaves.Status2.TheVariants.{Live};
ghost use Rattle.piece_core.specs.Shapes.{is_live};
ghost use Rattle.piece_core.specs.Evidence.{kind_of};

use call_tree::{PartTree, Piece, SitePath};
use cnf_form::Refuted;
use flat_prog::RunTree;

/// What is known of a node, with its evidence.
#[derive(Drop)]
pub enum Status2 {
    /// Nothing yet.
    Live,
    /// No run in it fails: these clauses, which are refuted, stand for its over question.
    Closed(Refuted),
    /// This run in it fails.
    Found(RunTree),
    /// It was split into two halves.
    Split {
        /// The path that is reached in the first half and not in the second.
        site: SitePath,
    },
}

/// A status without its evidence.
#[derive(Clone, Copy, PartialEq, Eq, Debug)]
pub enum StatusKind {
    /// Nothing is known yet.
    Live,
    /// No run in it fails.
    Closed,
    /// A run in it fails.
    Found,
    /// It was split into two halves.
    Split,
}

/// A node of a book: a leaf, or one that was split.
#[derive(Drop)]
pub struct Leaf {
    /// Which runs are looked at.
    pub piece: Piece,
    /// Which calls are inlined.
    pub tree: PartTree,
    /// How many sites were inlined since the node was made.
    pub inlined: u32,
    /// The number of the worker that holds it, or that held it last where it is live no more.
    pub holder: Option<u32>,
    /// What is known of it.
    pub status: Status2,
}

pub(crate) fn kind(status: &Status2) -> StatusKind
    ensures { result ≡ kind_of status.now }
{
    match status {
        Status2::Live => StatusKind::Live,
        Status2::Closed(_) => StatusKind::Closed,
        Status2::Found(_) => StatusKind::Found,
        Status2::Split { .. } => StatusKind::Split,
    }
}

pub(crate) fn is_alive(status: &Status2) -> bool
    ensures value { result ≡ is_live (kind_of status.now) }
    ensures live { OnTrue result (status.now ≡ Live) }
{
    match status {
        Status2::Live => true,
        Status2::Closed(_) => false,
        Status2::Found(_) => false,
        Status2::Split { .. } => false,
    }
}
