//! Partly inlined call trees (after Corral, CAV 2012) and the pieces into which a search of them is divided (after Hydra, FMCAD
//! 2020): site paths, caps on them, partial trees, decisions on paths, what a run tree reaches, and the laws that make what is
//! decided of partial trees hold of the whole program.
#![tactic(auto)]

mod candidates;
mod caps;
pub mod laws;
mod path;
mod piece;
mod reach;
mod sites;

pub use candidates::undecided;
pub use caps::{may_follow, within_caps};
pub use path::SitePath;
pub use piece::{Decision2, PartTree, Piece, copy_paths, has};
pub use reach::{child_at, reaches};
pub use sites::{callee, proc_at};
