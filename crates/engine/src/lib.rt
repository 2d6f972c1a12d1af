//! The search with one worker (after Corral, CAV 2012, and Hydra, FMCAD 2020): what it thinks of a leaf of the book, what it books, and
//! how it goes on until the verdict stands.
#![tactic(auto)]

mod solo;
mod thoughts;
mod turns;
mod workers;

pub use solo::solve_solo;
pub use thoughts::{Thought, think};
pub use turns::{EventKind, Turned, settle, turn};
pub use workers::Worker;
