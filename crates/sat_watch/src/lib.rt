//! A store of clauses for a solver that looks, where a literal becomes false, only at the clauses that watch it.
//!
//! Each clause with two different literals watches two of them (Moskewicz, Madigan, Zhao, Zhang, Malik 2001).
#![tactic(auto)]

mod ids;
mod lists;
mod scan;
pub mod store;
mod watch;
mod watcher;

pub use store::{WatchStore, nothing_is_said_twice};
