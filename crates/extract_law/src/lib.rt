//! Extraction keeps the failing runs: the machine fails on some choices exactly where some run tree
//! in the full inlining of the flat program fails (Corral, CAV 2012).
#![tactic(auto)]

mod laws;

pub use laws::{failing_lists_have_trees, failing_trees_have_lists};
