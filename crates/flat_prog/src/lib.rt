//! The flat program, in which each loop is a procedure that calls itself, and its runs: trees of runs of
//! one procedure each. What a run is, and which runs are within the caps, stands in the specs.
#![tactic(auto)]

mod alike;
mod block;
mod changing;
mod copying;
mod flat;
mod laws;
mod ordering;
mod proc;
mod run;

pub use block::{FlatBlock, FlatCmd, FlatNext};
pub use changing::limits;
pub use flat::Flat;
pub use laws::{
    calls_go_to_the_sites_passed, caps_of_paths_are_of_trees, commands_take_a_front,
    flat_procedures_are_acyclic, limits_name_changes, nodes_are_runs, runs_add_their_calls,
    runs_keep, runs_keep_sorts, sites_are_passed_once, within_is_exact,
};
pub use ordering::order;
pub use proc::{FlatKind, FlatProc};
pub use run::{Child, PartRun, RunNode, RunTree};
