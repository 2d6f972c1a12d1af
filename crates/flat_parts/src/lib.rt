//! Flat programs from parts that are tried. It serves programs that no pass has made, those of tests and benchmarks.
#![tactic(auto)]

mod calls;
mod commands;
mod exprs;
mod procs;

pub use procs::flat_of;
