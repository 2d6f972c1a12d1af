//! Loops become procedures: makes the flat program of a program, in which each loop is a procedure
//! that calls itself, and what each block of it comes from (Corral, CAV 2012).
#![tactic(auto)]

mod adding;
mod ascending;
mod blocks;
mod edges;
mod exits;
mod extraction;
mod inner;
mod inside;
mod making;
mod numbers;
mod origins;
mod places;
mod plan;
mod procs;
mod reach;
mod region;
mod renaming;
mod scopes;
mod spans;

pub use extraction::extract;
