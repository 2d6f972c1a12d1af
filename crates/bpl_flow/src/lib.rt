//! The flow of programs: statements become numbered blocks, labels and breaks become their numbers.
#![tactic(auto)]

mod blocks;
mod branches;
mod breaks;
mod copies;
mod counted;
mod current;
mod exits;
mod fault;
mod faults;
mod guards;
mod jumps;
mod lowering;
mod places;
mod state;
mod walker;

pub use fault::{FlowFault, FlowKind};
pub use lowering::lower;
