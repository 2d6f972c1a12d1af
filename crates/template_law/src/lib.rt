//! What the formulas of procedures owe a question: on a tree of calls each of whose nodes has the formula of its procedure, what an
//! assignment says of a node is a run of the procedure, and each run of it can be assigned (after Corral, CAV 2012).
#![tactic(auto)]

mod plans;
mod sound;

pub use plans::parts_are_met;
pub use sound::sound_parts_are_met;
