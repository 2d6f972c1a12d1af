//! The typing of programs: names resolved, sorts checked, and each function replaced by its meaning.
#![tactic(auto)]

mod checking;
mod count;
mod implementations;
mod laws;
mod making;
mod nodes;
mod parts;
mod procs;
mod program;
mod sizes;
mod tallies;
mod templates;
mod typed;
mod uniques;
mod writing;

pub use checking::{MAX_NODES, check};
pub use laws::{checked_programs_are_typed, terms_are_expressions};
pub use type_pass::fault::{TypeFault, TypeKind};
pub use type_pass::tables::Named;
pub use typed::{Typed, TypedBody, TypedInvariant, TypedProc, TypedStmt};
