//! The loops of a procedure: the `while`s that are reached, with their reached blocks, and which of them stands in which.
#![tactic(auto)]

mod finding;
mod laws;
mod making;
mod numbering;
mod types;
mod walk;

pub use finding::nest;
pub use laws::{
    heads_come_first, loops_are_entered_at_heads, loops_are_nested, nests_are_unique,
    other_edges_lead_on,
};
pub use types::{Loop, Nest};
