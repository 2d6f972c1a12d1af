//! The edge of a partly inlined call tree (after Corral, CAV 2012): the call sites that can be inlined next, those that a cap cuts off,
//! and inlining.
#![tactic(auto)]

mod callees;
mod growing;
mod listing;
mod nodes;
mod numbers;
mod passing;
mod ways;

pub use growing::inline;
pub use listing::{cut_sites, open_sites};
pub use passing::passed_opens;
