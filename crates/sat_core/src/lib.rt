//! The solver: conflict-driven clause learning over any store of clauses, with a log of what it learnt.
#![tactic(auto)]

pub mod learn;
mod order;
pub mod outcome;
pub mod scan;
mod search;
pub mod solver;

pub use learn::analyze;
pub use order::Order;
pub use outcome::Answer;
pub use scan::ScanStore;
pub use solver::solve;
