//! Clauses, logs of derived clauses, and the store that a solver works over.
//!
//! A formula is a conjunction of clauses over numbered variables. A log derives further clauses
//! from it, each shown by reverse unit propagation along hints, as in the LRAT format.
#![tactic(auto)]

pub mod clause;
pub mod cnf;
pub mod lit;
pub mod literal_set;
pub mod log;
pub mod look;
pub mod refuted;
pub mod store;
pub mod trail;

pub use clause::{Clause, Clauses};
pub use cnf::Cnf;
pub use lit::Lit;
pub use literal_set::LiteralSet;
pub use log::{Hints, Line, Lines, Log};
pub use look::{FalseLiterals, Look, look_at};
pub use refuted::Refuted;
pub use store::{ClauseStore, Seen};
pub use trail::Trail;
