//! The checker of logs, which stands apart from the solver, and the trimmer that drops lines which nothing needs.
#![tactic(auto)]

pub mod checker;
pub mod trimmer;

pub use checker::{Verdict, certify, check, refutation_is_sound};
pub use trimmer::trim;
