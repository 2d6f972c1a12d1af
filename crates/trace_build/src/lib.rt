//! From a failing run tree of the flat program back to the program: the choices on which the machine
//! fails as the tree does.
#![tactic(auto)]

mod counts;
mod listing;
mod parts;
mod values;
mod walk;

pub use listing::choices;
