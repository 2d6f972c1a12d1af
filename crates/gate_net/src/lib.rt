//! Nets of gates over truth values, and the clauses that stand for them.
//!
//! A net has inputs and gates, which are its wires. Each gate names wires of lower numbers alone, so that the values of
//! the inputs settle what every wire carries. `Net::add` grows a net and `clauses` puts it into conjunctive normal form,
//! with one variable for each wire: for each choice of values of the inputs the formula can be satisfied with them
//! exactly where the net's root is true under them.
#![tactic(auto)]

mod encoding;
mod folding;
mod net;

pub use encoding::clauses;
pub use net::{MOST_WIRES, Net, NetGate};
