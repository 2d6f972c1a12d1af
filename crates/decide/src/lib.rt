//! Questions over bool, bit vectors and maps, decided: by values that answer them, or by a formula and a log that refutes
//! it.
#![tactic(auto)]

mod decision;
mod solving;

pub use decision::Decision;
pub use solving::decide;
