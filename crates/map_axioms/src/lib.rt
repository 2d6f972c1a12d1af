//! Questions over bool, bit vectors and maps become questions without maps.
#![tactic(auto)]

mod congruence;
mod entries;
mod entry;
mod firsts;
mod lifting;
mod links;
mod node;
mod plan;
mod reduction;
mod row;
mod shared;
mod table;
mod values;

pub use lifting::lift;
pub use plan::Plan;
pub use reduction::reduce;
