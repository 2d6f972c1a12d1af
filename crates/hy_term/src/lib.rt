//! Terms over bool, bit-vector and map variables: lists of nodes whose children stand before them, with one node that
//! they are about. A term means what the expression with the same operators does.
#![tactic(auto)]

mod builder;
mod by_number;
mod laws;
mod node;
mod reduced;
mod sorts;
mod terms;
mod variables;

pub use builder::TermBuilder;
pub use laws::{
    above_is_free, each_node_has_its_sort, each_node_has_its_value, each_value_has_its_sort,
    lists_are_assignments, lists_suffice, new_value, new_variables, plain_variables_are_scalars,
    values_stay, variables_alone_matter, variables_are_listed, variables_decide_fits,
};
pub use node::{TermNode, TermVariable};
pub use reduced::Reduced;
pub use sorts::sort_of_node;
pub use terms::Terms;
pub use variables::{place_of, variables_of};
