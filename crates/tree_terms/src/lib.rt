//! One list of terms for a tree of calls: copies of each procedure's formula, with the terms of callers and callees in
//! place of its variables, a bool for each node that says that it is reached, and a bool for a list of rules.
#![tactic(auto)]

mod copying;
mod folding;
mod laws;
mod linked;
mod placing;
mod reach;
mod rules;
mod shared;
mod table;
#[cfg(test)]
mod tests;

pub use copying::copied;
pub use laws::{nodes_are_added, terms_stay};
pub use linked::{
    EdgeTerms, FailTerms, Linked, Place, Role, SiteTerms, Source, Template, TrackTerms, ValueTerms,
    count, kid, node_at, parent, site_node, source_of, template_of,
};
pub use placing::{placed, renamed};
pub use reach::reaches;
pub use rules::{Rule, choice, ruled};
pub use shared::SharedTerms;
pub use table::Table;
