//! The formula of each procedure of a flat program, made once over variables of its own, with what each variable stands for: so
//! that one list of terms for a tree of calls is made by copying formulas (after Corral, CAV 2012).
#![tactic(auto)]

mod laws;
mod layout;
mod making;
mod sites;
mod starting;
mod track;

pub use laws::{
    bits_are_never_both, ends_are_runs, failures_are_runs, first_variables_are_told,
    none_fails_at_ends, one_site_fails, passed_sites_are_numbered, roles_are_told, sites_are_told,
    taken_values_are_read, templates_are_shaped, templates_have_sites,
};
pub use making::{make_template, templates};
