//! The way from runs to an assignment, as the contract of a function that does nothing.
ghost use Rattle.template_law.specs.Plans.{PartsAreMet};

use flat_prog::{calls_go_to_the_sites_passed, runs_keep, sites_are_passed_once};
use hy_term::{
    each_node_has_its_sort, each_node_has_its_value, each_value_has_its_sort, new_variables,
};
use hy_val::values_keep_sorts;
use passive_form::{limited_runs_are_runs, runs_begin_alike};
use proc_template::{
    bits_are_never_both, ends_are_runs, failures_are_runs, first_variables_are_told,
    none_fails_at_ends, one_site_fails, passed_sites_are_numbered, roles_are_told, sites_are_told,
    taken_values_are_read, templates_are_shaped,
};
use vc_gen::{blocks_stand_once, passive_forms_are_ready, runs_stay};

/// On a tree of calls each of whose nodes has the formula of its procedure, which is the one that its caller's site calls, each run of a
/// node's procedure has choices of the node with which its formula says the run, whatever comes back at sites that the run does not
/// pass. Some choices and values that come back fit at all, and what a free child may hand back does.
pub fn parts_are_met()
    ensures { PartsAreMet }
{
    each_node_has_its_value();
    each_value_has_its_sort();
    each_node_has_its_sort();
    new_variables();
    values_keep_sorts();
    templates_are_shaped();
    roles_are_told();
    sites_are_told();
    first_variables_are_told();
    ends_are_runs();
    failures_are_runs();
    one_site_fails();
    none_fails_at_ends();
    bits_are_never_both();
    passed_sites_are_numbered();
    taken_values_are_read();
    passive_forms_are_ready();
    blocks_stand_once();
    runs_stay();
    runs_begin_alike();
    limited_runs_are_runs();
    sites_are_passed_once();
    calls_go_to_the_sites_passed();
    runs_keep();
}
