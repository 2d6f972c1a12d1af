//! The way from an assignment to runs, as the contract of a function that does nothing.
ghost use Rattle.template_law.specs.Sounds.{SoundPartsAreMet};

use hy_term::{each_node_has_its_value, each_value_has_its_sort};
use proc_template::{
    ends_are_runs, failures_are_runs, first_variables_are_told, none_fails_at_ends, one_site_fails,
    roles_are_told, sites_are_told, templates_are_shaped,
};

/// On a tree of calls each of whose nodes has the formula of its procedure, under calls, own choices and returned values that fit, each
/// node's formula says a run of its procedure, what a passed site says is what comes back there, and an open site's free child may be
/// what the site says.
pub fn sound_parts_are_met()
    ensures { SoundPartsAreMet }
{
    each_node_has_its_value();
    each_value_has_its_sort();
    templates_are_shaped();
    roles_are_told();
    sites_are_told();
    first_variables_are_told();
    ends_are_runs();
    failures_are_runs();
    one_site_fails();
    none_fails_at_ends();
}
