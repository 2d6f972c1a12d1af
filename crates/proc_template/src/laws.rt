//! Laws of formulas of procedures, each the contract of a function that does nothing.
ghost use Rattle.proc_template.specs.Numbered.{NoneFailsAtEnds, OneSiteFails, PassedAreNumbered};
ghost use Rattle.proc_template.specs.Runs.{BitsAreNeverBoth, EndsAreRuns, FailuresAreRuns, TakenAreRead};
ghost use Rattle.proc_template.specs.Shape.{TemplatesAreShaped};
ghost use Rattle.proc_template.specs.Told.{FirstAreTold, RolesAreTold, SitesAreTold, TemplatesHaveSites};

use flat_prog::sites_are_passed_once;
use hy_term::each_node_has_its_value;
use passive_form::{plain_runs_are_runs, procedures_have_their_sorts};
use vc_gen::{
    blocks_stand_once, calls_have_one_site_each, globals_behind_calls_have_their_sorts,
    passive_forms_are_ready,
};

/// The sites of the formula of a procedure are the procedure's calls, in the order of the blocks and of the calls in each.
pub fn templates_have_sites()
    ensures { TemplatesHaveSites }
{
    passive_forms_are_ready();
    blocks_stand_once();
    calls_have_one_site_each();
    procedures_have_their_sorts();
}

/// Each variable of such a formula has a role, and is the node, with the sort, that the role says: a constant, a global or an in of the
/// procedure, what comes back at a site, or a choice of the run's own. What comes back at a site stands behind what is asked there.
pub fn roles_are_told()
    ensures { RolesAreTold }
{
    passive_forms_are_ready();
    blocks_stand_once();
    calls_have_one_site_each();
    procedures_have_their_sorts();
}

/// What comes back at a site of such a formula are variables with the site's roles; the globals that the callee may not change are those
/// before the call.
pub fn sites_are_told()
    ensures { SitesAreTold }
{
    passive_forms_are_ready();
    blocks_stand_once();
    calls_have_one_site_each();
    procedures_have_their_sorts();
}

/// The first variables of such a formula are the constants, the globals and the ins, numbered from 0 in this order.
pub fn first_variables_are_told()
    ensures { FirstAreTold }
{
    passive_forms_are_ready();
    blocks_stand_once();
    calls_have_one_site_each();
    procedures_have_their_sorts();
}

/// In the formula of a procedure children stand before their nodes and all sorts fit, each variable is one node, its bits are bools, its
/// outs and globals have their sorts, and so have the args and outs of each site and the globals before and after it; what a site is
/// asked for stands before what comes back there.
pub fn templates_are_shaped()
    ensures { TemplatesAreShaped }
{
    passive_forms_are_ready();
    procedures_have_their_sorts();
    globals_behind_calls_have_their_sorts();
}

/// Where the sites whose bits are true are the first calls of a path's blocks, they are the first sites of the path by number: what they
/// ask for and give back are the requests and results of the sites with these numbers, whose nodes stand in this order.
pub fn passed_sites_are_numbered()
    ensures { PassedAreNumbered }
{
    passive_forms_are_ready();
    blocks_stand_once();
    calls_have_one_site_each();
    procedures_have_their_sorts();
}

/// Of the sites that a run passes at most one fails.
pub fn one_site_fails()
    ensures { OneSiteFails }
{
    passive_forms_are_ready();
    blocks_stand_once();
    calls_have_one_site_each();
    procedures_have_their_sorts();
}

/// Where the run ends, no site that it passes fails.
pub fn none_fails_at_ends()
    ensures { NoneFailsAtEnds }
{
    passive_forms_are_ready();
    blocks_stand_once();
    calls_have_one_site_each();
    procedures_have_their_sorts();
    bits_are_never_both();
}

/// The values that a run takes as it begins, and those whose bits are true, are those of the track's nodes.
pub fn taken_values_are_read()
    ensures { TakenAreRead }
{
    each_node_has_its_value();
    passive_forms_are_ready();
    blocks_stand_once();
    calls_have_one_site_each();
    procedures_have_their_sorts();
    plain_runs_are_runs();
    sites_are_passed_once();
}

/// Where the values of a formula's variables make its end's bit true, the procedure has a run that ends so, which passes the edges whose
/// bits are true, takes the values whose bits are true, and passes the sites whose bits are true, by number all sites of its path.
pub fn ends_are_runs()
    ensures { EndsAreRuns }
{
    each_node_has_its_value();
    passive_forms_are_ready();
    blocks_stand_once();
    calls_have_one_site_each();
    procedures_have_their_sorts();
    plain_runs_are_runs();
    sites_are_passed_once();
}

/// Where they make its fail bit true, the procedure has a run that fails, in the same way, which passes the first sites of its path,
/// whatever a callee that fails there fails with.
pub fn failures_are_runs()
    ensures { FailuresAreRuns }
{
    each_node_has_its_value();
    passive_forms_are_ready();
    blocks_stand_once();
    calls_have_one_site_each();
    procedures_have_their_sorts();
    plain_runs_are_runs();
    sites_are_passed_once();
}

/// The bits that say that the run ends and that it fails are never both true.
pub fn bits_are_never_both()
    ensures { BitsAreNeverBoth }
{
    passive_forms_are_ready();
}
