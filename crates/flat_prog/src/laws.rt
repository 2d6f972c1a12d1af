//! Laws of flat programs and their runs, each the contract of a function that does nothing.
ghost use Rattle.flat_prog.specs.Laws.{FlatProcsAreAcyclic, NodesAreRuns, RunsAddTheirCalls, CallsOfRuns, OnceLaw, AllRunsKeep, CapsOfPathsAreOfTrees, WithinIsExact};
ghost use Rattle.flat_prog.specs.Limits.{LimitsNameChanges};
ghost use Rattle.flat_prog.specs.Passing.{CommandsTakeAFront};
ghost use Rattle.flat_prog.specs.Sorted.{RunsKeepSorts};

use hy_val::{fitting_expressions_have_their_sorts, values_keep_sorts};

/// The blocks of a procedure of a flat program have an order in which each edge leads on.
pub fn flat_procedures_are_acyclic()
    ensures { FlatProcsAreAcyclic }
{}

/// The run of a node has the node's own track, and below it the runs of the nodes that its children
/// name.
pub fn nodes_are_runs()
    ensures { NodesAreRuns }
{}

/// Commands take values and results from the front, leave what is behind them, add their calls behind the
/// earlier ones, and do the same with what they take alone; so does the begin of a run.
pub fn commands_take_a_front()
    ensures { CommandsTakeAFront }
{}

/// A run from within a block adds its calls behind the earlier ones, whatever these are.
pub fn runs_add_their_calls()
    ensures { RunsAddTheirCalls }
{}

/// A run of a procedure makes one call for each result, at most as many as its path has sites; they go to
/// the sites on the path, in order; and where the callees left alone what they may not change, so does the
/// run.
pub fn calls_go_to_the_sites_passed()
    ensures { CallsOfRuns }
{}

/// The sites on the path of a run differ.
pub fn sites_are_passed_once()
    ensures { OnceLaw }
{}

/// A run leaves alone the globals that its procedure may not change, with free children and without.
pub fn runs_keep()
    ensures { AllRunsKeep }
{}

/// The marks of a procedure name the globals that it may change: their numbers are these, in order.
pub fn limits_name_changes()
    ensures { LimitsNameChanges }
{}

/// The caps on the site paths of a run tree's nodes are the caps on the tree.
pub fn caps_of_paths_are_of_trees()
    ensures { CapsOfPathsAreOfTrees }
{}

/// A site path is within the caps exactly where it exists and, along it, each source procedure stands at
/// most bound times and each loop procedure at most bound + 1 times in a row.
pub fn within_is_exact()
    ensures { WithinIsExact }
{}

/// Values have their sorts along a run: those of its variables from its begin on, those that its calls ask
/// with, and those that it hands back.
pub fn runs_keep_sorts()
    ensures { RunsKeepSorts }
{
    fitting_expressions_have_their_sorts();
    values_keep_sorts();
}
