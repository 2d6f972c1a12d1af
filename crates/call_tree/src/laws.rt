//! Laws of the definitions, each the contract of a function that does nothing. They carry what is decided of partial trees over to the
//! full inlining, and bound how far a search can go.
ghost use Rattle.call_tree.specs.Descent.{DescentLaw, EntryLaw};
ghost use Rattle.call_tree.specs.Laws.{OverLaw, UnderLaw, InlineLaw, GrowLaw, FiniteLaw, SizeLaw, RootLaw, OpensLaw, UndecidedLaw, CountLaw, NodesLaw, SiteLaw};
ghost use Rattle.call_tree.specs.Splits.{CoverLaw, DecisionLaw, SafeLaw};

use flat_prog::{calls_go_to_the_sites_passed, runs_keep};

/// A failing run within the caps that meets a piece gives a failing partial run that meets it: below the calls that leave the tree,
/// free children stand for what is cut off. It fails in the same assert, and has the same track at each node.
pub fn full_trees_have_partial_runs()
    ensures { OverLaw }
{
    calls_go_to_the_sites_passed();
    runs_keep();
}

/// A failing partial run without a free child is a failing run within the caps.
pub fn whole_partial_runs_are_full_trees()
    ensures { UnderLaw }
{}

/// Where no whole partial run fails, each failing partial run passes an open site, and those that it passes can be inlined.
pub fn partial_runs_pass_open_sites()
    ensures { InlineLaw }
{}

/// A partial tree stays one when different open sites are appended.
pub fn trees_grow_by_open_sites()
    ensures { GrowLaw }
{}

/// The paths within the caps are finitely many: those of one list, each once.
pub fn paths_are_finitely_many()
    ensures { FiniteLaw }
{}

/// A partial tree has at most as many nodes as there are paths within the caps.
pub fn trees_are_bounded()
    ensures { SizeLaw }
{}

/// Whatever paths are reached, exactly one piece at the ends of a tree of splits is met.
pub fn pieces_cover_all()
    ensures { CoverLaw }
{}

/// Where the over question has no member for each piece at the ends of a tree of splits, no run within the caps fails.
pub fn closed_pieces_are_safe()
    ensures { SafeLaw }
{
    full_trees_have_partial_runs();
}

/// A run tree reaches a path exactly where one gets down along it from the root, site by site.
pub fn paths_are_reached_by_going_down()
    ensures { DescentLaw }
{}

/// A run of an entry is a run tree of a procedure, as `reaches` wants it.
pub fn runs_of_an_entry_are_run_trees()
    ensures { EntryLaw }
{}

/// Each node of a partial tree is within the caps.
pub fn nodes_are_within_caps()
    ensures { NodesLaw }
{}

/// A site behind a path within the caps is so exactly where its callee may follow the procedures on the way there.
pub fn sites_extend_ways()
    ensures { SiteLaw }
{}

/// The root alone is a partial tree, where the bound is at least 1.
pub fn the_root_is_a_tree()
    ensures { RootLaw }
{}

/// The open sites of a partial tree differ, none is a node, and each one's parent is.
pub fn open_sites_differ()
    ensures { OpensLaw }
{}

/// An undecided node is a node of the tree, not the root, and no decision names it.
pub fn undecided_nodes_are_unnamed()
    ensures { UndecidedLaw }
{}

/// Different paths that are all among others are at most as many.
pub fn different_paths_are_counted()
    ensures { CountLaw }
{}

/// What is reached meets a piece with one decision more exactly where it meets the piece and keeps the decision.
pub fn decisions_are_kept_one_by_one()
    ensures { DecisionLaw }
{}
