//! From the verdict of a book to the runs of the program, each law the contract of a function that does nothing.
ghost use Rattle.book_verdict.specs.Verdicts.{BugBooksHaveRuns, FoundRunsFail, SafeBooksAreSafe};

use call_tree::laws::{full_trees_have_partial_runs, whole_partial_runs_are_full_trees};
use extract_law::{failing_lists_have_trees, failing_trees_have_lists};
use proof_check::refutation_is_sound;

/// Where the verdict of a sound book on a program's flat program is Safe, the machine fails on no list of choices: no run of the
/// entry within the bound fails.
pub fn safe_books_are_safe()
    ensures { SafeBooksAreSafe }
{
    failing_lists_have_trees();
    full_trees_have_partial_runs();
    refutation_is_sound();
}

/// Where the verdict of a sound book is Bug, the node that it names was found, and keeps a run tree.
pub fn bug_books_have_runs()
    ensures { BugBooksHaveRuns }
{}

/// The run tree of a found node of a sound book on a program's flat program is one of the full inlining and fails, and the machine
/// fails in the same assert of the same procedure on the choices for which the tree stands.
pub fn found_runs_fail()
    ensures { FoundRunsFail }
{
    failing_trees_have_lists();
    whole_partial_runs_are_full_trees();
}
