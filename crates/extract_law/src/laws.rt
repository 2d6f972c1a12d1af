//! Laws of extraction on runs, each the contract of a function that does nothing.
ghost use Rattle.extract_law.specs.Laws.{FailingListsHaveTrees, FailingTreesHaveLists};

/// Where the machine fails on some choices, some run tree in the full inlining of the flat program
/// fails in the same assert of the same procedure. The bound is at least 1.
pub fn failing_lists_have_trees()
    ensures { FailingListsHaveTrees }
{}

/// Where a run tree in the full inlining fails, the machine fails in the same assert of the same
/// procedure on the choices that the tree stands for.
pub fn failing_trees_have_lists()
    ensures { FailingTreesHaveLists }
{}
