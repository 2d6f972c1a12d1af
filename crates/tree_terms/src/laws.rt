//! Laws of the definitions, each the contract of a function that does nothing.
ghost use Rattle.tree_terms.specs.Laws.{NodesAreAdded, TermsStay};

/// What is said of terms, their sorts, their values and copies among them, stays so where more nodes stand behind them.
pub fn terms_stay()
    ensures { TermsStay }
{}

/// A node that has a sort behind others stands there with it; and which sort an operator's and an if's node have.
pub fn nodes_are_added()
    ensures { NodesAreAdded }
{}
