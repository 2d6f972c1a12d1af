//! Laws of the definitions, each the contract of a function that does nothing.
ghost use Rattle.tree_query.specs.Based.{OpeningsAreBases};
ghost use Rattle.tree_query.specs.Walked.{TablesAreWalked};

/// The terms that a question begins with can still have all values of their sorts where nodes that are no variables stand
/// behind them.
pub fn openings_are_bases()
    ensures { OpeningsAreBases }
{}

/// The nodes of a partial tree's table are those of the tree's paths, each called where its path says, with the formula of the
/// procedure to which its path leads.
pub fn tables_are_walked()
    ensures { TablesAreWalked }
{}
