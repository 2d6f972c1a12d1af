//! Laws of the definitions, each the contract of a function that does nothing.
ghost use Rattle.hy_val.specs.Maps.{MapsThatAgreeAreEqual};
ghost use Rattle.hy_val.specs.Laws.{StoresWriteAtOne, ValuesKeepSorts, ChildrenAreLower, EachNodeByCases, EachNodeHasItsSort, FittingExpressionsHaveTheirSorts, OnlyVariablesMatter, RenamingKeepsAll};

/// Two map values of the same sorts that have the same entry at every index are equal.
pub fn maps_that_agree_are_equal()
    ensures { MapsThatAgreeAreEqual }
{}

/// A map value with an entry of its sorts written into it is one, and differs at that index alone.
pub fn stores_write_at_one()
    ensures { StoresWriteAtOne }
{}

/// The zero of a sort has the sort; and what operators, ifs, selects and stores make of values of the
/// sorts that they take has the sort of the result.
pub fn values_keep_sorts()
    ensures { ValuesKeepSorts }
{}

/// In a list of nodes whose sorts fit, children have lower numbers than their nodes.
pub fn children_are_lower()
    ensures { ChildrenAreLower }
{}

/// The value of each node of an expression is that by cases, from the values of its children.
pub fn each_node_is_by_cases()
    ensures { EachNodeByCases }
{}

/// The value of each node of an expression is one of the node's sort, where the environment has the
/// variables with their sorts.
pub fn each_node_has_its_sort()
    ensures { EachNodeHasItsSort }
{}

/// An expression that fits in a scope can be evaluated wherever each variable of the scope has a value
/// of its sort, and its value has the sort that the expression fits at.
pub fn fitting_expressions_have_their_sorts()
    ensures { FittingExpressionsHaveTheirSorts }
{}

/// The value of an expression depends on the variables that stand in it alone.
pub fn only_variables_matter()
    ensures { OnlyVariablesMatter }
{}

/// Renaming the variables of an expression keeps its sorts, and its value where the new names are
/// looked up.
pub fn renaming_keeps()
    ensures { RenamingKeepsAll }
{}
