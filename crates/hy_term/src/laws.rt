//! Laws of the definitions, each the contract of a function that does nothing.
ghost use Rattle.hy_term.specs.Laws.{AboveIsFree, EachNodeHasItsSort, EachNodeHasItsValue, EachValueHasItsSort, FitsByVariables, ListsAreRead, ListsFit, ListsSuffice, NewValue, NewVariables, PlainVariablesAreScalars, ValuesStay, VariablesAloneMatter, VariablesAreListed, VariablesAscend};

use hy_val::values_keep_sorts;

/// A node's value is that of its operator on the values of all nodes.
pub fn each_node_has_its_value()
    ensures { EachNodeHasItsValue }
{}

/// Nodes that are added leave the values of the others.
pub fn values_stay()
    ensures { ValuesStay }
{}

/// The value of a node that is added.
pub fn new_value()
    ensures { NewValue }
{}

/// Only the variables that stand in the nodes matter.
pub fn variables_alone_matter()
    ensures { VariablesAloneMatter }
{}

/// The list of an assignment's values for the variables that stand in the nodes says the same as the assignment.
pub fn lists_suffice()
    ensures { ListsSuffice }
{}

/// Values for new variables, whose numbers are above the others, leave the values of the nodes.
pub fn new_variables()
    ensures { NewVariables }
{}

/// A number above those of all variables has no sort yet.
pub fn above_is_free()
    ensures { AboveIsFree }
{}

/// The value of each node has the node's sort, where the variables' values have theirs.
pub fn each_value_has_its_sort()
    ensures { EachValueHasItsSort }
{
    values_keep_sorts();
}

/// The variables ascend by number, and an assignment fits exactly where its values for them have their sorts.
pub fn variables_decide_fits()
    ensures ascend { VariablesAscend }
    ensures fits { FitsByVariables }
{}

/// The assignment that a list of values stands for has these values, and fits where they have the variables' sorts.
pub fn lists_are_assignments()
    ensures read { ListsAreRead }
    ensures fit { ListsFit }
{}

/// The sort of each node is that from the sorts of the nodes before it.
pub fn each_node_has_its_sort()
    ensures { EachNodeHasItsSort }
{}

/// A variable node's variable stands in the list of the variables, at the place of its number.
pub fn variables_are_listed()
    ensures { VariablesAreListed }
{}

/// Where there are no maps, each variable has a scalar sort, whose width is 1 to 64.
pub fn plain_variables_are_scalars()
    ensures { PlainVariablesAreScalars }
{}
