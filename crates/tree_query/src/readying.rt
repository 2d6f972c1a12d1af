//! Laws of the formulas of a program and of tables over them, each the contract of a function that does nothing.
ghost use Rattle.tree_query.specs.Readied.{FormulasHaveSites, TablesAreReady};

use crate::laws::{openings_are_bases, tables_are_walked};
use proc_template::{roles_are_told, templates_are_shaped, templates_have_sites};

/// The formulas of a program are one for each procedure, in order, and their sites call what the procedure's do.
pub fn formulas_have_sites()
    ensures { FormulasHaveSites }
{
    templates_have_sites();
}

/// In the table of a partial tree over the formulas of a program each node has its procedure's formula, what each variable stands
/// for is there and has its sort, the bits of the formulas are bools, and what a callee takes from its caller stands before what it
/// gives back: so the formulas can be copied behind the terms of the constants, the globals and the entry's ins.
pub fn tables_are_ready()
    ensures { TablesAreReady }
{
    tables_are_walked();
    openings_are_bases();
    templates_have_sites();
    templates_are_shaped();
    roles_are_told();
}
