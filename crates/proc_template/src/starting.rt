//! The variables with which a formula begins: one for each constant, global and in.
ghost use Rattle.std.specs.Prelude.{◌≡◌, ◌++◌, ◌∷◌, [], OnOk, IfOk, IsTrue};
ghost use Rattle.hy_val.specs.NodeSorts.{is_sort};
ghost use Rattle.vc_gen.specs.Items.{AreSorts};
ghost use Rattle.proc_template.specs.Starting.{Adds, IsBegun, first_actuals, first_nodes, first_sorts};

use hy_term::{TermNode, Terms};
use hy_val::Sort;
use passive_form::Passive;
use sqlite_items::Items;
use std::alloc::{AllocError, Global};
use vc_gen::Actuals;

// One variable more, with the next number.
fn add_variable(terms: &mut Terms, sort: Sort) -> Result<usize, AllocError>
    requires begun { IsBegun terms.old.nodes }
    requires sort { IsTrue (is_sort sort) }
    ensures { IfOk result (λ t. Adds terms.old.nodes (sort ∷ []) terms.new.nodes (t ∷ [])) }
{
    let number = terms.nodes().len() - 1;
    let term = terms.add(TermNode::Variable { number, sort })?;
    Ok(term)
}

// A variable for each of these sorts, in order, and their nodes.
fn add_variables(
    alloc: Global,
    terms: &mut Terms,
    sorts: &[Sort],
) -> Result<Items<usize>, AllocError>
    requires begun { IsBegun terms.old.nodes }
    requires sorts { AreSorts sorts.now }
    ensures { IfOk result (λ ts. Adds terms.old.nodes sorts.now terms.new.nodes ts) }
{
    let mut added = Items::new(alloc);
    for sort in sorts {
        let term = add_variable(terms, *sort)?;
        added.push(term)?;
    }
    Ok(added)
}

/// The nodes with which a formula begins: the literal true, and a variable for each constant, global and in, numbered from 0 in
/// this order. `AllocError` comes for want of memory.
pub(crate) fn begin(
    alloc: Global,
    terms: &mut Terms,
    passive: &Passive,
) -> Result<Actuals, AllocError>
    requires none { terms.old.nodes ≡ first_nodes [] }
    requires sorts { AreSorts (first_sorts passive.now) }
    ensures nodes { OnOk result (terms.new.nodes ≡ first_nodes (first_sorts passive.now)) }
    ensures actuals { IfOk result (λ a. a ≡ first_actuals passive.now) }
{
    let consts = add_variables(alloc, terms, passive.consts.as_slice())?;
    let globals = add_variables(alloc, terms, passive.globals.as_slice())?;
    let args = add_variables(alloc, terms, passive.ins.as_slice())?;
    Ok(Actuals {
        consts,
        globals,
        args,
    })
}
