//! The variables that stand in terms.
ghost use Rattle.std.specs.Prelude.{◌≡◌, nat_lt, slice_get, IfOk, OnOk, IsTrue};
ghost use Rattle.hy_term.specs.Variables.{ascend, count_below, has_number, insert, numbers_of, variables, with_variable};

use crate::node::{TermNode, TermVariable};
use sqlite_items::{Items, at};
use std::alloc::{AllocError, Global};

/// How many of the variables, which ascend by number, have a number below this: the place of the variable that has it,
/// where there is one.
pub fn place_of(variables: &[TermVariable], number: usize) -> usize
    requires { IsTrue (ascend (numbers_of variables.now)) }
    ensures { result ≡ count_below number variables.now }
{
    variables.partition_point(
        |variable: &TermVariable| -> bool
            ensures { result ≡ nat_lt variable.now.number number }
        { variable.number < number },
    )
}

// Whether the variable at a place has this number.
fn has_number(variables: &[TermVariable], place: usize, number: usize) -> bool
    ensures { result ≡ has_number number (slice_get variables.now place) }
{
    match at(variables, place) {
        None => false,
        Some(variable) => variable.number == number,
    }
}

// Puts a variable at its place among those that ascend by number. One that is there stays.
fn insert(variables: &mut Vec<TermVariable>, variable: TermVariable) -> Result<(), AllocError>
    requires { IsTrue (ascend (numbers_of variables.old.items)) }
    ensures { OnOk result (variables.new.items ≡ insert variable variables.old.items) }
{
    let place = place_of(variables.as_slice(), variable.number);
    if has_number(variables.as_slice(), place, variable.number) {
        return Ok(());
    }
    variables.insert(place, variable)?;
    Ok(())
}

// Puts the node's variable, where it is one, at its place among those that ascend by number.
fn insert_of(variables: &mut Vec<TermVariable>, node: &TermNode) -> Result<(), AllocError>
    requires { IsTrue (ascend (numbers_of variables.old.items)) }
    ensures { OnOk result (variables.new.items ≡ with_variable variables.old.items node.now) }
{
    match *node {
        TermNode::Variable { number, sort } => insert(variables, TermVariable { number, sort }),
        TermNode::Lit(_) => Ok(()),
        TermNode::ZeroMap { .. } => Ok(()),
        TermNode::Unary { .. } => Ok(()),
        TermNode::Binary { .. } => Ok(()),
        TermNode::If { .. } => Ok(()),
        TermNode::Select { .. } => Ok(()),
        TermNode::Store { .. } => Ok(()),
    }
}

/// The variables that stand in the nodes, each once, ascending by number. `AllocError` comes where memory runs out.
pub fn variables_of(alloc: Global, nodes: &[TermNode]) -> Result<Items<TermVariable>, AllocError>
    ensures { IfOk result (λ vs. vs ≡ variables nodes.now) }
{
    let mut variables = Vec::new(alloc);
    for node in nodes {
        insert_of(&mut variables, node)?;
    }
    Ok(Items::from_vec(variables))
}
