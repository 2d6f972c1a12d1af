//! The sorts of variables, found by their numbers.
ghost use Rattle.std.specs.Prelude.{◌≡◌, ◌<◌, ℕ, nat_eq, None, Some, if◌then◌else◌, List};
ghost use Rattle.std.specs.Map.{lookup};
ghost use Rattle.indexmap.specs.IndexMap.{spare};
ghost use Rattle.hy_term.specs.TermSorts.{free_or_same, named, or_else, variable_agrees};
ghost use Rattle.hy_term.specs.Kept.{IsIndexed};
ghost use Rattle.hy_term.specs.declared.node.TermNode.{TermNode as Node};

use crate::node::TermNode;
use hy_val::Sort;
use indexmap::IndexMap;

// No sort yet, or this one.
fn free_or_same(known: Option<Sort>, sort: Sort) -> bool
    ensures { result ≡ free_or_same known sort }
{
    match known {
        None => true,
        Some(own) => own == sort,
    }
}

/// Whether the node, if it is a variable, has the sort that its number has in the nodes whose variables are noted, where
/// one has it.
pub(crate) fn agrees(by_number: &IndexMap<usize, Sort>, node: &TermNode) -> bool
    ensures { (nodes : List Node) → IsIndexed by_number.now.entries nodes → result ≡ variable_agrees nodes node.now }
{
    match *node {
        TermNode::Variable { number, sort } => {
            free_or_same(by_number.get(&number).copied(), sort)
        }
        TermNode::Lit(_) => true,
        TermNode::ZeroMap { .. } => true,
        TermNode::Unary { .. } => true,
        TermNode::Binary { .. } => true,
        TermNode::If { .. } => true,
        TermNode::Select { .. } => true,
        TermNode::Store { .. } => true,
    }
}

// Notes the sort of a variable whose number has none yet.
fn note_sort(by_number: &mut IndexMap<usize, Sort>, number: usize, sort: Sort)
    requires { 0 < spare by_number.old }
    ensures { (n : ℕ) → lookup (nat_eq n) by_number.new.entries ≡ or_else (lookup (nat_eq n) by_number.old.entries) (if nat_eq number n then Some sort else None) }
{
    if by_number.contains_key(&number) {
        return;
    }
    match by_number.insert(number, sort) {
        Ok(_) => {}
        Err(_) => unreachable!(),
    }
}

/// Notes the sort of the node's variable, where it is one whose number has none yet. There has to be room.
pub(crate) fn note(by_number: &mut IndexMap<usize, Sort>, node: &TermNode)
    requires { 0 < spare by_number.old }
    ensures { (n : ℕ) → lookup (nat_eq n) by_number.new.entries ≡ or_else (lookup (nat_eq n) by_number.old.entries) (named n node.now) }
{
    match *node {
        TermNode::Variable { number, sort } => note_sort(by_number, number, sort),
        TermNode::Lit(_) => {}
        TermNode::ZeroMap { .. } => {}
        TermNode::Unary { .. } => {}
        TermNode::Binary { .. } => {}
        TermNode::If { .. } => {}
        TermNode::Select { .. } => {}
        TermNode::Store { .. } => {}
    }
}
