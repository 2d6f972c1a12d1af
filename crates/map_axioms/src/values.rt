//! The values of reduced terms, from atoms for their variables.
ghost use Rattle.std.specs.Prelude.{◌≡◌, true, map, IfOk, IsTrue, IsSome};
ghost use Rattle.hy_val.specs.Values.{at, is_on};
ghost use Rattle.hy_val.specs.declared.value.Value.TheVariants.{Atom as AtomValue};
ghost use Rattle.hy_term.specs.TermSorts.{are_plain, is_plain, sort_of_node, sorts};
ghost use Rattle.hy_term.specs.Meaning.{fits, node_fits, node_value, values};
ghost use Rattle.hy_term.specs.Variables.{ascend, numbers_of};
ghost use Rattle.map_axioms.specs.Steps.{atom_sorts, atom_values, chosen_by};

use hy_term::{TermNode, TermVariable, place_of};
use hy_val::{Atom, AtomKind, apply, apply1};
use sqlite_items::Items;
use std::alloc::{AllocError, Global};

/// The atom at a place; false where there is none.
pub(crate) fn atom_at(atoms: &[Atom], place: usize) -> Atom
    ensures { AtomValue result ≡ at (atom_values atoms.now) place }
{
    match sqlite_items::at(atoms, place) {
        Some(atom) => *atom,
        None => Atom::bool(false),
    }
}

/// The atom of the variable of this number, where the atoms are those of the variables, which ascend by number; false
/// where there is none.
pub(crate) fn atom_of(variables: &[TermVariable], atoms: &[Atom], number: usize) -> Atom
    requires { IsTrue (ascend (numbers_of variables.now)) }
    ensures { AtomValue result ≡ chosen_by variables.now atoms.now number }
{
    let place = place_of(variables, number);
    match sqlite_items::at(variables, place) {
        Some(variable) => {
            if variable.number == number {
                atom_at(atoms, place)
            } else {
                Atom::bool(false)
            }
        }
        None => Atom::bool(false),
    }
}

// Whether the atom at a place is true.
fn is_on(atoms: &[Atom], place: usize) -> bool
    ensures { result ≡ is_on (at (atom_values atoms.now) place) }
{
    match atom_at(atoms, place).kind() {
        AtomKind::Bool(b) => b,
        AtomKind::Bv(_) => false,
    }
}

// The value of a node without maps, from those of the nodes before it.
fn node_atom(variables: &[TermVariable], atoms: &[Atom], known: &[Atom], node: &TermNode) -> Atom
    requires ascend { IsTrue (ascend (numbers_of variables.now)) }
    requires plain { is_plain node.now ≡ true }
    requires sorts { IsSome (sort_of_node (atom_sorts known.now) node.now) }
    ensures { AtomValue result ≡ node_value (chosen_by variables.now atoms.now) (atom_values known.now) node.now }
{
    match *node {
        TermNode::Lit(atom) => atom,
        TermNode::Variable { number, sort: _ } => atom_of(variables, atoms, number),
        TermNode::Unary { op, child } => apply1(op, atom_at(known, child)),
        TermNode::Binary { op, left, right } => {
            apply(op, atom_at(known, left), atom_at(known, right))
        }
        TermNode::If { cond, yes, no } => {
            if is_on(known, cond) {
                atom_at(known, yes)
            } else {
                atom_at(known, no)
            }
        }
        TermNode::ZeroMap { index: _, elem: _ } => unreachable!(),
        TermNode::Select { map: _, index: _ } => unreachable!(),
        TermNode::Store {
            map: _,
            index: _,
            value: _,
        } => unreachable!(),
    }
}

/// The values of all nodes of terms without maps, where the atoms are those of their variables.
pub(crate) fn atoms_of(
    alloc: Global,
    variables: &[TermVariable],
    atoms: &[Atom],
    nodes: &[TermNode],
) -> Result<Items<Atom>, AllocError>
    requires ascend { IsTrue (ascend (numbers_of variables.now)) }
    requires plain { IsTrue (are_plain nodes.now) }
    requires sorts { IsSome (sorts nodes.now) }
    requires fits { IsTrue (fits (chosen_by variables.now atoms.now) nodes.now) }
    ensures { IfOk result (λ known. atom_values known ≡ values (chosen_by variables.now atoms.now) nodes.now) }
{
    let mut known = Items::new(alloc);
    for node in nodes {
        let atom = node_atom(variables, atoms, known.as_slice(), node);
        known.push(atom)?;
    }
    Ok(known)
}
