//! Values of the variables of terms, from bits that are a net's inputs.
ghost use Rattle.std.specs.Prelude.{◌≡◌, ◌≤◌, length, map, IfOk, IsTrue};
ghost use Rattle.hy_term.specs.Meaning.{fits, holds};
ghost use Rattle.hy_term.specs.Variables.{have_sorts, variables};
ghost use Rattle.hy_val.specs.declared.value.Value.TheVariants.{Atom as AtomValue};
ghost use Rattle.gate_net.specs.Net.{value};
ghost use Rattle.gate_net.specs.declared.net.Net.{Net};
ghost use Rattle.bit_blast.specs.Words.{bit, number};
ghost use Rattle.bit_blast.specs.Blasted.{InputsOfVariables, IsNetOf, assigned, input_bits, input_count, scalar_width, sort_width};
ghost use Rattle.bit_blast.specs.Standing.{atom_read, atoms_read, sort_read};

use crate::blasting::term_laws;
use crate::places::sort_width;
use hy_term::{Reduced, TermVariable, variables_of};
use hy_val::{Atom, BitVec, Scalar, ScalarKind, Sort, SortKind};
use sqlite_items::Items;
use std::alloc::{AllocError, Global};

fn bit(on: bool) -> u64
    ensures value { result ≡ bit on }
    ensures small { result ≤ 1 }
{
    if on { 1 } else { 0 }
}

// The number of bits, lowest first.
fn number(bits: &[bool]) -> u64
    requires { length bits.now ≤ 64 }
    ensures { result ≡ number bits.now }
{
    let mut number: u64 = 0;
    for i in 0..bits.len() {
        number = 2 * number + bit(bits[bits.len() - 1 - i]);
    }
    number
}

// The atom of a scalar sort that has these bits.
fn scalar_atom(scalar: Scalar, bits: &[bool]) -> Atom
    requires { length bits.now ≡ scalar_width scalar }
    ensures { result ≡ atom_read scalar bits.now }
{
    match scalar.kind() {
        ScalarKind::Bool => Atom::bool(bits[0]),
        ScalarKind::Bv { width } => {
            let _bits = width.bits();
            Atom::bits(BitVec::new(width, number(bits)))
        }
    }
}

// The atom of a sort that has these bits, and false for a map.
fn sort_atom(sort: Sort, bits: &[bool]) -> Atom
    requires { length bits.now ≡ sort_width sort }
    ensures { result ≡ sort_read sort bits.now }
{
    match sort.kind() {
        SortKind::Scalar(scalar) => scalar_atom(scalar, bits),
        SortKind::Map { index: _, elem: _ } => Atom::bool(false),
    }
}

// The atoms of the variables' sorts that have these bits, one behind the other.
fn atoms(
    alloc: Global,
    variables: &[TermVariable],
    bits: &[bool],
) -> Result<Items<Atom>, AllocError>
    requires { length bits.now ≡ input_count variables.now }
    ensures { IfOk result (λ atoms. atoms ≡ atoms_read variables.now bits.now) }
{
    let mut atoms = Items::new(alloc);
    let mut from: usize = 0;
    for variable in variables {
        let to = from + sort_width(variable.sort);
        atoms.push(sort_atom(variable.sort, &bits[from..to]))?;
        from = to;
    }
    Ok(atoms)
}

/// The values of the variables that have these bits as the inputs of a net of the terms: one for each variable,
/// ascending by number. `AllocError` comes where memory runs out.
pub fn read_back(alloc: Global, terms: &Reduced, bits: &[bool]) -> Result<Items<Atom>, AllocError>
    requires { length bits.now ≡ input_count (variables terms.now.nodes) }
    ensures sorts { IfOk result (λ atoms. IsTrue (have_sorts (variables terms.now.nodes) (map AtomValue atoms))) }
    ensures fits { IfOk result (λ atoms. IsTrue (fits (assigned terms.now.nodes atoms) terms.now.nodes)) }
    ensures bits { IfOk result (λ atoms. input_bits (variables terms.now.nodes) (assigned terms.now.nodes atoms) ≡ bits.now) }
    // what the root of a net of the terms carries for the bits is whether the terms hold for the values
    ensures holds { IfOk result (λ atoms. (net : Net) → IsNetOf terms.now net → value bits.now net.gates.items net.root ≡ holds (assigned terms.now.nodes atoms) terms.now) }
{
    term_laws();
    let nodes = terms.terms().nodes();
    let variables = variables_of(alloc, nodes)?;
    let values = atoms(alloc, variables.as_slice(), bits)?;
    Ok(values)
}

/// The inputs of a variable carry the bits of its value: they begin behind those of the variables before it.
pub fn inputs_of_variables()
    ensures { InputsOfVariables }
{}
