//! The way back: values of the source's variables from those of the reduced terms' variables.
ghost use Rattle.std.specs.Prelude.{◌≡◌, [], true, length, map, nat_eq, Some, IfOk, IsTrue};
ghost use Rattle.hy_term.specs.TermSorts.{sort_of_number};
ghost use Rattle.hy_term.specs.Meaning.{fits, holds, values};
ghost use Rattle.hy_term.specs.Variables.{ascend, numbers, numbers_of, of_list, variables};
ghost use Rattle.indexmap.specs.IndexMap.{get};
ghost use Rattle.map_axioms.specs.Lifting.{FirstsFrom};
ghost use Rattle.map_axioms.specs.Reduction.{AgreeOnScalars, of_atoms};
ghost use Rattle.map_axioms.specs.Steps.{Fillable, IsPlan, LinksFrom, atom_values, chosen_by, filled, lifted};

use crate::entry::Entry;
use crate::links::{Chains, linked, place_for};
use crate::plan::Plan;
use crate::values::{atom_at, atom_of, atoms_of};
use hy_term::{TermVariable, Terms, variables_of};
use hy_val::{Atom, MapValue, Scalar, SortKind, Value, store};
use sqlite_items::Items;
use std::alloc::{AllocError, Global};

// The map of a map variable: the entries that were asked for, and zero elsewhere. Only its own entries are visited, so all
// maps together visit each entry once.
fn filled(
    alloc: Global,
    variables: &[TermVariable],
    atoms: &[Atom],
    known: &[Atom],
    entries: &[Entry],
    links: &Chains,
    number: usize,
    index: Scalar,
    elem: Scalar,
) -> Result<MapValue, AllocError>
    requires ascend { IsTrue (ascend (numbers_of variables.now)) }
    requires sorts { Fillable (chosen_by variables.now atoms.now) (atom_values known.now) number index elem entries.now }
    requires next { LinksFrom entries.now links.now.next 0 }
    requires firsts { FirstsFrom entries.now (get nat_eq links.now.firsts) 0 }
    ensures { IfOk result (λ m. m ≡ filled (chosen_by variables.now atoms.now) (atom_values known.now) number (record { index = index; elem = elem; pairs = [] }) entries.now) }
{
    let mut map = MapValue::zero(alloc, index, elem);
    let later = links.next.as_slice();
    let mut next = place_for(&links.firsts, number, entries.len());
    'fill: while next < entries.len() {
        let entry = entries[next];
        let place = atom_at(known, entry.index);
        let value = atom_of(variables, atoms, entry.number);
        store(&mut map, place, value)?;
        next = later[next];
    }
    Ok(map)
}

// The value of a variable of the source.
fn lifted_value(
    alloc: Global,
    source: &Terms,
    reduced: &Terms,
    entries: &[Entry],
    links: &Chains,
    variables: &[TermVariable],
    atoms: &[Atom],
    known: &[Atom],
    variable: TermVariable,
) -> Result<Value, AllocError>
    requires plan { IsPlan source.now reduced.now entries.now }
    requires ascend { IsTrue (ascend (numbers_of variables.now)) }
    requires fits { IsTrue (fits (chosen_by variables.now atoms.now) reduced.now.nodes) }
    requires known { atom_values known.now ≡ values (chosen_by variables.now atoms.now) reduced.now.nodes }
    requires next { LinksFrom entries.now links.now.next 0 }
    requires firsts { FirstsFrom entries.now (get nat_eq links.now.firsts) 0 }
    requires sort { sort_of_number variable.number source.now.nodes ≡ Some variable.sort }
    ensures { IfOk result (λ v. v ≡ lifted source.now.nodes reduced.now.nodes entries.now (chosen_by variables.now atoms.now) variable.number) }
{
    let _source = source.root();
    let _reduced = reduced.root();
    match variable.sort.kind() {
        SortKind::Scalar(_) => Ok(Value::Atom(atom_of(variables, atoms, variable.number))),
        SortKind::Map { index, elem } => {
            let number = variable.number;
            let map = filled(
                alloc, variables, atoms, known, entries, links, number, index, elem,
            )?;
            Ok(Value::Map(map))
        }
    }
}

// The values of all variables of the source, ascending by number.
fn lifted_values(
    alloc: Global,
    source: &Terms,
    reduced: &Terms,
    entries: &[Entry],
    atoms: &[Atom],
) -> Result<Items<Value>, AllocError>
    requires plan { IsPlan source.now reduced.now entries.now }
    requires fits { IsTrue (fits (of_atoms reduced.now.nodes atoms.now) reduced.now.nodes) }
    ensures { IfOk result (λ vs. vs ≡ map (lifted source.now.nodes reduced.now.nodes entries.now (of_atoms reduced.now.nodes atoms.now)) (numbers source.now.nodes)) }
{
    let nodes = reduced.nodes();
    let ours = variables_of(alloc, nodes)?;
    let variables = ours.as_slice();
    let values = atoms_of(alloc, variables, atoms, nodes)?;
    let known = values.as_slice();
    let links = linked(alloc, entries)?;
    let theirs = variables_of(alloc, source.nodes())?;
    let wanted = theirs.as_slice();
    let mut lifted = Items::new(alloc);
    for variable in wanted {
        let value = lifted_value(
            alloc, source, reduced, entries, &links, variables, atoms, known, *variable,
        )?;
        lifted.push(value)?;
    }
    Ok(lifted)
}

/// Values for the variables of the source, ascending by number, from atoms for those of the reduced terms, ascending too,
/// that make the reduced root true: the source's root is then true, and its variables that aren't maps have the same
/// values. A map has the entries that were asked for, and is zero elsewhere.
pub fn lift(alloc: Global, plan: &Plan, atoms: &[Atom]) -> Result<Items<Value>, AllocError>
    requires fits { IsTrue (fits (of_atoms plan.now.reduced.nodes atoms.now) plan.now.reduced.nodes) }
    requires holds { holds (of_atoms plan.now.reduced.nodes atoms.now) plan.now.reduced ≡ true }
    ensures count { IfOk result (λ vs. length vs ≡ length (numbers plan.now.source.nodes)) }
    ensures fits { IfOk result (λ vs. IsTrue (fits (of_list (numbers plan.now.source.nodes) vs) plan.now.source.nodes)) }
    ensures holds { IfOk result (λ vs. holds (of_list (numbers plan.now.source.nodes) vs) plan.now.source ≡ true) }
    ensures scalars { IfOk result (λ vs. AgreeOnScalars plan.now.source.nodes (of_list (numbers plan.now.source.nodes) vs) (of_atoms plan.now.reduced.nodes atoms.now)) }
{
    let values = lifted_values(
        alloc,
        &plan.source,
        &plan.reduced,
        plan.entries.as_slice(),
        atoms,
    )?;
    Ok(values)
}
