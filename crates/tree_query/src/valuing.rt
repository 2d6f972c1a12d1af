//! The values of all nodes of terms, from those of their variables.
ghost use Rattle.std.specs.Prelude.{◌≡◌, true, List, [], map, length, slice_get, Some, IfOk, IsTrue, IsSome};
ghost use Rattle.std.specs.Option.{option_map};
ghost use Rattle.hy_val.specs.Maps.{select, stored};
ghost use Rattle.hy_val.specs.Sorts.{scalar_of, has_scalar};
ghost use Rattle.hy_val.specs.Stores.{have_sorts};
ghost use Rattle.hy_val.specs.NodeSorts.{as_scalar, unary_sort, binary_sort, select_sort, store_sort};
ghost use Rattle.hy_val.specs.Values.{sort_of, at, atom_of, table_of, is_on, unary_value, binary_value};
ghost use Rattle.hy_val.specs.declared.sort.Sort.{Sort as ValueSort};
ghost use Rattle.hy_val.specs.declared.value.Value.TheVariants.{Map as MapIs};
ghost use Rattle.hy_term.specs.TermSorts.{sort_of_node, sorts};
ghost use Rattle.hy_term.specs.Meaning.{fits, node_value, values};
ghost use Rattle.hy_term.specs.Variables.{ascend, numbers, numbers_of, of_list};
ghost use Rattle.tree_query.specs.Valued.{IsListed};

use hy_term::{
    TermNode, TermVariable, Terms, each_node_has_its_sort, each_value_has_its_sort, place_of,
    variables_are_listed, variables_decide_fits, variables_of,
};
use hy_val::{
    Atom, AtomKind, BvOp, MapValue, Scalar, Sort, UnOp, Value, apply, apply1, select, store,
};
use sqlite_items::Items;
use std::alloc::{AllocError, Global};

// The atom at a place, which has its own sort; false where there is none.
fn atom_at(known: &[Value], place: usize) -> Atom
    ensures value { result ≡ atom_of (at known.now place) }
    ensures kept { IsTrue (has_scalar result (scalar_of result)) }
{
    match sqlite_items::at(known, place) {
        Some(Value::Atom(atom)) => {
            let _sort = atom.sort();
            *atom
        }
        Some(Value::Map(_)) => Atom::bool(false),
        None => Atom::bool(false),
    }
}

// Whether the value at a place is true.
fn is_on(known: &[Value], place: usize) -> bool
    ensures { result ≡ is_on (at known.now place) }
{
    match atom_at(known, place).kind() {
        AtomKind::Bool(truth) => truth,
        AtomKind::Bv(_) => false,
    }
}

// The value at a place, copied; false where there is none.
fn value_at(alloc: Global, known: &[Value], place: usize) -> Result<Value, AllocError>
    ensures { IfOk result (λ v. v ≡ at known.now place) }
{
    match sqlite_items::at(known, place) {
        Some(value) => value.copy(alloc),
        None => Ok(Value::Atom(Atom::bool(false))),
    }
}

// The value of a variable that is listed, copied, where the values are those of the variables.
fn variable_value(
    alloc: Global,
    variables: &[TermVariable],
    model: &[Value],
    number: usize,
) -> Result<Value, AllocError>
    requires ascend { IsTrue (ascend (numbers_of variables.now)) }
    requires listed { (sort : ValueSort) × IsListed variables.now (TermNode.Variable number sort) }
    ensures { IfOk result (λ v. v ≡ of_list (numbers_of variables.now) model.now number) }
{
    value_at(alloc, model, place_of(variables, number))
}

fn unary(known: &[Value], op: UnOp, child: usize) -> Atom
    requires { IsSome (unary_sort op (as_scalar (slice_get (map sort_of known.now) child))) }
    ensures { result ≡ atom_of (unary_value op (at known.now child)) }
{
    apply1(op, atom_at(known, child))
}

fn binary(known: &[Value], op: BvOp, left: usize, right: usize) -> Atom
    requires { IsSome (binary_sort op (as_scalar (slice_get (map sort_of known.now) left)) (as_scalar (slice_get (map sort_of known.now) right))) }
    ensures { result ≡ atom_of (binary_value op (at known.now left) (at known.now right)) }
{
    apply(op, atom_at(known, left), atom_at(known, right))
}

// The entry at an index of the map at a place; false where there is no map.
fn select_at(known: &[Value], place: usize, index: Atom) -> Atom
    requires kept { IsTrue (has_scalar index (scalar_of index)) }
    requires fits { IsSome (select_sort (option_map sort_of (slice_get known.now place)) (Some (scalar_of index))) }
    ensures { result ≡ select (table_of (at known.now place)) index }
{
    match sqlite_items::at(known, place) {
        Some(Value::Map(entries)) => select(entries, index),
        Some(Value::Atom(_)) => Atom::bool(false),
        None => Atom::bool(false),
    }
}

// A copy of a map with a value in place of its entry at an index.
fn copy_with(
    alloc: Global,
    entries: &MapValue,
    index: Atom,
    value: Atom,
) -> Result<Value, AllocError>
    requires index { IsTrue (has_scalar index entries.now.index) }
    requires elem { IsTrue (has_scalar value entries.now.elem) }
    ensures { IfOk result (λ r. r ≡ MapIs (stored entries.now index value)) }
{
    let mut copy = entries.copy(alloc)?;
    store(&mut copy, index, value)?;
    Ok(Value::Map(copy))
}

// The map at a place with a value in place of its entry at an index.
fn store_at(
    alloc: Global,
    known: &[Value],
    place: usize,
    index: Atom,
    value: Atom,
) -> Result<Value, AllocError>
    requires index_kept { IsTrue (has_scalar index (scalar_of index)) }
    requires value_kept { IsTrue (has_scalar value (scalar_of value)) }
    requires fits { IsSome (store_sort (option_map sort_of (slice_get known.now place)) (Some (scalar_of index)) (Some (scalar_of value))) }
    ensures { IfOk result (λ r. r ≡ MapIs (stored (table_of (at known.now place)) index value)) }
{
    match sqlite_items::at(known, place) {
        Some(Value::Map(entries)) => copy_with(alloc, entries, index, value),
        Some(Value::Atom(_)) => unreachable!(),
        None => unreachable!(),
    }
}

// The map whose every entry is zero.
fn zero_map(alloc: Global, index: Scalar, elem: Scalar) -> Value
    ensures { result ≡ MapIs (record { index = index; elem = elem; pairs = [] }) }
{
    Value::zero(alloc, Sort::map(index, elem))
}

// The value of a node, from those of the nodes before it.
fn node_value(
    alloc: Global,
    variables: &[TermVariable],
    model: &[Value],
    known: &[Value],
    node: &TermNode,
) -> Result<Value, AllocError>
    requires ascend { IsTrue (ascend (numbers_of variables.now)) }
    requires listed { IsListed variables.now node.now }
    requires sorts { IsSome (sort_of_node (map sort_of known.now) node.now) }
    ensures { IfOk result (λ v. v ≡ node_value (of_list (numbers_of variables.now) model.now) known.now node.now) }
{
    match *node {
        TermNode::Lit(atom) => Ok(Value::Atom(atom)),
        TermNode::ZeroMap { index, elem } => Ok(zero_map(alloc, index, elem)),
        TermNode::Variable { number, sort: _ } => variable_value(alloc, variables, model, number),
        TermNode::Unary { op, child } => Ok(Value::Atom(unary(known, op, child))),
        TermNode::Binary { op, left, right } => Ok(Value::Atom(binary(known, op, left, right))),
        TermNode::If { cond, yes, no } => {
            if is_on(known, cond) {
                value_at(alloc, known, yes)
            } else {
                value_at(alloc, known, no)
            }
        }
        TermNode::Select { map, index } => {
            Ok(Value::Atom(select_at(known, map, atom_at(known, index))))
        }
        TermNode::Store { map, index, value } => store_at(
            alloc,
            known,
            map,
            atom_at(known, index),
            atom_at(known, value),
        ),
    }
}

/// The values of all nodes, in order, where `model` has one for each variable that stands in the nodes, ascending by number,
/// as `decide` answers them: the values of the nodes under the assignment that the list stands for, each of its node's sort.
///
/// Each node is visited once, and nothing recurses. A variable is found by its number in time logarithmic in their count, and a
/// map is copied at each node whose value is one, so the time is linear in the nodes and in the entries of the maps among the
/// values. `AllocError` comes where memory runs out.
pub fn term_values(
    alloc: Global,
    terms: &Terms,
    model: &[Value],
) -> Result<Items<Value>, AllocError>
    requires count { length model.now ≡ length (numbers terms.now.nodes) }
    requires fits { IsTrue (fits (of_list (numbers terms.now.nodes) model.now) terms.now.nodes) }
    ensures values { IfOk result (λ vs. vs ≡ values (of_list (numbers terms.now.nodes) model.now) terms.now.nodes) }
    ensures sorts { IfOk result (λ vs. (ss : List ValueSort) → sorts terms.now.nodes ≡ Some ss → have_sorts vs ss ≡ true) }
{
    each_node_has_its_sort();
    each_value_has_its_sort();
    variables_are_listed();
    variables_decide_fits();
    let nodes = terms.nodes();
    let listed = variables_of(alloc, nodes)?;
    let variables = listed.as_slice();
    let mut values = Items::new(alloc);
    for node in nodes {
        let value = node_value(alloc, variables, model, values.as_slice(), node)?;
        values.push(value)?;
    }
    Ok(values)
}
