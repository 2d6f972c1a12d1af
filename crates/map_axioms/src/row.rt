//! The reduced terms for the entries of map nodes, each under its map node and its index.
ghost use Rattle.std.specs.Prelude.{◌≡◌, ◌<◌, ◌≤◌, ◌+◌, ◌*◌, length, slice_get, slice_index, None, Some, true, is_some, IfOk, OnOk, IsSome, IsTrue, MatchOption};
ghost use Rattle.hy_term.specs.Variables.{below};
ghost use Rattle.hy_term.specs.declared.node.TermNode.TheVariants.{If as IfNode, Store as StoreNode, Variable as VariableNode};
ghost use Rattle.map_axioms.specs.Steps.{AllParts, AllReduced, IsPart, IsRow, IsSelect, Later, MapsKnown, Read, RowsStand, State, found, is_map_of, known, known_at, row_at};

use crate::entries::Entries;
use crate::entry::{Ask, variable_entry};
use crate::shared::SharedTerms;
use crate::table::Table;
use hy_term::{TermNode, Terms};
use hy_val::{Atom, BvOp, Sort, SortKind};
use sqlite_items::{Items, at};
use std::alloc::{AllocError, Global};

/// The reduced node of a node before; 0 where there is none.
pub(crate) fn reduced_at(reds: &[usize], node: usize) -> usize
    ensures { result ≡ slice_index reds.now node }
{
    match at(reds, node) {
        Some(red) => *red,
        None => 0,
    }
}

// The reduced node for the entry of a map node at a place; 0 where it isn't known.
fn entry_at(rows: &Table, map: usize, place: usize) -> usize
    ensures { result ≡ row_at rows.now map place }
{
    rows.find(map, place).unwrap_or(0)
}

// Whether the entry of a map node at a place is known.
fn is_known(rows: &Table, map: usize, place: usize) -> bool
    ensures { result ≡ is_some (found map place rows.now) }
{
    rows.find(map, place).is_some()
}

// The map, where its entry at the place isn't known.
fn if_unknown(rows: &Table, map: usize, place: usize) -> Option<usize>
    ensures { MatchOption result (IsSome (found map place rows.now)) (λ m. (m ≡ map) × (found map place rows.now ≡ None)) }
{
    match rows.find(map, place) {
        Some(_) => None,
        None => Some(map),
    }
}

// A map that the node is made of, whose entry at the place isn't known.
fn waiting(rows: &Table, node: &TermNode, place: usize) -> Option<usize>
    ensures { MatchOption result (MapsKnown rows.now place node.now) (λ below. (is_map_of below node.now ≡ true) × (found below place rows.now ≡ None)) }
{
    match *node {
        TermNode::If { cond: _, yes, no } => match if_unknown(rows, yes, place) {
            Some(map) => Some(map),
            None => if_unknown(rows, no, place),
        },
        TermNode::Store {
            map,
            index: _,
            value: _,
        } => if_unknown(rows, map, place),
        TermNode::Lit(_) => None,
        TermNode::ZeroMap { index: _, elem: _ } => None,
        TermNode::Variable { number: _, sort: _ } => None,
        TermNode::Unary { op: _, child: _ } => None,
        TermNode::Binary {
            op: _,
            left: _,
            right: _,
        } => None,
        TermNode::Select { map: _, index: _ } => None,
    }
}

// The node for the entry of a map variable.
fn variable_row(
    terms: &Terms,
    base: usize,
    out: &mut SharedTerms,
    entries: &mut Entries,
    reds: &[usize],
    rows: &Table,
    top: usize,
    place: usize,
    number: usize,
    sort: Sort,
) -> Result<usize, AllocError>
    requires under { IsTrue (below base terms.now.nodes) }
    requires row { IsRow base terms.now.nodes out.old.nodes entries.old reds.now rows.now top place }
    requires node { slice_get terms.now.nodes top ≡ Some (VariableNode number sort) }
    ensures entry { IfOk result (λ t. Read base terms.now.nodes out.old.nodes entries.old out.new.nodes entries.new top place t) }
    ensures nodes { OnOk result (length out.new.nodes ≤ length out.old.nodes + 1) }
    ensures entries { OnOk result (length entries.new ≤ length entries.old + 1) }
{
    let _rows = rows.find(top, place);
    let nodes = terms.nodes();
    match sort.kind() {
        SortKind::Map { index: _, elem } => {
            let index = reduced_at(reds, place);
            let ask = Ask {
                map: number,
                place,
                index,
                elem,
            };
            let entry = variable_entry(nodes, base, out, entries, ask)?;
            Ok(entry)
        }
        SortKind::Scalar(_) => unreachable!(),
    }
}

// The node for the entry of an if of maps: the same if of their entries.
fn if_row(
    terms: &Terms,
    base: usize,
    out: &mut SharedTerms,
    entries: &Entries,
    reds: &[usize],
    rows: &Table,
    top: usize,
    place: usize,
    cond: usize,
    yes: usize,
    no: usize,
) -> Result<usize, AllocError>
    requires under { IsTrue (below base terms.now.nodes) }
    requires row { IsRow base terms.now.nodes out.old.nodes entries.now reds.now rows.now top place }
    requires node { slice_get terms.now.nodes top ≡ Some (IfNode cond yes no) }
    requires known { MapsKnown rows.now place (IfNode cond yes no) }
    ensures entry { IfOk result (λ t. Read base terms.now.nodes out.old.nodes entries.now out.new.nodes entries.now top place t) }
    ensures nodes { OnOk result (length out.new.nodes ≤ length out.old.nodes + 1) }
{
    let _nodes = terms.nodes();
    let _entries = entries.as_slice();
    let entry = out.add(TermNode::If {
        cond: reduced_at(reds, cond),
        yes: entry_at(rows, yes, place),
        no: entry_at(rows, no, place),
    })?;
    Ok(entry)
}

// The node for the entry of a store: what is written where the indexes are equal, else the entry of the map under it.
fn store_row(
    terms: &Terms,
    base: usize,
    out: &mut SharedTerms,
    entries: &Entries,
    reds: &[usize],
    rows: &Table,
    top: usize,
    place: usize,
    under: usize,
    index: usize,
    value: usize,
) -> Result<usize, AllocError>
    requires under { IsTrue (below base terms.now.nodes) }
    requires row { IsRow base terms.now.nodes out.old.nodes entries.now reds.now rows.now top place }
    requires node { slice_get terms.now.nodes top ≡ Some (StoreNode under index value) }
    requires known { MapsKnown rows.now place (StoreNode under index value) }
    ensures entry { IfOk result (λ t. Read base terms.now.nodes out.old.nodes entries.now out.new.nodes entries.now top place t) }
    ensures nodes { OnOk result (length out.new.nodes ≤ length out.old.nodes + 2) }
{
    let _nodes = terms.nodes();
    let _entries = entries.as_slice();
    let same = out.add(TermNode::Binary {
        op: BvOp::Eq,
        left: reduced_at(reds, index),
        right: reduced_at(reds, place),
    })?;
    let entry = out.add(TermNode::If {
        cond: same,
        yes: reduced_at(reds, value),
        no: entry_at(rows, under, place),
    })?;
    Ok(entry)
}

// The node for the entry of a map node, where those of its maps are known.
fn node_row(
    terms: &Terms,
    base: usize,
    out: &mut SharedTerms,
    entries: &mut Entries,
    reds: &[usize],
    rows: &Table,
    top: usize,
    place: usize,
    node: TermNode,
) -> Result<usize, AllocError>
    requires under { IsTrue (below base terms.now.nodes) }
    requires row { IsRow base terms.now.nodes out.old.nodes entries.old reds.now rows.now top place }
    requires node { slice_get terms.now.nodes top ≡ Some node }
    requires known { MapsKnown rows.now place node }
    ensures entry { IfOk result (λ t. Read base terms.now.nodes out.old.nodes entries.old out.new.nodes entries.new top place t) }
    ensures nodes { OnOk result (length out.new.nodes ≤ length out.old.nodes + 2) }
    ensures entries { OnOk result (length entries.new ≤ length entries.old + 1) }
{
    let _nodes = terms.nodes();
    match node {
        TermNode::ZeroMap { index: _, elem } => {
            let entry = out.add(TermNode::Lit(Atom::zero(elem)))?;
            Ok(entry)
        }
        TermNode::Variable { number, sort } => {
            let entry = variable_row(
                terms, base, out, entries, reds, rows, top, place, number, sort,
            )?;
            Ok(entry)
        }
        TermNode::If { cond, yes, no } => {
            let entry = if_row(
                terms, base, out, entries, reds, rows, top, place, cond, yes, no,
            )?;
            Ok(entry)
        }
        TermNode::Store { map, index, value } => {
            let entry = store_row(
                terms, base, out, entries, reds, rows, top, place, map, index, value,
            )?;
            Ok(entry)
        }
        TermNode::Lit(_) => unreachable!(),
        TermNode::Unary { op: _, child: _ } => unreachable!(),
        TermNode::Binary {
            op: _,
            left: _,
            right: _,
        } => unreachable!(),
        TermNode::Select { map: _, index: _ } => unreachable!(),
    }
}

// Adds the node for the entry of a map node, where those of its maps are known.
fn add_row(
    terms: &Terms,
    base: usize,
    out: &mut SharedTerms,
    entries: &mut Entries,
    rows: &mut Table,
    reds: &[usize],
    top: usize,
    place: usize,
    node: TermNode,
) -> Result<(), AllocError>
    requires under { IsTrue (below base terms.now.nodes) }
    requires row { IsRow base terms.now.nodes out.old.nodes entries.old reds.now rows.old top place }
    requires node { slice_get terms.now.nodes top ≡ Some node }
    requires known { MapsKnown rows.old place node }
    requires unknown { found top place rows.old ≡ None }
    ensures row { OnOk result (IsRow base terms.now.nodes out.new.nodes entries.new reds.now rows.new top place) }
    ensures later { OnOk result (Later out.old.nodes entries.old out.new.nodes entries.new) }
    ensures nodes { OnOk result (length out.new.nodes + 2 * known (length terms.now.nodes) rows.old ≤ length out.old.nodes + 2 * known (length terms.now.nodes) rows.new) }
    ensures entries { OnOk result (length entries.new + known (length terms.now.nodes) rows.old ≤ length entries.old + known (length terms.now.nodes) rows.new) }
    ensures more { OnOk result (known_at (length terms.now.nodes) rows.new place ≡ known_at (length terms.now.nodes) rows.old place + 1) }
{
    let entry = node_row(terms, base, out, entries, reds, rows, top, place, node)?;
    rows.set(top, place, entry)?;
    Ok(())
}

// Takes off the last of the maps whose entry at the place isn't known, with those behind it; the first map where each is
// known.
fn next(
    left: &mut Items<usize>,
    nodes: &[TermNode],
    rows: &Table,
    map: usize,
    place: usize,
) -> usize
    requires parts { AllParts nodes.now map left.old }
    ensures part { IsPart nodes.now map result }
    ensures parts { AllParts nodes.now map left.new }
    ensures unknown { found map place rows.now ≡ None → found result place rows.now ≡ None }
{
    let _nodes = nodes.len();
    'left: while let Some(node) = left.pop() {
        if !is_known(rows, node, place) {
            return node;
        }
    }
    map
}

/// The node for the entry of a map node at the value of the place: the select is pushed down to the variables that the
/// map is made of, through its stores and ifs, each of which is met once for each index.
pub(crate) fn entry_of(
    alloc: Global,
    terms: &Terms,
    base: usize,
    out: &mut SharedTerms,
    entries: &mut Entries,
    rows: &mut Table,
    reds: &[usize],
    map: usize,
    place: usize,
) -> Result<usize, AllocError>
    requires under { IsTrue (below base terms.now.nodes) }
    requires state { State base terms.now.nodes out.old.nodes entries.old }
    requires rows { RowsStand terms.now.nodes out.old.nodes entries.old rows.old }
    requires reds { AllReduced terms.now.nodes out.old.nodes entries.old reds.now }
    requires select { IsSelect terms.now.nodes map place }
    requires map { map < length reds.now }
    requires place { place < length reds.now }
    ensures entry { IfOk result (λ t. Read base terms.now.nodes out.old.nodes entries.old out.new.nodes entries.new map place t) }
    ensures rows { OnOk result (RowsStand terms.now.nodes out.new.nodes entries.new rows.new) }
    ensures nodes { OnOk result (length out.new.nodes + 2 * known (length terms.now.nodes) rows.old ≤ length out.old.nodes + 2 * known (length terms.now.nodes) rows.new) }
    ensures entries { OnOk result (length entries.new + known (length terms.now.nodes) rows.old ≤ length entries.old + known (length terms.now.nodes) rows.new) }
{
    let nodes = terms.nodes();
    let mut left = Items::new(alloc);
    let mut top = map;
    'walk: while !is_known(rows, map, place) {
        let node = nodes[top];
        match waiting(rows, &node, place) {
            Some(below) => {
                left.push(top)?;
                top = below;
            }
            None => {
                add_row(terms, base, out, entries, rows, reds, top, place, node)?;
                top = next(&mut left, nodes, rows, map, place);
            }
        }
    }
    Ok(entry_at(rows, map, place))
}
