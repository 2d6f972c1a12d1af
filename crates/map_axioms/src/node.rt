//! The reduced terms for the nodes that aren't maps.
ghost use Rattle.std.specs.Prelude.{◌≡◌, ◌<◌, ◌≤◌, ◌+◌, ◌*◌, length, nat_eq, slice_get, Some, IfOk, OnOk, IsTrue};
ghost use Rattle.hy_val.specs.declared.sort.SortKind.TheVariants.{Scalar as ScalarSort};
ghost use Rattle.hy_term.specs.TermSorts.{sort_at};
ghost use Rattle.hy_term.specs.Variables.{below};
ghost use Rattle.indexmap.specs.IndexMap.{get};
ghost use Rattle.map_axioms.specs.Steps.{AllReduced, AreFirsts, RowsStand, State, Taken, known, renamed};

use crate::entries::Entries;
use crate::firsts::first_of;
use crate::row::{entry_of, reduced_at};
use crate::shared::SharedTerms;
use crate::table::Table;
use hy_term::{TermNode, Terms};
use hy_val::{Scalar, SortKind};
use indexmap::IndexMap;
use std::alloc::{AllocError, Global};

// The node with its children renamed, where it has no maps.
fn renamed(reds: &[usize], node: TermNode) -> TermNode
    ensures { result ≡ renamed reds.now node }
{
    match node {
        TermNode::Unary { op, child } => TermNode::Unary {
            op,
            child: reduced_at(reds, child),
        },
        TermNode::Binary { op, left, right } => TermNode::Binary {
            op,
            left: reduced_at(reds, left),
            right: reduced_at(reds, right),
        },
        TermNode::If { cond, yes, no } => TermNode::If {
            cond: reduced_at(reds, cond),
            yes: reduced_at(reds, yes),
            no: reduced_at(reds, no),
        },
        TermNode::Lit(atom) => TermNode::Lit(atom),
        TermNode::ZeroMap { index, elem } => TermNode::ZeroMap { index, elem },
        TermNode::Variable { number, sort } => TermNode::Variable { number, sort },
        TermNode::Select { map, index } => TermNode::Select { map, index },
        TermNode::Store { map, index, value } => TermNode::Store { map, index, value },
    }
}

// The reduced node of the next node, which is a scalar.
fn scalar_node(
    alloc: Global,
    terms: &Terms,
    base: usize,
    out: &mut SharedTerms,
    entries: &mut Entries,
    rows: &mut Table,
    firsts: &mut IndexMap<usize, usize>,
    reds: &[usize],
    node: TermNode,
    sort: Scalar,
) -> Result<usize, AllocError>
    requires under { IsTrue (below base terms.now.nodes) }
    requires state { State base terms.now.nodes out.old.nodes entries.old }
    requires rows { RowsStand terms.now.nodes out.old.nodes entries.old rows.old }
    requires firsts { AreFirsts terms.now.nodes reds.now (get nat_eq firsts.old) }
    requires reds { AllReduced terms.now.nodes out.old.nodes entries.old reds.now }
    requires node { slice_get terms.now.nodes (length reds.now) ≡ Some node }
    requires sort { sort_at terms.now.nodes (length reds.now) ≡ Some (ScalarSort sort) }
    ensures node { IfOk result (λ t. Taken base terms.now.nodes out.old.nodes entries.old out.new.nodes entries.new (length reds.now) t) }
    ensures firsts { OnOk result (AreFirsts terms.now.nodes reds.now (get nat_eq firsts.new)) }
    ensures rows { OnOk result (RowsStand terms.now.nodes out.new.nodes entries.new rows.new) }
    ensures nodes { OnOk result (length out.new.nodes + 2 * known (length terms.now.nodes) rows.old ≤ length out.old.nodes + 2 * known (length terms.now.nodes) rows.new + 1) }
    ensures entries { OnOk result (length entries.new + known (length terms.now.nodes) rows.old ≤ length entries.old + known (length terms.now.nodes) rows.new) }
{
    let nodes = terms.nodes();
    match node {
        TermNode::Select { map, index } => {
            let place = first_of(firsts, nodes, reds, index)?;
            let red = entry_of(alloc, terms, base, out, entries, rows, reds, map, place)?;
            Ok(red)
        }
        _ => {
            let red = out.add(renamed(reds, node))?;
            Ok(red)
        }
    }
}

/// The reduced node of the next node. A map has none, and 0 stands in its place.
pub(crate) fn reduced(
    alloc: Global,
    terms: &Terms,
    base: usize,
    out: &mut SharedTerms,
    entries: &mut Entries,
    rows: &mut Table,
    firsts: &mut IndexMap<usize, usize>,
    reds: &[usize],
) -> Result<usize, AllocError>
    requires under { IsTrue (below base terms.now.nodes) }
    requires state { State base terms.now.nodes out.old.nodes entries.old }
    requires rows { RowsStand terms.now.nodes out.old.nodes entries.old rows.old }
    requires firsts { AreFirsts terms.now.nodes reds.now (get nat_eq firsts.old) }
    requires reds { AllReduced terms.now.nodes out.old.nodes entries.old reds.now }
    requires next { length reds.now < length terms.now.nodes }
    ensures node { IfOk result (λ t. Taken base terms.now.nodes out.old.nodes entries.old out.new.nodes entries.new (length reds.now) t) }
    ensures firsts { OnOk result (AreFirsts terms.now.nodes reds.now (get nat_eq firsts.new)) }
    ensures rows { OnOk result (RowsStand terms.now.nodes out.new.nodes entries.new rows.new) }
    ensures nodes { OnOk result (length out.new.nodes + 2 * known (length terms.now.nodes) rows.old ≤ length out.old.nodes + 2 * known (length terms.now.nodes) rows.new + 1) }
    ensures entries { OnOk result (length entries.new + known (length terms.now.nodes) rows.old ≤ length entries.old + known (length terms.now.nodes) rows.new) }
{
    let nodes = terms.nodes();
    match terms.sort_of(reds.len()).kind() {
        SortKind::Map { index: _, elem: _ } => Ok(0),
        SortKind::Scalar(sort) => {
            let red = scalar_node(
                alloc,
                terms,
                base,
                out,
                entries,
                rows,
                firsts,
                reds,
                nodes[reds.len()],
                sort,
            )?;
            Ok(red)
        }
    }
}
