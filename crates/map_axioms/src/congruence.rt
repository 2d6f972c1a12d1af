//! Congruence: entries of one map at equal indexes are equal.
ghost use Rattle.std.specs.Prelude.{◌≡◌, ◌≤◌, ◌+◌, ◌*◌, length, drop, nat_eq, slice_get, if◌then◌else◌, Some, IfOk, OnOk};
ghost use Rattle.hy_val.specs.declared.sort.ScalarKind.TheVariants.{Bool as BoolSort};
ghost use Rattle.hy_val.specs.declared.sort.SortKind.TheVariants.{Scalar as ScalarSort};
ghost use Rattle.hy_term.specs.TermSorts.{sort_at};
ghost use Rattle.map_axioms.specs.Steps.{Conjoined, EntryKept, LinksFrom, State, congruent, of_map, pair_on, pairs, pairs_on};

use crate::entry::Entry;
use crate::links::links;
use crate::shared::SharedTerms;
use hy_term::TermNode;
use hy_val::BvOp;
use std::alloc::{AllocError, Global};

// Of two entries of one map: equal indexes have equal entries. Others need nothing.
fn with_pair(
    nodes: &[TermNode],
    base: usize,
    out: &mut SharedTerms,
    entries: &[Entry],
    all: usize,
    one: Entry,
    other: Entry,
) -> Result<usize, AllocError>
    requires state { State base nodes.now out.old.nodes entries.now }
    requires all { sort_at out.old.nodes all ≡ Some (ScalarSort BoolSort) }
    requires one { EntryKept base nodes.now out.old.nodes entries.now one }
    requires other { EntryKept base nodes.now out.old.nodes entries.now other }
    ensures all { IfOk result (λ t. Conjoined base nodes.now out.old.nodes entries.now out.new.nodes all t (λ vs. pair_on vs one other)) }
    ensures nodes { OnOk result (length out.new.nodes ≤ length out.old.nodes + 4 * (if nat_eq one.map other.map then 1 else 0)) }
{
    let _entries = entries.len();
    if one.map != other.map {
        return Ok(all);
    }
    let same = out.add(TermNode::Binary {
        op: BvOp::Eq,
        left: one.index,
        right: other.index,
    })?;
    let alike = out.add(TermNode::Binary {
        op: BvOp::Eq,
        left: one.entry,
        right: other.entry,
    })?;
    let implied = out.add(TermNode::Binary {
        op: BvOp::Implies,
        left: same,
        right: alike,
    })?;
    let both = out.add(TermNode::Binary {
        op: BvOp::And,
        left: all,
        right: implied,
    })?;
    Ok(both)
}

// The same of the entry at a place and each later one of its map.
fn with_pairs(
    nodes: &[TermNode],
    base: usize,
    out: &mut SharedTerms,
    entries: &[Entry],
    links: &[usize],
    all: usize,
    place: usize,
    one: Entry,
) -> Result<usize, AllocError>
    requires state { State base nodes.now out.old.nodes entries.now }
    requires links { LinksFrom entries.now links.now 0 }
    requires all { sort_at out.old.nodes all ≡ Some (ScalarSort BoolSort) }
    requires one { slice_get entries.now place ≡ Some one }
    ensures all { IfOk result (λ t. Conjoined base nodes.now out.old.nodes entries.now out.new.nodes all t (λ vs. pairs_on vs one (drop (place + 1) entries.now))) }
    ensures nodes { OnOk result (length out.new.nodes ≤ length out.old.nodes + 4 * of_map one (drop (place + 1) entries.now)) }
{
    let mut whole = all;
    let mut next = links[place];
    'pairs: while next < entries.len() {
        whole = with_pair(nodes, base, out, entries, whole, one, entries[next])?;
        next = links[next];
    }
    Ok(whole)
}

/// A node that is true where another one is, and entries of one map at equal indexes are equal.
pub(crate) fn congruent(
    alloc: Global,
    nodes: &[TermNode],
    base: usize,
    out: &mut SharedTerms,
    entries: &[Entry],
    all: usize,
) -> Result<usize, AllocError>
    requires state { State base nodes.now out.old.nodes entries.now }
    requires all { sort_at out.old.nodes all ≡ Some (ScalarSort BoolSort) }
    ensures all { IfOk result (λ t. Conjoined base nodes.now out.old.nodes entries.now out.new.nodes all t (λ vs. congruent vs entries.now)) }
    ensures nodes { OnOk result (length out.new.nodes ≤ length out.old.nodes + 4 * pairs entries.now) }
{
    let found = links(alloc, entries)?;
    let links = found.as_slice();
    let mut whole = all;
    for (i, one) in entries.iter().enumerate() {
        whole = with_pairs(nodes, base, out, entries, links, whole, i, *one)?;
    }
    Ok(whole)
}
