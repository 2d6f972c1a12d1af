//! Copying the formulas of a tree's nodes behind other terms, without a stack: a node's copy goes on until the term for a
//! variable is one of a callee whose copy has not come so far; then that one goes on.
ghost use Rattle.std.specs.Prelude.{◌≡◌, ◌↔◌, ◌+◌, ◌<◌, ◌≤◌, [], None, Some, length, slice_get, IfOk, OnOk, IfSome, IsSome, IsTrue};
ghost use Rattle.hy_term.specs.declared.node.TermNode.TheVariants.{Variable};
ghost use Rattle.hy_term.specs.TermSorts.{sorts};
ghost use Rattle.hy_term.specs.Variables.{below};
ghost use Rattle.tree_terms.specs.Copying.{AreCopied, AreCopying, AreDone, AreLinked, IsCopying, IsNext, IsReady, IsTurn, Keeps, MayGo, waits};
ghost use Rattle.tree_terms.specs.Linked.{IsLinked, IsVariable, nodes_of};
ghost use Rattle.tree_terms.specs.Tables.{IsPushed, row};

use crate::linked::{Linked, Source, count, node_at, parent, source_of};
use crate::placing::{placed, renamed};
use crate::shared::SharedTerms;
use crate::table::Table;
use hy_term::TermNode;
use hy_val::Sort;
use std::alloc::{AllocError, Global};

// The node whose copy must go on before that of a node can.
fn waits(q: &Linked, places: &Table, node: usize) -> Option<usize>
    requires linked { AreLinked q.now }
    requires count { length places.now ≡ length q.now.tree }
    requires within { node < length q.now.tree }
    ensures { result ≡ waits q.now places.now node }
{
    match node_at(q, node, places.row(node).len()) {
        Some(TermNode::Variable { number, sort: _ }) => match source_of(q, node, number) {
            Source::Down { node: callee, at } => {
                if at < places.row(callee).len() {
                    None
                } else {
                    Some(callee)
                }
            }
            _ => None,
        },
        _ => None,
    }
}

// The node to go on with, for a node whose copy is not whole.
fn next_node(q: &Linked, places: &Table, node: usize) -> usize
    requires linked { AreLinked q.now }
    requires count { length places.now ≡ length q.now.tree }
    requires go { MayGo q.now places.now node }
    ensures go { MayGo q.now places.now result }
    ensures free { waits q.now places.now result ≡ None }
{
    let mut at = node;
    'down: while let Some(callee) = waits(q, places, at) {
        at = callee;
    }
    at
}

// The term in the place of a variable.
fn variable_place(
    q: &Linked,
    terms: &mut SharedTerms,
    places: &Table,
    node: usize,
    number: usize,
    sort: Sort,
) -> Result<usize, AllocError>
    requires state { AreCopying q.now terms.old.nodes places.now }
    requires go { MayGo q.now places.now node }
    requires free { waits q.now places.now node ≡ None }
    requires next { IsVariable q.now node (length (row places.now node)) number sort }
    ensures { IfOk result (IsNext q.now terms.old.nodes terms.new.nodes places.now node) }
{
    match source_of(q, node, number) {
        Source::Given(term) => Ok(term),
        Source::Up(place) => Ok(places.at(parent(q, node), place)),
        Source::Down { node: callee, at } => Ok(places.at(callee, at)),
        Source::Fresh => {
            let number = terms.nodes().len();
            let place = terms.push(TermNode::Variable { number, sort })?;
            Ok(place)
        }
    }
}

// The copy of the next node.
fn next_place(
    q: &Linked,
    terms: &mut SharedTerms,
    places: &Table,
    node: usize,
    next: &TermNode,
) -> Result<usize, AllocError>
    requires state { AreCopying q.now terms.old.nodes places.now }
    requires go { MayGo q.now places.now node }
    requires free { waits q.now places.now node ≡ None }
    requires next { slice_get (nodes_of q.now node) (length (row places.now node)) ≡ Some next.now }
    ensures { IfOk result (IsNext q.now terms.old.nodes terms.new.nodes places.now node) }
{
    if let TermNode::Variable { number, sort } = *next {
        return variable_place(q, terms, places, node, number, sort);
    }
    let place = placed(terms, renamed(next, places.row(node)))?;
    Ok(place)
}

// A node's copy goes on by one.
fn turn(
    q: &Linked,
    terms: &mut SharedTerms,
    places: &mut Table,
    node: usize,
) -> Result<(), AllocError>
    requires state { AreCopying q.now terms.old.nodes places.old }
    requires go { MayGo q.now places.old node }
    requires free { waits q.now places.old node ≡ None }
    ensures { OnOk result (IsTurn q.now terms.old.nodes terms.new.nodes places.old places.new node) }
{
    let Some(next) = node_at(q, node, places.row(node).len()) else {
        unreachable!()
    };
    let place = next_place(q, terms, places, node, &next)?;
    places.push(node, place)?;
    Ok(())
}

// The node to go on with, where one is under way.
fn next_of(q: &Linked, places: &Table, node: usize, at: usize) -> usize
    requires linked { AreLinked q.now }
    requires count { length places.now ≡ length q.now.tree }
    requires go { MayGo q.now places.now node }
    requires within { at < length q.now.tree }
    requires ready { IsReady q.now places.now at }
    ensures go { MayGo q.now places.now result }
    ensures free { waits q.now places.now result ≡ None }
{
    if places.row(at).len() < count(q, at) {
        next_node(q, places, at)
    } else {
        next_node(q, places, node)
    }
}

// Whether a node's copy is whole.
fn is_whole(q: &Linked, places: &Table, node: usize) -> bool
    requires { node < length places.now }
    ensures { IsTrue result ↔ (length (nodes_of q.now node) ≤ length (row places.now node)) }
{
    count(q, node) <= places.row(node).len()
}

// A node's copy is made whole, where those of the nodes before it are.
fn finish(
    q: &Linked,
    terms: &mut SharedTerms,
    places: &mut Table,
    node: usize,
) -> Result<(), AllocError>
    requires state { AreCopying q.now terms.old.nodes places.old }
    requires within { node < length q.now.tree }
    requires done { AreDone q.now places.old node }
    ensures keeps { OnOk result (Keeps q.now terms.old.nodes terms.new.nodes places.old places.new) }
    ensures done { OnOk result (AreDone q.now places.new (node + 1)) }
{
    let mut at = node;
    'turns: while !is_whole(q, places, node) {
        at = next_of(q, places, node, at);
        turn(q, terms, places, at)?;
    }
    Ok(())
}

/// Copies the formulas of all nodes of the tree behind the terms, and answers for each node of the tree the numbers of the
/// copies of its formula's nodes, in their order. In place of a variable stands what the caller passes, what the callee gives
/// back, or, where the site is open and for the run's own choices, a new variable, whose number is that of its node. So the
/// copies have the formulas' values where the variables have those of what stands in their place, and the new variables may
/// have any values of their sorts.
///
/// What stands in a variable's place has to have its sort, a callee has to stand behind its caller, what it takes from its
/// caller before what the caller takes from it, and the terms' variables have numbers below the count of the terms.
/// `AllocError` comes where memory runs out; the terms have then grown.
pub fn copied(alloc: Global, q: &Linked, terms: &mut SharedTerms) -> Result<Table, AllocError>
    requires linked { IsLinked q.now terms.old.nodes }
    requires sorted { IsSome (sorts terms.old.nodes) }
    requires low { IsTrue (below (length terms.old.nodes) terms.old.nodes) }
    ensures { IfOk result (AreCopied q.now terms.old.nodes terms.new.nodes) }
{
    let mut places = Table::new(alloc, q.tree.len())?;
    for node in 0..q.tree.len() {
        finish(q, terms, &mut places, node)?;
    }
    Ok(places)
}
