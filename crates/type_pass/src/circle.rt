//! Nodes of a graph that lie on circles.

ghost use Rattle.std.specs.Prelude.{◌≡◌, ◌++◌, ◌∷◌, [], ◌<◌, ℕ, true, false, map, length, slice_set, slice_index_or, IfOk, OnOk};
ghost use Rattle.type_pass.specs.Circles.{IsClosed, IsFlagged, Adds, Reaching, Reaches, Searching};
ghost use Rattle.type_pass.specs.Faults.{first, told};
ghost use Rattle.type_pass.specs.Graphs as spec;
ghost use Rattle.type_pass.specs.Orders.{is_in};
ghost use Rattle.type_pass.specs.Passes.{cyclic_names};

use crate::fault::{TypeFault, TypeKind, earlier};
use crate::order::{is_done, no_flags, order};
use bpl_ast::Name;
use sqlite_items::{Items, at};
use std::alloc::{AllocError, Global};

// The nodes that are found, and which these are.
#[derive(Drop)]
struct Found {
    nodes: Vec<usize>,
    seen: Vec<bool>,
}

// A node is found.
fn find_node(found: &mut Found, node: usize) -> Result<(), AllocError>
    requires { node < length found.old.seen.items }
    ensures nodes { OnOk result (found.new.nodes.items ≡ found.old.nodes.items ++ node ∷ []) }
    ensures seen { OnOk result (found.new.seen.items ≡ slice_set found.old.seen.items node true) }
{
    found.nodes.push(node)?;
    found.seen[node] = true;
    Ok(())
}

// A node is found, unless it is found already.
fn find_new(graph: &[Items<usize>], found: &mut Found, node: usize) -> Result<(), AllocError>
    requires flagged { IsFlagged graph.now found.old.nodes.items found.old.seen.items }
    requires within { node < length graph.now }
    ensures { OnOk result (Adds graph.now node found.old.nodes.items found.new.nodes.items found.new.seen.items) }
{
    if is_done(found.seen.as_slice(), node) {
        Ok(())
    } else {
        find_node(found, node)
    }
}

// The nodes to which edges lead from one are found.
fn find_all(graph: &[Items<usize>], found: &mut Found, nodes: &[usize]) -> Result<(), AllocError>
    requires flagged { IsFlagged graph.now found.old.nodes.items found.old.seen.items }
    requires within { (c : ℕ) → is_in nodes.now c ≡ true → c < length graph.now }
    ensures { OnOk result (Reaching graph.now nodes.now found.old.nodes.items found.new.nodes.items found.new.seen.items nodes.now) }
{
    for node in nodes {
        find_new(graph, found, *node)?;
    }
    Ok(())
}

// The nodes to which edges lead from one are found.
fn find_edges(graph: &[Items<usize>], found: &mut Found, from: usize) -> Result<(), AllocError>
    requires closed { IsClosed graph.now }
    requires flagged { IsFlagged graph.now found.old.nodes.items found.old.seen.items }
    ensures { OnOk result (Reaches graph.now from found.old.nodes.items found.new.nodes.items found.new.seen.items) }
{
    match at(graph, from) {
        None => Ok(()),
        Some(edges) => find_all(graph, found, edges.as_slice()),
    }
}

// The nodes after those that are found are found, and so on.
fn find_rest(graph: &[Items<usize>], found: &mut Found, node: usize) -> Result<(), AllocError>
    requires closed { IsClosed graph.now }
    requires searching { Searching graph.now node 0 found.old.nodes.items found.old.seen.items }
    ensures { OnOk result (Searching graph.now node (length found.new.nodes.items) found.new.nodes.items found.new.seen.items) }
{
    let mut head = 0;
    while head < found.nodes.len() {
        let next = found.nodes[head];
        find_edges(graph, found, next)?;
        head += 1;
    }
    Ok(())
}

// Whether a node leads to itself. All nodes to which it leads are looked at once.
fn is_on_circle(alloc: Global, graph: &[Items<usize>], node: usize) -> Result<bool, AllocError>
    requires { IsClosed graph.now }
    ensures { IfOk result (λ circle. circle ≡ spec.is_on_circle graph.now node) }
{
    let seen = no_flags(alloc, graph.len())?;
    let mut found = Found {
        nodes: Vec::new(alloc),
        seen,
    };
    find_edges(graph, &mut found, node)?;
    find_rest(graph, &mut found, node)?;
    Ok(is_done(found.seen.as_slice(), node))
}

fn put_flag(flags: &mut Vec<bool>, node: usize)
    ensures { flags.new.items ≡ slice_set flags.old.items node true }
{
    if node < flags.len() {
        flags[node] = true;
    }
}

// Which nodes are in a list.
fn flags_of(alloc: Global, nodes: &[usize], count: usize) -> Result<Vec<bool>, AllocError>
    ensures { IfOk result (λ flags. (c : ℕ) → slice_index_or flags.items c false ≡ true → is_in nodes.now c ≡ true) }
{
    let mut flags = no_flags(alloc, count)?;
    for node in nodes {
        put_flag(&mut flags, *node);
    }
    Ok(flags)
}

// Cyclic at the name of a node, where the node lies on a circle. A node with a place in the order leads to none.
fn circle_at(
    alloc: Global,
    graph: &[Items<usize>],
    ordered: &[bool],
    node: usize,
    at: usize,
) -> Result<Option<TypeFault>, AllocError>
    requires closed { IsClosed graph.now }
    requires ordered { (c : ℕ) → slice_index_or ordered.now c false ≡ true → spec.is_on_circle graph.now c ≡ false }
    ensures { IfOk result (λ found. found ≡ first (told (spec.is_on_circle graph.now node) at TypeKind.Cyclic)) }
{
    if is_done(ordered, node) {
        return Ok(None);
    }
    if is_on_circle(alloc, graph, node)? {
        Ok(Some(TypeFault {
            at,
            kind: TypeKind::Cyclic,
        }))
    } else {
        Ok(None)
    }
}

/// The first of the declared names that lie on a circle, where the graph has one node for each. A
/// graph without circles is passed once; else each node that leads to a circle is looked at by
/// itself.
pub fn cyclic_name(
    alloc: Global,
    graph: &[Items<usize>],
    names: &[&Name],
) -> Result<Option<TypeFault>, AllocError>
    requires { IsClosed graph.now }
    ensures { IfOk result (λ found. found ≡ first (cyclic_names graph.now (map (λ n. n.now) names.now))) }
{
    let nodes = order(alloc, graph)?;
    let ordered = flags_of(alloc, nodes.as_slice(), graph.len())?;
    let mut found = None;
    for (node, name) in names.iter().enumerate() {
        let more = circle_at(alloc, graph, ordered.as_slice(), node, name.at)?;
        found = earlier(found, more);
    }
    Ok(found)
}
