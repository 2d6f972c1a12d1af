//! An order of the nodes of a graph in which all edges lead to earlier nodes.
//!
//! A node waits at the first of its edges that leads to a node without a place. When that one gets its place, those that wait for it
//! go on from that edge, so that each edge is passed once.

ghost use Rattle.std.specs.Prelude.{◌≡◌, ◌≤◌, ◌<◌, ◌++◌, [], ◌∷◌, true, false, length, take, replicate, slice_set, slice_index_or, IfOk, OnOk};
ghost use Rattle.std.specs.List.{list_all};
ghost use Rattle.type_pass.specs.Orders.{IsOrder, IsSorting, Grows, AreStuck, IsStuck};

use sqlite_items::{Items, at};
use std::alloc::{AllocError, Global};
use std::mem;

// The nodes with a place, in their order; which these are; how many edges of each node are passed; and which nodes may go on once a node
// gets its place.
#[derive(Drop)]
struct Sorting {
    order: Vec<usize>,
    done: Vec<bool>,
    next: Vec<usize>,
    waiting: Vec<Vec<usize>>,
}

// No node has a place yet.
fn unsorted(alloc: Global, nodes: usize) -> Result<Sorting, AllocError>
    ensures order { IfOk result (λ s. s.order.items ≡ []) }
    ensures done { IfOk result (λ s. s.done.items ≡ replicate nodes false) }
    ensures next { IfOk result (λ s. s.next.items ≡ replicate nodes 0) }
{
    let mut waiting = Vec::new(alloc);
    for _ in 0..nodes {
        waiting.push(Vec::new(alloc))?;
    }
    let done = vec![in alloc; false; nodes]?;
    let next = vec![in alloc; 0; nodes]?;
    Ok(Sorting {
        order: Vec::new(alloc),
        done,
        next,
        waiting,
    })
}

/// So many flags, all down.
pub fn no_flags(alloc: Global, count: usize) -> Result<Vec<bool>, AllocError>
    ensures { IfOk result (λ flags. flags.items ≡ replicate count false) }
{
    vec![in alloc; false; count]
}

/// Whether a node has its flag.
pub fn is_done(done: &[bool], node: usize) -> bool
    ensures { result ≡ slice_index_or done.now node false }
{
    match done.get(node) {
        None => false,
        Some(flag) => *flag,
    }
}

fn passed(next: &[usize], node: usize) -> usize
    ensures { result ≡ slice_index_or next.now node 0 }
{
    match next.get(node) {
        None => 0,
        Some(edge) => *edge,
    }
}

// The first edge from one on that leads to a node without a place, or the number of edges.
fn first_open(edges: &[usize], done: &[bool], from: usize) -> usize
    requires { from ≤ length edges.now }
    ensures within { result ≤ length edges.now }
    ensures passed { list_all (λ c. slice_index_or done.now c false) (take from edges.now) ≡ true → list_all (λ c. slice_index_or done.now c false) (take result edges.now) ≡ true }
    ensures stops { result < length edges.now → slice_index_or done.now (slice_index_or edges.now result 0) false ≡ false }
{
    for edge in from..edges.len() {
        if !is_done(done, edges[edge]) {
            return edge;
        }
    }
    edges.len()
}

// A node gets the next place.
fn place(sorting: &mut Sorting, node: usize) -> Result<(), AllocError>
    requires { node < length sorting.old.done.items }
    ensures order { OnOk result (sorting.new.order.items ≡ sorting.old.order.items ++ node ∷ []) }
    ensures done { OnOk result (sorting.new.done.items ≡ slice_set sorting.old.done.items node true) }
    ensures next { OnOk result (sorting.new.next.items ≡ sorting.old.next.items) }
{
    sorting.order.push(node)?;
    sorting.done[node] = true;
    Ok(())
}

// A node is to be tried again once another one gets its place.
fn wait(waiting: &mut [Vec<usize>], other: usize, node: usize) -> Result<(), AllocError> {
    if let Some(nodes) = waiting.get_mut(other) {
        nodes.push(node)?;
    }
    Ok(())
}

// The nodes that wait for one, which wait no longer.
fn woken(alloc: Global, waiting: &mut [Vec<usize>], node: usize) -> Vec<usize> {
    match waiting.get_mut(node) {
        None => Vec::new(alloc),
        Some(nodes) => mem::replace(nodes, Vec::new(alloc)),
    }
}

// A node waits at one of its edges.
fn halt(sorting: &mut Sorting, node: usize, edge: usize, other: usize) -> Result<(), AllocError>
    requires { node < length sorting.old.next.items }
    ensures order { OnOk result (sorting.new.order.items ≡ sorting.old.order.items) }
    ensures done { OnOk result (sorting.new.done.items ≡ sorting.old.done.items) }
    ensures next { OnOk result (sorting.new.next.items ≡ slice_set sorting.old.next.items node edge) }
{
    sorting.next[node] = edge;
    wait(sorting.waiting.as_mut_slice(), other, node)
}

// A node without a place gets one, or waits at an edge to a node without one.
fn try_node(graph: &[Items<usize>], sorting: &mut Sorting, node: usize) -> Result<(), AllocError>
    requires { IsSorting graph.now sorting.old.order.items sorting.old.done.items sorting.old.next.items }
    ensures grows { OnOk result (Grows graph.now sorting.old.order.items sorting.new.order.items sorting.new.done.items sorting.new.next.items) }
    ensures stuck { OnOk result (IsStuck graph.now node sorting.old.order.items sorting.new.order.items) }
{
    let Some(edges) = at(graph, node) else {
        return Ok(());
    };
    if is_done(sorting.done.as_slice(), node) {
        return Ok(());
    }
    let edges = edges.as_slice();
    let from = passed(sorting.next.as_slice(), node);
    let edge = first_open(edges, sorting.done.as_slice(), from);
    if edge < edges.len() {
        halt(sorting, node, edge, edges[edge])
    } else {
        place(sorting, node)
    }
}

// Each node without a place is tried once.
fn try_all(graph: &[Items<usize>], sorting: &mut Sorting) -> Result<(), AllocError>
    requires { IsSorting graph.now sorting.old.order.items sorting.old.done.items sorting.old.next.items }
    ensures grows { OnOk result (Grows graph.now sorting.old.order.items sorting.new.order.items sorting.new.done.items sorting.new.next.items) }
    ensures stuck { OnOk result (AreStuck graph.now (length graph.now) sorting.old.order.items sorting.new.order.items) }
{
    for node in 0..graph.len() {
        try_node(graph, sorting, node)?;
    }
    Ok(())
}

// These nodes are tried again.
fn try_these(
    graph: &[Items<usize>],
    sorting: &mut Sorting,
    nodes: &[usize],
) -> Result<(), AllocError>
    requires { IsSorting graph.now sorting.old.order.items sorting.old.done.items sorting.old.next.items }
    ensures { OnOk result (Grows graph.now sorting.old.order.items sorting.new.order.items sorting.new.done.items sorting.new.next.items) }
{
    for node in nodes {
        try_node(graph, sorting, *node)?;
    }
    Ok(())
}

// The nodes that wait for one with a place are tried again, and those that wait for these.
fn try_waiting(
    alloc: Global,
    graph: &[Items<usize>],
    sorting: &mut Sorting,
) -> Result<(), AllocError>
    requires { IsSorting graph.now sorting.old.order.items sorting.old.done.items sorting.old.next.items }
    ensures { OnOk result (Grows graph.now sorting.old.order.items sorting.new.order.items sorting.new.done.items sorting.new.next.items) }
{
    let mut head = 0;
    while head < sorting.order.len() {
        let node = sorting.order[head];
        let nodes = woken(alloc, sorting.waiting.as_mut_slice(), node);
        try_these(graph, sorting, nodes.as_slice())?;
        head += 1;
    }
    Ok(())
}

/// An order of those nodes of a graph that lead to no circle: each stands after all to which its
/// edges lead. All nodes are tried twice, and each edge is passed once.
pub fn order(alloc: Global, graph: &[Items<usize>]) -> Result<Vec<usize>, AllocError>
    ensures { IfOk result (λ nodes. IsOrder graph.now nodes.items) }
{
    let mut sorting = unsorted(alloc, graph.len())?;
    'rounds: loop {
        let before = sorting.order.len();
        try_all(graph, &mut sorting)?;
        if sorting.order.len() == before {
            break 'rounds;
        }
        try_waiting(alloc, graph, &mut sorting)?;
    }
    let Sorting {
        order,
        done: _,
        next: _,
        waiting: _,
    } = sorting;
    Ok(order)
}
