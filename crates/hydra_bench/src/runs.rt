//! A failing run tree of loops in a row.
ghost use Rattle.std.specs.Prelude.{◌≡◌};
ghost use Rattle.std.specs.List.{list_all};
ghost use Rattle.flat_prog.specs.Nodes as spec;

use flat_prog::{Child, RunNode, RunTree};
use hy_val::{Atom, BitVec, Value, Width};
use sqlite_items::Items;
use std::alloc::{AllocError, Global};

// Whether it is a node behind this one, below a bound, or free.
fn is_child(number: usize, high: usize, child: &Child) -> bool
    ensures { result ≡ spec.is_child number high child.now }
{
    match child {
        Child::Node(i) => number < *i && *i < high,
        Child::Free { .. } => true,
    }
}

// Whether the children of a node that are nodes stand behind it, below a bound.
fn are_children(number: usize, high: usize, children: &[Child]) -> bool
    ensures { result ≡ list_all (spec.is_child number high) children.now }
{
    for child in children {
        if !is_child(number, high, child) {
            return false;
        }
    }
    true
}

// Whether the same holds of each node.
fn nodes_fit(nodes: &[RunNode], high: usize) -> bool
    ensures { result ≡ spec.nodes_fit 0 high nodes.now }
{
    for (number, node) in nodes.iter().enumerate() {
        if !are_children(number, high, node.children.as_slice()) {
            return false;
        }
    }
    true
}

// Whether no child is free.
fn is_whole(children: &[Child]) -> bool
    ensures { result ≡ list_all spec.is_node_child children.now }
{
    for child in children {
        match child {
            Child::Node(_) => {}
            Child::Free { .. } => return false,
        }
    }
    true
}

// Whether no child of any node is free.
fn are_whole(nodes: &[RunNode]) -> bool
    ensures { result ≡ spec.are_whole_nodes nodes.now }
{
    for node in nodes {
        if !is_whole(node.children.as_slice()) {
            return false;
        }
    }
    true
}

// The run tree of these nodes. An error comes where they are none.
fn tree_of(nodes: Items<RunNode>) -> Result<RunTree, AllocError> {
    let high = nodes.len();
    if !nodes.is_empty() && nodes_fit(nodes.as_slice(), high) && are_whole(nodes.as_slice()) {
        Ok(RunTree::new(nodes))
    } else {
        Err(AllocError)
    }
}

// The number as a value of so many bits.
fn bits(width: u32, bits: u64) -> Result<Value, AllocError> {
    let width = Width::try_new(width).ok_or(AllocError)?;
    let bits = BitVec::try_new(width, bits).ok_or(AllocError)?;
    Ok(Value::Atom(Atom::bits(bits)))
}

// The run of the procedure: its first block, and for each loop the call, the block behind the loop's exit, and the block
// that the exit leads to. It takes a value for its variable and one for the exit number.
fn root(alloc: Global, loops: u32) -> Result<RunNode, AllocError> {
    let mut path = Items::new(alloc);
    let mut places = Items::new(alloc);
    let mut children = Items::new(alloc);
    path.push(0)?;
    let kept = loops.saturating_mul(2).saturating_add(1);
    for number in 0..loops {
        let head = number.saturating_mul(2).saturating_add(1);
        for block in [head, kept.saturating_add(number), head.saturating_add(1)] {
            path.push(block)?;
            places.push(0)?;
        }
        children.push(Child::Node(head as usize))?;
    }
    let mut values = Items::new(alloc);
    values.push(bits(8, 5)?)?;
    values.push(bits(32, 0)?)?;
    Ok(RunNode {
        proc: 0,
        path,
        places,
        values,
        children,
    })
}

// A turn of the loop's procedure of this number, before the node of that number.
fn turned(alloc: Global, proc: u32, child: u32) -> Result<RunNode, AllocError> {
    let mut values = Items::new(alloc);
    values.push(bits(8, 3)?)?;
    let mut children = Items::new(alloc);
    children.push(Child::Node(child as usize))?;
    Ok(RunNode {
        proc,
        path: Items::from_slice(alloc, &[0, 1, 3])?,
        places: Items::from_slice(alloc, &[0, 0])?,
        values,
        children,
    })
}

// The loop's procedure of this number is left at once.
fn left(alloc: Global, proc: u32) -> Result<RunNode, AllocError> {
    Ok(RunNode {
        proc,
        path: Items::from_slice(alloc, &[0, 2])?,
        places: Items::from_slice(alloc, &[1])?,
        values: Items::new(alloc),
        children: Items::new(alloc),
    })
}

/// The run tree of a procedure of so many loops in a row, each of which is turned once and then left; then the procedure
/// fails.
pub fn failing(alloc: Global, loops: u32) -> Result<RunTree, AllocError> {
    let mut nodes = Items::new(alloc);
    nodes.push(root(alloc, loops)?)?;
    for number in 0..loops {
        let proc = number.saturating_add(1);
        nodes.push(turned(alloc, proc, proc.saturating_mul(2))?)?;
        nodes.push(left(alloc, proc)?)?;
    }
    tree_of(nodes)
}
