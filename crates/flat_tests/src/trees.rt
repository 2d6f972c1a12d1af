//! Run trees from tables, and the facts that make lists of nodes trees.
ghost use Rattle.std.specs.Prelude.{◌≡◌};
ghost use Rattle.std.specs.List.{list_all};
ghost use Rattle.flat_prog.specs.Nodes as spec;

use flat_prog::{Child, RunNode, RunTree};
use hy_val::{Atom, BitVec, Value, Width};
use sqlite_items::Items;
use src_run::Choice;
use std::alloc::{AllocError, Global};

/// A value or a place, short enough for tables.
#[derive(Clone, Copy)]
pub enum Short {
    /// A bool.
    Bool(bool),
    /// So many bits, as a number.
    Bits(u32, u64),
    /// A target.
    Go(u32),
}

/// A node of a run tree: the flat procedure, the blocks passed, the places of the targets taken, the values
/// taken, and the numbers of the nodes that are its children.
#[derive(Clone, Copy)]
pub struct Row(
    pub u32,
    pub &'static [u32],
    pub &'static [u32],
    pub &'static [Short],
    pub &'static [usize],
);

fn bits_value(width: u32, bits: u64) -> Result<Value, AllocError> {
    let width = Width::try_new(width).ok_or(AllocError)?;
    let bits = BitVec::try_new(width, bits).ok_or(AllocError)?;
    Ok(Value::Atom(Atom::bits(bits)))
}

// The value; a target is none.
fn value_of(short: Short) -> Result<Value, AllocError> {
    match short {
        Short::Bool(value) => Ok(Value::Atom(Atom::bool(value))),
        Short::Bits(width, bits) => bits_value(width, bits),
        Short::Go(_) => Err(AllocError),
    }
}

// Whether a choice is this one.
fn is_choice(choice: &Choice, short: Short) -> Result<bool, AllocError> {
    match (choice, short) {
        (Choice::Go(place), Short::Go(wanted)) => Ok(*place == wanted),
        (Choice::Go(_), _) => Ok(false),
        (Choice::Val(_), Short::Go(_)) => Ok(false),
        (Choice::Val(value), wanted) => Ok(value.same(&value_of(wanted)?)),
    }
}

/// Whether the choices are these, in order.
pub fn are_choices(choices: &[Choice], wanted: &[Short]) -> Result<bool, AllocError> {
    if choices.len() != wanted.len() {
        return Ok(false);
    }
    for (choice, short) in choices.iter().zip(wanted) {
        if !is_choice(choice, *short)? {
            return Ok(false);
        }
    }
    Ok(true)
}

fn values_of(alloc: Global, shorts: &[Short]) -> Result<Items<Value>, AllocError> {
    let mut values = Items::new(alloc);
    for short in shorts {
        values.push(value_of(*short)?)?;
    }
    Ok(values)
}

fn node_of(alloc: Global, row: Row) -> Result<RunNode, AllocError> {
    let Row(proc, path, places, values, numbers) = row;
    let mut children = Items::new(alloc);
    for number in numbers {
        children.push(Child::Node(*number))?;
    }
    Ok(RunNode {
        proc,
        path: Items::from_slice(alloc, path)?,
        places: Items::from_slice(alloc, places)?,
        values: values_of(alloc, values)?,
        children,
    })
}

// Whether it is a node behind this one, below a bound, or free.
fn is_child(number: usize, high: usize, child: &Child) -> bool
    ensures { result ≡ spec.is_child number high child.now }
{
    match child {
        Child::Node(i) => number < *i && *i < high,
        Child::Free { .. } => true,
    }
}

// Whether the children of a node that are nodes stand behind it, below a bound.
fn are_children(number: usize, high: usize, children: &[Child]) -> bool
    ensures { result ≡ list_all (spec.is_child number high) children.now }
{
    for child in children {
        if !is_child(number, high, child) {
            return false;
        }
    }
    true
}

// Whether the same holds of each node.
fn nodes_fit(nodes: &[RunNode], high: usize) -> bool
    ensures { result ≡ spec.nodes_fit 0 high nodes.now }
{
    for (number, node) in nodes.iter().enumerate() {
        if !are_children(number, high, node.children.as_slice()) {
            return false;
        }
    }
    true
}

// Whether no child is free.
fn is_whole(children: &[Child]) -> bool
    ensures { result ≡ list_all spec.is_node_child children.now }
{
    for child in children {
        match child {
            Child::Node(_) => {}
            Child::Free { .. } => return false,
        }
    }
    true
}

// Whether no child of any node is free.
fn are_whole(nodes: &[RunNode]) -> bool
    ensures { result ≡ spec.are_whole_nodes nodes.now }
{
    for node in nodes {
        if !is_whole(node.children.as_slice()) {
            return false;
        }
    }
    true
}

/// The run tree of these nodes. An error comes where they are none.
pub fn tree_of(nodes: Items<RunNode>) -> Result<RunTree, AllocError> {
    let high = nodes.len();
    if !nodes.is_empty() && nodes_fit(nodes.as_slice(), high) && are_whole(nodes.as_slice()) {
        Ok(RunTree::new(nodes))
    } else {
        Err(AllocError)
    }
}

/// The run tree of the nodes of a table.
pub fn tree(alloc: Global, rows: &[Row]) -> Result<RunTree, AllocError> {
    let mut nodes = Items::new(alloc);
    for row in rows {
        nodes.push(node_of(alloc, *row)?)?;
    }
    tree_of(nodes)
}
