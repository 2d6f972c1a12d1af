//! Copies of the nodes of run trees.
ghost use Rattle.std.specs.Prelude.{◌≡◌, IfOk};

use crate::run::{Child, RunNode};
use hy_val::Value;
use sqlite_items::Items;
use std::alloc::{AllocError, Global};

fn copy_values(alloc: Global, values: &[Value]) -> Result<Items<Value>, AllocError>
    ensures { IfOk result (λ vs. vs ≡ values.now) }
{
    let mut copies = Items::new(alloc);
    for value in values {
        copies.push(value.copy(alloc)?)?;
    }
    Ok(copies)
}

fn copy_child(alloc: Global, child: &Child) -> Result<Child, AllocError>
    ensures { IfOk result (λ c. c ≡ child.now) }
{
    match child {
        Child::Node(number) => Ok(Child::Node(*number)),
        Child::Free { ends, values } => {
            let values = copy_values(alloc, values.as_slice())?;
            Ok(Child::Free {
                ends: *ends,
                values,
            })
        }
    }
}

fn copy_children(alloc: Global, children: &[Child]) -> Result<Items<Child>, AllocError>
    ensures { IfOk result (λ cs. cs ≡ children.now) }
{
    let mut copies = Items::new(alloc);
    for child in children {
        copies.push(copy_child(alloc, child)?)?;
    }
    Ok(copies)
}

fn copy_node(alloc: Global, node: &RunNode) -> Result<RunNode, AllocError>
    ensures { IfOk result (λ n. n ≡ node.now) }
{
    let path = Items::from_slice(alloc, node.path.as_slice())?;
    let places = Items::from_slice(alloc, node.places.as_slice())?;
    let values = copy_values(alloc, node.values.as_slice())?;
    let children = copy_children(alloc, node.children.as_slice())?;
    Ok(RunNode {
        proc: node.proc,
        path,
        places,
        values,
        children,
    })
}

// The same nodes again.
pub(crate) fn copy_nodes(alloc: Global, nodes: &[RunNode]) -> Result<Items<RunNode>, AllocError>
    ensures { IfOk result (λ ns. ns ≡ nodes.now) }
{
    let mut copies = Items::new(alloc);
    for node in nodes {
        copies.push(copy_node(alloc, node)?)?;
    }
    Ok(copies)
}
