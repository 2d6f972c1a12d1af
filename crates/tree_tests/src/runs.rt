//! What a run tree reaches.
ghost use Rattle.std.specs.Prelude.{◌≡◌, [], ◌∷◌, IfOk};
ghost use Rattle.tree_tests.specs.Runs.{node_of, calling_nodes};

use crate::codes::path_of;
use crate::programs::wide_program;
use call_tree::{child_at, reaches};
use flat_prog::{Child, Flat, RunNode, RunTree};
use sqlite_items::Items;
use std::alloc::{AllocError, Global};
use std::process::Abort;
use std::test::Fail;

// A run of a procedure through its one block.
fn node(alloc: Global, proc: u32, children: Items<Child>) -> Result<RunNode, AllocError>
    ensures { IfOk result (λ n. n ≡ node_of proc children) }
{
    Ok(RunNode {
        proc,
        path: Items::from_slice(alloc, &[0])?,
        places: Items::new(alloc),
        values: Items::new(alloc),
        children,
    })
}

fn calling_list(alloc: Global) -> Result<Items<RunNode>, AllocError>
    ensures { IfOk result (λ nodes. nodes ≡ calling_nodes) }
{
    let mut children = Items::new(alloc);
    children.push(Child::Node(1))?;
    let none = Items::new(alloc);
    let mut nodes = Items::new(alloc);
    nodes.push(node(alloc, 2, children)?)?;
    nodes.push(node(alloc, 3, none)?)?;
    Ok(nodes)
}

// The run of a procedure that calls another one.
fn calling(alloc: Global) -> Result<RunTree, AllocError>
    ensures { IfOk result (λ r. r ≡ calling_nodes) }
{
    let nodes = calling_list(alloc)?;
    Ok(RunTree::new(nodes))
}

// Whether this run reaches the path of a number.
fn reached(alloc: Global, code: u64) -> Result<bool, AllocError> {
    let flat = wide_program(alloc, 1, 1)?;
    let found = calling(alloc)?;
    let path = path_of(alloc, code)?;
    Ok(reaches(&flat, &found, &path))
}

#[test]
fn runs_reach_their_nodes(rt: HostRuntime) -> Result<(), Fail> {
    for (code, wanted) in [(1, true), (10, true), (11, false), (100, false)] {
        assert!(rt; reached(rt.alloc(), code)? == wanted);
    }
    Ok(())
}

// The child at a site, where this run's root passes its block or nothing.
fn child(alloc: Global, passes: bool, site: u32) -> Result<Option<usize>, AllocError> {
    let flat = wide_program(alloc, 1, 1)?;
    let found = calling(alloc)?;
    let Some(q) = flat.procs().get(2) else {
        return Ok(None);
    };
    let Some(root) = found.nodes().first() else {
        return Ok(None);
    };
    let path: &[u32] = if passes { root.path.as_slice() } else { &[] };
    Ok(child_at(q.blocks.as_slice(), path, root.children.as_slice(), site))
}

#[test]
fn children_stand_at_sites(rt: HostRuntime) -> Result<(), Fail> {
    for (passes, site, wanted) in [(true, 0, Some(1)), (true, 1, None), (false, 0, None)] {
        assert!(rt; child(rt.alloc(), passes, site)? == wanted);
    }
    Ok(())
}
