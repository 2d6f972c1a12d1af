//! The choices of run trees, what the machine says of them, and the caps on the trees.

ghost use Rattle.std.specs.Prelude.{slice_get, IsSome};

use crate::programs::program;
use crate::tables::{CASES, Case};
use crate::trees::{are_choices, tree};
use call_tree::may_follow;
use flat_prog::{Child, Flat, RunNode};
use loop_extract::extract;
use sqlite_items::{Items, at};
use src_prog::Prog;
use src_run::{Choice, Status, replay};
use std::alloc::{AllocError, Global};
use std::test::Fail;
use trace_build::choices;

// The choices of the tree of a case.
fn listed(alloc: Global, case: Case) -> Result<Items<Choice>, AllocError> {
    let prog = program(alloc, case.text)?;
    match at(prog.procs(), case.entry as usize) {
        Some(_) => way_back(alloc, &prog, case),
        None => Err(AllocError),
    }
}

// The same of the program of a case.
fn way_back(alloc: Global, prog: &Prog, case: Case) -> Result<Items<Choice>, AllocError>
    requires { IsSome (slice_get prog.now.procs case.entry) }
{
    let extracted = extract(alloc, prog)?;
    let found = tree(alloc, case.rows)?;
    choices(alloc, prog, &extracted.flat, case.entry, &found)
}

// The status of the machine on choices, for the program, the entry and the bound of a case.
fn replayed(alloc: Global, case: Case, given: &[Choice]) -> Result<Status, AllocError> {
    let prog = program(alloc, case.text)?;
    if case.entry as usize >= prog.procs().len() {
        return Err(AllocError);
    }
    replay(alloc, &prog, case.entry, case.bound, given)
}

#[test]
fn trees_stand_for_choices(rt: HostRuntime) -> Result<(), Fail> {
    for (number, case) in CASES.iter().enumerate() {
        let found = listed(rt.alloc(), *case)?;
        assert!(rt;
            are_choices(found.as_slice(), case.choices)?,
            "case {number}"
        );
    }
    Ok(())
}

#[test]
fn the_machine_does_as_the_tree(rt: HostRuntime) -> Result<(), Fail> {
    for (number, case) in CASES.iter().enumerate() {
        let found = listed(rt.alloc(), *case)?;
        let status = replayed(rt.alloc(), *case, found.as_slice())?;
        assert_eq!(rt; status, case.status, "case {number}");
    }
    Ok(())
}

// The number of the node above one, where there is one.
fn above(nodes: &[RunNode], number: usize) -> Option<usize> {
    for (upper, node) in nodes.iter().enumerate() {
        for child in node.children.as_slice() {
            if matches!(child, Child::Node(lower) if *lower == number) {
                return Some(upper);
            }
        }
    }
    None
}

// The procedures of the nodes above one, that of the root first.
fn way_to(alloc: Global, nodes: &[RunNode], number: usize) -> Result<Vec<u32>, AllocError> {
    let mut way = Vec::new(alloc);
    let mut lower = number;
    for _node in nodes {
        let Some(upper) = above(nodes, lower) else {
            break;
        };
        if let Some(node) = nodes.get(upper) {
            way.push(node.proc)?;
        }
        lower = upper;
    }
    way.reverse();
    Ok(way)
}

// Whether each node may follow those above it.
fn is_within(
    alloc: Global,
    flat: &Flat,
    bound: u32,
    nodes: &[RunNode],
) -> Result<bool, AllocError> {
    for (number, node) in nodes.iter().enumerate() {
        let way = way_to(alloc, nodes, number)?;
        if !may_follow(flat, bound, way.as_slice(), node.proc) {
            return Ok(false);
        }
    }
    Ok(true)
}

// Whether the tree of a case is within the caps of a bound.
fn is_case_within(alloc: Global, case: Case, bound: u32) -> Result<bool, AllocError> {
    let prog = program(alloc, case.text)?;
    let extracted = extract(alloc, &prog)?;
    let found = tree(alloc, case.rows)?;
    is_within(alloc, &extracted.flat, bound, found.nodes())
}

#[test]
fn trees_are_within_the_caps_from_a_bound_on(rt: HostRuntime) -> Result<(), Fail> {
    for (number, case) in CASES.iter().enumerate() {
        for bound in 1..5 {
            let within = is_case_within(rt.alloc(), *case, bound)?;
            assert_eq!(rt; within, bound >= case.bound, "case {number}, bound {bound}");
        }
    }
    Ok(())
}
