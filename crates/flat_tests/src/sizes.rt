//! Programs at size: many loops in a row, loops nested deep, a long chain of procedures, and a long run tree.

ghost use Rattle.std.specs.Prelude.{slice_get, IsSome};

use crate::programs::program;
use crate::trees::tree_of;
use flat_prog::{Child, RunNode, RunTree};
use hy_val::{Atom, BitVec, Value, Width};
use loop_extract::extract;
use sqlite_items::{Items, at};
use src_prog::Prog;
use src_run::{Choice, Status, replay};
use std::alloc::{AllocError, Global};
use std::test::Fail;
use trace_build::choices;

// So many times the same words.
fn push_times(text: &mut Vec<u8>, words: &[u8], times: u32) -> Result<(), AllocError> {
    for _time in 0..times {
        text.extend_from_slice(words)?;
    }
    Ok(())
}

// Loops in a row.
fn row_of_loops(alloc: Global, count: u32) -> Result<Vec<u8>, AllocError> {
    let mut text = Vec::from_slice(alloc, b"procedure main() { ".as_slice())?;
    push_times(&mut text, b"while (*) { } ".as_slice(), count)?;
    text.extend_from_slice(b"}".as_slice())?;
    Ok(text)
}

// Loops, each in the one before.
fn nest_of_loops(alloc: Global, depth: u32) -> Result<Vec<u8>, AllocError> {
    let mut text = Vec::from_slice(alloc, b"procedure main() { ".as_slice())?;
    push_times(&mut text, b"while (*) { ".as_slice(), depth)?;
    push_times(&mut text, b"} ".as_slice(), depth)?;
    text.extend_from_slice(b"}".as_slice())?;
    Ok(text)
}

// Procedures, each of which calls the next one; the last one fails.
fn chain_of_procs(alloc: Global, count: u32) -> Result<Vec<u8>, AllocError> {
    let mut text = Vec::new(alloc);
    for number in 1..count {
        let unit = format!(in alloc;
            "procedure p{number}() {{ var x: bv8; goto A, A; A: call p{}(); }}\n",
            number.wrapping_add(1)
        )?;
        text.extend_from_slice(unit.as_bytes())?;
    }
    let last = format!(in alloc;
        "procedure p{count}() {{ var x: bv8; goto A, A; A: assert false; }}\n"
    )?;
    text.extend_from_slice(last.as_bytes())?;
    Ok(text)
}

// The flat procedures of a text, and their blocks.
fn counts(alloc: Global, text: &[u8]) -> Result<(usize, usize), AllocError> {
    let prog = program(alloc, text)?;
    let extracted = extract(alloc, &prog)?;
    let procs = extracted.flat.procs();
    let mut blocks: usize = 0;
    for proc in procs {
        blocks = blocks.saturating_add(proc.blocks.len());
    }
    Ok((procs.len(), blocks))
}

// In the procedure stand its first block, and for each loop a head, the block that it is left to and the one between;
// a loop has a head, a body, an exit and a further turn.
#[test]
fn loops_in_a_row_are_extracted(rt: HostRuntime) -> Result<(), Fail> {
    let alloc = rt.alloc();
    for (count, procs, blocks) in [(1, 2, 8), (10, 11, 71), (2000, 2001, 14_001)] {
        let text = row_of_loops(alloc, count)?;
        assert_eq!(rt; counts(alloc, text.as_slice())?, (procs, blocks));
    }
    Ok(())
}

// The procedure has four blocks, the innermost loop too; each other one has its head and body, the inner head and
// exit, the block behind that exit, its own exit and a further turn.
#[test]
fn loops_in_loops_are_extracted(rt: HostRuntime) -> Result<(), Fail> {
    let alloc = rt.alloc();
    for (depth, procs, blocks) in [(1, 2, 8), (2, 3, 15), (20, 21, 141)] {
        let text = nest_of_loops(alloc, depth)?;
        assert_eq!(rt; counts(alloc, text.as_slice())?, (procs, blocks));
    }
    Ok(())
}

#[test]
fn chains_of_procedures_are_extracted(rt: HostRuntime) -> Result<(), Fail> {
    let alloc = rt.alloc();
    let text = chain_of_procs(alloc, 2000)?;
    assert_eq!(rt; counts(alloc, text.as_slice())?, (2000, 4000));
    Ok(())
}

// The run of a procedure of the chain, whose local is 5, by the second place of its goto.
fn link(alloc: Global, number: u32, children: Items<Child>) -> Result<RunNode, AllocError> {
    let mut values = Items::new(alloc);
    values.push(Value::Atom(Atom::bits(BitVec::new(Width::new(8), 5))))?;
    Ok(RunNode {
        proc: number,
        path: Items::from_slice(alloc, &[0, 1])?,
        places: Items::from_slice(alloc, &[1])?,
        values,
        children,
    })
}

// The failing run of the chain.
fn chain(alloc: Global, count: u32) -> Result<RunTree, AllocError> {
    let mut nodes = Items::new(alloc);
    for number in 1..count {
        let mut children = Items::new(alloc);
        children.push(Child::Node(number as usize))?;
        nodes.push(link(alloc, number.wrapping_sub(1), children)?)?;
    }
    let none = Items::new(alloc);
    nodes.push(link(alloc, count.wrapping_sub(1), none)?)?;
    tree_of(nodes)
}

// How many choices the failing run of the chain stands for, and how the machine is over on them.
fn chain_replayed(alloc: Global, count: u32) -> Result<(usize, Status), AllocError> {
    let text = chain_of_procs(alloc, count)?;
    let prog = program(alloc, text.as_slice())?;
    let found = match at(prog.procs(), 0) {
        Some(_) => chain_choices(alloc, &prog, count)?,
        None => return Err(AllocError),
    };
    if prog.procs().is_empty() {
        return Err(AllocError);
    }
    let status = replay(alloc, &prog, 0, 1, found.as_slice())?;
    Ok((found.len(), status))
}

// The choices of the failing run of the chain.
fn chain_choices(alloc: Global, prog: &Prog, count: u32) -> Result<Items<Choice>, AllocError>
    requires { IsSome (slice_get prog.now.procs 0) }
{
    let extracted = extract(alloc, prog)?;
    let run = chain(alloc, count)?;
    choices(alloc, prog, &extracted.flat, 0, &run)
}

// Each node has a value and a place.
#[test]
fn a_long_tree_is_replayed(rt: HostRuntime) -> Result<(), Fail> {
    for (count, length, proc) in [(1, 2, 0), (20, 40, 19), (2000, 4000, 1999)] {
        let found = chain_replayed(rt.alloc(), count)?;
        let failed = Status::Failed { proc, assert: 1 };
        assert_eq!(rt; found.0, length);
        assert_eq!(rt; found.1, failed);
    }
    Ok(())
}
