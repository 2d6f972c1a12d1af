//! How a run tree is over, by the meaning of flat programs alone: each node passes its path on the values and the
//! runs below it. An error comes where the nodes are no run.

use crate::frames::{Frame, assign, called, first, havoc, holds, write};
use crate::programs::program;
use crate::tables::{CASES, Case};
use crate::trees::tree;
use flat_prog::{Flat, FlatBlock, FlatCmd, FlatNext, FlatProc, RunNode};
use hy_val::Var;
use loop_extract::extract;
use src_run::Status;
use std::alloc::{AllocError, Global};
use std::test::Fail;

// Turns that a run may take.
const TURNS: u32 = 10_000;

// Whether the run of a node stands in its last block, and has taken all its values and passed all its children.
fn is_last(nodes: &[RunNode], frame: &Frame) -> bool {
    match nodes.get(frame.node) {
        Some(node) => {
            frame.step.saturating_add(1) == node.path.len()
                && frame.value == node.values.len()
                && frame.child == node.children.len()
        }
        None => false,
    }
}

// The run fails, and with it those that called it.
fn failed(
    nodes: &[RunNode],
    frames: &[Frame],
    proc: u32,
    assert: u32,
) -> Result<Option<Status>, AllocError> {
    for frame in frames {
        if !is_last(nodes, frame) {
            return Err(AllocError);
        }
    }
    Ok(Some(Status::Failed { proc, assert }))
}

// The targets of the call that a run stands behind.
fn targets<'a>(flat: &'a Flat, nodes: &[RunNode], frame: &Frame) -> Result<&'a [Var], AllocError> {
    let Some(node) = nodes.get(frame.node) else {
        return Err(AllocError);
    };
    let block = block_at(flat, node, frame.step)?;
    match block.cmds.get(frame.cmd.wrapping_sub(1)) {
        Some(FlatCmd::Call { outs, .. }) => Ok(outs.as_slice()),
        _ => Err(AllocError),
    }
}

// The caller goes on with the globals and the outs of the callee.
fn come_back(
    alloc: Global,
    flat: &Flat,
    nodes: &[RunNode],
    caller: &mut Frame,
    callee: Frame,
    proc: &FlatProc,
) -> Result<(), AllocError> {
    let Frame { env, .. } = callee;
    caller.env.globals = env.globals;
    let found = targets(flat, nodes, caller)?;
    for (number, var) in found.iter().enumerate() {
        let place = proc.ins.len().saturating_add(number);
        let Some(value) = env.locals.get(place) else {
            return Err(AllocError);
        };
        write(&mut caller.env, *var, value.copy(alloc)?)?;
    }
    Ok(())
}

// The block at a place of a node's path.
fn block_at<'a>(flat: &'a Flat, node: &RunNode, step: usize) -> Result<&'a FlatBlock, AllocError> {
    let Some(proc) = flat.procs().get(node.proc as usize) else {
        return Err(AllocError);
    };
    let Some(number) = node.path.get(step) else {
        return Err(AllocError);
    };
    match proc.blocks.get(*number as usize) {
        Some(block) => Ok(block),
        None => Err(AllocError),
    }
}

// Passes a command; the frame goes back onto the others where it holds.
fn pass(
    alloc: Global,
    flat: &Flat,
    nodes: &[RunNode],
    frames: &mut Vec<Frame>,
    mut frame: Frame,
    node: &RunNode,
    cmd: &FlatCmd,
) -> Result<Option<Status>, AllocError> {
    frame.cmd = frame.cmd.saturating_add(1);
    let mut callee = None;
    match cmd {
        FlatCmd::Assign(pairs) => assign(alloc, &mut frame.env, pairs.as_slice())?,
        FlatCmd::Havoc(vars) => havoc(alloc, node, &mut frame, vars.as_slice())?,
        FlatCmd::Assume(expr) => {
            if !holds(alloc, &frame.env, expr)? {
                return Err(AllocError);
            }
        }
        FlatCmd::Assert { proc, number, expr } => {
            if !holds(alloc, &frame.env, expr)? {
                frames.push(frame)?;
                return failed(nodes, frames.as_slice(), *proc, *number);
            }
        }
        FlatCmd::Call { proc, args, .. } => {
            let run = called(alloc, flat, nodes, node, &mut frame, *proc, args.as_slice())?;
            callee = Some(run);
        }
    }
    frames.push(frame)?;
    if let Some(run) = callee {
        frames.push(run)?;
    }
    Ok(None)
}

// Passes the end of a block: by the place that the node says to the next block of its path, or back.
fn pass_end(
    alloc: Global,
    flat: &Flat,
    nodes: &[RunNode],
    frames: &mut Vec<Frame>,
    mut frame: Frame,
    node: &RunNode,
    next: &FlatNext,
) -> Result<Option<Status>, AllocError> {
    match next {
        FlatNext::Goto(targets) => {
            let Some(place) = node.places.get(frame.step) else {
                return Err(AllocError);
            };
            frame.step = frame.step.saturating_add(1);
            frame.cmd = 0;
            let (Some(to), Some(block)) = (targets.get(*place as usize), node.path.get(frame.step))
            else {
                return Err(AllocError);
            };
            if to != block {
                return Err(AllocError);
            }
            frames.push(frame)?;
            Ok(None)
        }
        FlatNext::Return => returned(alloc, flat, nodes, frames, frame, node),
    }
}

fn returned(
    alloc: Global,
    flat: &Flat,
    nodes: &[RunNode],
    frames: &mut Vec<Frame>,
    frame: Frame,
    node: &RunNode,
) -> Result<Option<Status>, AllocError> {
    let Some(proc) = flat.procs().get(node.proc as usize) else {
        return Err(AllocError);
    };
    if !is_last(nodes, &frame) {
        return Err(AllocError);
    }
    match frames.pop() {
        None => Ok(Some(Status::Ended)),
        Some(mut caller) => {
            come_back(alloc, flat, nodes, &mut caller, frame, proc)?;
            frames.push(caller)?;
            Ok(None)
        }
    }
}

fn advance(
    alloc: Global,
    flat: &Flat,
    nodes: &[RunNode],
    frames: &mut Vec<Frame>,
) -> Result<Option<Status>, AllocError> {
    let Some(frame) = frames.pop() else {
        return Err(AllocError);
    };
    let Some(node) = nodes.get(frame.node) else {
        return Err(AllocError);
    };
    let block = block_at(flat, node, frame.step)?;
    match block.cmds.get(frame.cmd) {
        Some(cmd) => pass(alloc, flat, nodes, frames, frame, node, cmd),
        None => pass_end(alloc, flat, nodes, frames, frame, node, &block.next),
    }
}

// How the run of an entry that these nodes are is over: it ends, or this assert of this source procedure fails.
fn outcome(
    alloc: Global,
    flat: &Flat,
    entry: u32,
    nodes: &[RunNode],
) -> Result<Status, AllocError> {
    let mut frames = Vec::new(alloc);
    frames.push(first(alloc, flat, nodes, entry)?)?;
    for _turn in 0..TURNS {
        if let Some(status) = advance(alloc, flat, nodes, &mut frames)? {
            return Ok(status);
        }
    }
    Err(AllocError)
}

// The same of the tree of a case.
fn case_outcome(alloc: Global, case: Case) -> Result<Status, AllocError> {
    let prog = program(alloc, case.text)?;
    let extracted = extract(alloc, &prog)?;
    let found = tree(alloc, case.rows)?;
    outcome(alloc, &extracted.flat, case.entry, found.nodes())
}

#[test]
fn trees_are_over_as_they_are_worked(rt: HostRuntime) -> Result<(), Fail> {
    for (number, case) in CASES.iter().enumerate() {
        let status = case_outcome(rt.alloc(), *case)?;
        assert_eq!(rt; status, case.status, "case {number}");
    }
    Ok(())
}
