//! Extraction of loops from programs of a shape and a size, and the way back from a failing run tree.

ghost use Rattle.std.specs.Prelude.{slice_get, IsSome};

use crate::runs::failing;
use crate::shapes::{Shape, program};
use loop_extract::extract;
use sqlite_items::at;
use src_prog::Prog;
use std::alloc::{AllocError, Global};
use trace_build::choices;

/// Counts of a program.
#[derive(Clone, Copy)]
pub struct Counts {
    /// Its procedures; in a flat program those of loops too.
    pub procs: usize,
    /// Their blocks.
    pub blocks: usize,
    /// The commands of the blocks.
    pub commands: usize,
}

/// Makes a program of a shape and a size.
pub fn lowered(alloc: Global, shape: Shape, size: u64) -> Result<Counts, AllocError> {
    let prog = program(alloc, shape, size)?;
    let procs = prog.procs();
    let mut blocks: usize = 0;
    let mut commands: usize = 0;
    for proc in procs {
        blocks = blocks.saturating_add(proc.blocks.len());
        for block in proc.blocks.as_slice() {
            commands = commands.saturating_add(block.cmds.len());
        }
    }
    Ok(Counts {
        procs: procs.len(),
        blocks,
        commands,
    })
}

/// Makes a program of a shape and a size, and its flat program, of which the counts are.
pub fn extracted(alloc: Global, shape: Shape, size: u64) -> Result<Counts, AllocError> {
    let prog = program(alloc, shape, size)?;
    let extracted = extract(alloc, &prog)?;
    let procs = extracted.flat.procs();
    let mut blocks: usize = 0;
    let mut commands: usize = 0;
    for proc in procs {
        blocks = blocks.saturating_add(proc.blocks.len());
        for block in proc.blocks.as_slice() {
            commands = commands.saturating_add(block.cmds.len());
        }
    }
    Ok(Counts {
        procs: procs.len(),
        blocks,
        commands,
    })
}

/// Counts of a way back.
#[derive(Clone, Copy)]
pub struct WayBack {
    /// The nodes of the run tree.
    pub nodes: usize,
    /// The choices that it stands for.
    pub choices: usize,
}

/// Makes a program of so many loops in a row, its flat program, a run tree that turns each loop once and then fails,
/// and the choices of that tree.
pub fn back(alloc: Global, size: u32) -> Result<WayBack, AllocError> {
    let prog = program(alloc, Shape::Rows, size as u64)?;
    match at(prog.procs(), 0) {
        Some(_) => way_back(alloc, &prog, size),
        None => Err(AllocError),
    }
}

// The same of a program that is made.
fn way_back(alloc: Global, prog: &Prog, size: u32) -> Result<WayBack, AllocError>
    requires { IsSome (slice_get prog.now.procs 0) }
{
    let extracted = extract(alloc, prog)?;
    let run = failing(alloc, size)?;
    let found = choices(alloc, prog, &extracted.flat, 0, &run)?;
    Ok(WayBack {
        nodes: run.nodes().len(),
        choices: found.len(),
    })
}
