//! The loops of a procedure are found.

ghost use Rattle.std.specs.Prelude.{◌^◌, ◌<◌, length, slice_get, IfOk, IsTrue};
ghost use Rattle.loop_nest.specs.Nests.{IsNest, IsNestFrom};
ghost use Rattle.loop_nest.specs.Walks.{IsClosed};
ghost use Rattle.src_prog.specs.Shape.{loops_fit};

use crate::making::loops;
use crate::numbering::Numbering;
use crate::types::Nest;
use crate::walk::reached;
use src_prog::{Prog, SrcProc};
use std::alloc::{AllocError, Global};

// The loops of a procedure whose gotos and loops fit.
fn nest_of(alloc: Global, proc: &SrcProc) -> Result<Nest, AllocError>
    requires closed { IsClosed proc.now.blocks }
    requires some { 0 < length proc.now.blocks }
    requires numbered { length proc.now.blocks < 2 ^ 32 }
    requires loops { IsTrue (loops_fit proc.now) }
    ensures { IfOk result (IsNest proc.now) }
{
    let flags = reached(alloc, proc.blocks.as_slice())?;
    let numbering = Numbering::new(alloc, flags)?;
    let loops = loops(alloc, &numbering, proc.loops.as_slice())?;
    Ok(Nest::new(loops))
}

/// The loops of a procedure of a program: exactly the `while`s whose heads are reached, by head,
/// each with its reached blocks and the innermost loop around it. Looks at each block and each
/// edge once; the rest takes time for the blocks that are listed.
pub fn nest(alloc: Global, prog: &Prog, proc: u32) -> Result<Nest, AllocError>
    requires { proc < length prog.now.procs }
    ensures { IfOk result (IsNestFrom (slice_get prog.now.procs proc)) }
{
    // What a program keeps is a clause of this reader.
    let _consts = prog.consts();
    nest_of(alloc, &prog.procs()[proc as usize])
}
