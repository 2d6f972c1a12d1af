//! Loops become procedures.
ghost use Rattle.std.specs.Prelude.{◌≡◌, IfOk};
ghost use Rattle.extract_def.specs.Extraction.{flat_of};
ghost use Rattle.extract_def.specs.Origins.{origins};

use crate::making::sorts_of;
use crate::procs::{are_small, procs_of};
use extract_def::{Extracted, extraction_is_flat};
use flat_prog::Flat;
use hy_val::Expr;
use sqlite_items::Items;
use src_prog::Prog;
use std::alloc::{AllocError, Global};

// Equal expressions.
fn copies(alloc: Global, exprs: &[Expr]) -> Result<Items<Expr>, AllocError>
    ensures { IfOk result (λ es. es ≡ exprs.now) }
{
    let mut all = Items::new(alloc);
    for expr in exprs {
        all.push(expr.copy(alloc)?)?;
    }
    Ok(all)
}

/// The flat program of a program, and what its blocks come from. The only error is want of memory,
/// and a flat program in which some number of a procedure, a variable or a block needs more than
/// 32 bits counts as that too.
///
/// The work grows with the blocks and edges of each procedure times the depth to which its loops are
/// nested, and with the variables that each loop's procedure and each call of it name.
pub fn extract(alloc: Global, prog: &Prog) -> Result<Extracted, AllocError>
    ensures flat { IfOk result (λ e. e.flat ≡ flat_of prog.now) }
    ensures origins { IfOk result (λ e. e.origins ≡ origins prog.now) }
{
    extraction_is_flat();
    let named = prog.consts();
    let (procs, origins) = procs_of(alloc, prog)?;
    if !are_small(procs.as_slice()) {
        return Err(AllocError);
    }
    let consts = sorts_of(alloc, named)?;
    let uniques = Items::from_slice(alloc, prog.uniques())?;
    let axioms = copies(alloc, prog.axioms())?;
    let globals = sorts_of(alloc, prog.globals())?;
    let flat = Flat::new(consts, uniques, axioms, globals, procs);
    Ok(Extracted { flat, origins })
}
