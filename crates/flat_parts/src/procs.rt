//! Whether procedures fit, and the program of parts that do.
ghost use Rattle.std.specs.Prelude.{◌≡◌, Some, None, IfOk, if◌then◌else◌};
ghost use Rattle.std.specs.List.{list_all};
ghost use Rattle.hy_val.specs.Scope as scope;
ghost use Rattle.flat_prog.specs.Program.{variables_of};
ghost use Rattle.flat_prog.specs.Shape as spec;
ghost use Rattle.flat_parts.specs.Parts as parts;

use crate::calls::all_call_on;
use crate::commands::blocks_fit;
use crate::exprs::{Known, same_sort};
use flat_prog::{Flat, FlatKind, FlatProc};
use hy_val::{Scalar, Sort, Width};
use sqlite_items::Items;
use std::alloc::{AllocError, Global};

// Whether 32 bits number so many.
fn are_numbered(count: usize) -> bool
    ensures { result ≡ scope.are_numbered count }
{
    count < 0x1_0000_0000
}

// Whether 32 bits number the sorts.
fn sorts_fit(sorts: &[Sort]) -> bool
    ensures { result ≡ spec.sorts_fit sorts.now }
{
    for sort in sorts {
        sort.keeps_widths();
    }
    are_numbered(sorts.len())
}

// The sorts of all variables of a procedure.
fn variables(alloc: Global, proc: &FlatProc) -> Result<Items<Sort>, AllocError>
    ensures { IfOk result (λ sorts. sorts ≡ variables_of proc.now) }
{
    let mut sorts = Items::from_slice(alloc, proc.ins.as_slice())?;
    let outs = Items::from_slice(alloc, proc.outs.as_slice())?;
    let own = Items::from_slice(alloc, proc.locals.as_slice())?;
    sorts.append(outs)?;
    sorts.append(own)?;
    Ok(sorts)
}

#[tactic(auto, using(crate::proofs::Apart::outs_apart))]
// Whether the outs of a loop procedure are its ins, and then one of 32 bits.
fn outs_follow(ins: &[Sort], outs: &[Sort]) -> bool
    ensures { result ≡ parts.outs_follow ins.now outs.now }
{
    if outs.len().saturating_sub(ins.len()) != 1 {
        return false;
    }
    for place in 0..ins.len() {
        if !same_sort(outs[place], ins[place]) {
            return false;
        }
    }
    let number = Sort::scalar(Scalar::bits(Width::new(32)));
    same_sort(outs[ins.len()], number)
}

// Whether the outs are as the kind of the procedure wants them.
fn outs_fit(proc: &FlatProc) -> bool
    ensures { result ≡ parts.outs_fit proc.now.kind proc.now }
{
    match proc.kind {
        FlatKind::Source { .. } => true,
        FlatKind::Loop { .. } => outs_follow(proc.ins.as_slice(), proc.outs.as_slice()),
    }
}

// Whether the procedure fits among the others.
fn proc_fits(
    alloc: Global,
    consts: &[Sort],
    globals: &[Sort],
    procs: &[FlatProc],
    proc: &FlatProc,
) -> Result<bool, AllocError>
    ensures { IfOk result (λ fits. fits ≡ parts.proc_fits consts.now globals.now procs.now proc.now) }
{
    let locals = variables(alloc, proc)?;
    let known = Known::new(consts, globals, locals.as_slice());
    let fit = blocks_fit(alloc, procs, &known, proc.blocks.as_slice())?;
    let some = 0 < proc.blocks.len() && are_numbered(proc.blocks.len());
    Ok(sorts_fit(locals.as_slice()) && (some && (fit && outs_fit(proc))))
}

// Whether all do.
fn procs_fit(
    alloc: Global,
    consts: &[Sort],
    globals: &[Sort],
    procs: &[FlatProc],
) -> Result<bool, AllocError>
    ensures { IfOk result (λ fit. fit ≡ list_all (parts.proc_fits consts.now globals.now procs.now) procs.now) }
{
    for proc in procs {
        if !proc_fits(alloc, consts, globals, procs, proc)? {
            return Ok(false);
        }
    }
    Ok(true)
}

// Whether the parts are those of a program.
fn parts_fit(
    alloc: Global,
    consts: &[Sort],
    globals: &[Sort],
    procs: &[FlatProc],
) -> Result<bool, AllocError>
    ensures { IfOk result (λ fit. fit ≡ parts.are_flat consts.now globals.now procs.now) }
{
    let few = sorts_fit(consts) && (sorts_fit(globals) && are_numbered(procs.len()));
    let fit = procs_fit(alloc, consts, globals, procs)?;
    Ok(few && (fit && all_call_on(procs)))
}

#[tactic(auto, using(crate::proofs::Flats::flat_is))]
/// The flat program without axioms of these constants, globals and procedures. It is None where they are none: where a number names
/// nothing, sorts don't fit or 32 bits number too few; where an edge does not lead to a block with a higher number; or where a
/// procedure calls a loop procedure with a lower number than its own.
pub fn flat_of(
    alloc: Global,
    consts: Items<Sort>,
    globals: Items<Sort>,
    procs: Items<FlatProc>,
) -> Result<Option<Flat>, AllocError>
    ensures { IfOk result (λ flat. flat ≡ (if parts.are_flat consts globals procs then Some (parts.program_of consts globals procs) else None)) }
{
    let fit = parts_fit(
        alloc,
        consts.as_slice(),
        globals.as_slice(),
        procs.as_slice(),
    )?;
    if fit {
        let flat = Flat::new(consts, Items::new(alloc), Items::new(alloc), globals, procs);
        Ok(Some(flat))
    } else {
        Ok(None)
    }
}
