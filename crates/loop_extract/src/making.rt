//! What extraction keeps of a procedure, and of a scope of it.
ghost use Rattle.std.specs.Prelude.{◌≡◌, ◌+◌, ◌++◌, length, map, take, slice_get, Some, IfOk, IsTrue, OnOk};
ghost use Rattle.src_prog.specs.Scope as names;
ghost use Rattle.extract_def.specs.Extraction.{loops_count};
ghost use Rattle.extract_def.specs.Scopes.{reached_blocks};
ghost use Rattle.loop_extract.specs.Flags.{ups};
ghost use Rattle.loop_extract.specs.Plans as spec;

use crate::inside::{exits_in, inners_of, kept_of, passes_in, spans_in};
use crate::numbers::{small, sum};
use crate::plan::Plan;
use crate::reach::reached;
use crate::region::Region;
use crate::scopes::{Scopes, scopes_of};
use crate::spans::Heads;
use extract_def::Scope;
use hy_val::Sort;
use sqlite_items::Items;
use src_prog::{Named, Prog, SrcProc};
use std::alloc::{AllocError, Global};

// How much further behind the variables stand, of which there are so many.
fn moved_in(scope: Scope, count: u32) -> u32
    ensures { result ≡ spec.moved_in scope count }
{
    match scope {
        Scope::Whole => 0,
        Scope::In { .. } => count,
    }
}

/// What is kept of a scope.
pub fn region_of(
    alloc: Global,
    proc: &SrcProc,
    plan: &Plan,
    scope: Scope,
    number: u32,
) -> Result<Region, AllocError>
    requires size { length plan.now.up ≡ length proc.now.blocks }
    requires long { length plan.now.scopes ≡ length plan.now.up }
    requires reached { ups 0 plan.now.up ≡ reached_blocks proc.now }
    requires within { spec.OnlyWithin plan.now scope }
    ensures { IfOk result (λ r. r ≡ spec.region_from proc.now plan.now scope number) }
{
    let variables = plan.sorts.len();
    let count = small(variables)?;
    let by = moved_in(scope, count);
    let local = sum(by, count)?;
    let sorts = Items::from_slice(alloc, plan.sorts.as_slice())?;
    let spans = spans_in(alloc, &plan.heads, scope)?;
    let kept = kept_of(alloc, plan, scope, &spans)?;
    let blocks = kept.len();
    let first = small(blocks)?;
    let heads = spans.into_heads();
    let inside = inners_of(alloc, proc, plan, scope, first, heads)?;
    let passes = passes_in(inside.inners())?;
    let leave = sum(first, passes)?;
    let exits = exits_in(alloc, proc, plan, scope)?;
    let ends = exits.len();
    let leaves = small(ends)?;
    let again = sum(leave, leaves)?;
    Ok(Region {
        proc: plan.proc,
        number,
        scope,
        by,
        local,
        sorts,
        kept,
        inside,
        exits,
        leave,
        again,
    })
}

// The sorts of some names, behind others.
fn push_sorts(sorts: &mut Items<Sort>, named: &[Named]) -> Result<(), AllocError>
    ensures { OnOk result (sorts.new ≡ sorts.old ++ names.sorts_of named.now) }
{
    for name in named {
        sorts.push(name.sort)?;
    }
    Ok(())
}

/// The sorts of some names.
pub fn sorts_of(alloc: Global, named: &[Named]) -> Result<Items<Sort>, AllocError>
    ensures { IfOk result (λ ss. ss ≡ names.sorts_of named.now) }
{
    let mut sorts = Items::new(alloc);
    push_sorts(&mut sorts, named)?;
    Ok(sorts)
}

// The sorts of the variables of a procedure.
fn locals_of(alloc: Global, proc: &SrcProc) -> Result<Items<Sort>, AllocError>
    ensures { IfOk result (λ ss. ss ≡ names.locals_of proc.now) }
{
    let mut sorts = sorts_of(alloc, proc.ins.as_slice())?;
    push_sorts(&mut sorts, proc.outs.as_slice())?;
    push_sorts(&mut sorts, proc.locals.as_slice())?;
    Ok(sorts)
}

/// What is kept of a procedure of the program, whose loops have flat procedures from a number on.
pub fn plan_of(
    alloc: Global,
    prog: &Prog,
    proc: &SrcProc,
    number: u32,
    base: u32,
) -> Result<Plan, AllocError>
    requires is_proc { slice_get prog.now.procs number ≡ Some proc.now }
    requires base { base ≡ length prog.now.procs + loops_count (take number prog.now.procs) }
    ensures is_plan { IfOk result (spec.IsPlan prog.now proc.now) }
    ensures number { IfOk result (λ plan. plan.proc ≡ number) }
{
    // What a program keeps is a clause of this reader.
    let _consts = prog.consts();
    let up = reached(alloc, proc.blocks.as_slice())?;
    let Scopes { of_blocks, heads } = scopes_of(alloc, up.as_slice(), proc.loops.as_slice())?;
    let known = Heads::new(alloc, heads)?;
    let sorts = locals_of(alloc, proc)?;
    Ok(Plan {
        proc: number,
        base,
        up,
        scopes: Items::from_vec(of_blocks),
        heads: known,
        sorts,
    })
}
