//! The flat procedures.
ghost use Rattle.std.specs.Prelude.{◌≡◌, ◌+◌, ◌++◌, ◌∷◌, ◌&&◌, [], length, map, take, slice_get, IfOk, OnOk};
ghost use Rattle.std.specs.List.{list_all};
ghost use Rattle.flat_prog.specs.Shape.{exit_sort};
ghost use Rattle.flat_prog.specs.declared.proc.FlatKind.TheVariants.{Loop, Source};
ghost use Rattle.src_prog.specs.Scope as names;
ghost use Rattle.hy_val.specs.Scope.{are_numbered};
ghost use Rattle.extract_def.specs.Extraction as extraction;
ghost use Rattle.extract_def.specs.Laws as laws;
ghost use Rattle.extract_def.specs.Origins.{origins, origins_of};
ghost use Rattle.extract_def.specs.Scopes.{reached_loops};
ghost use Rattle.extract_def.specs.declared.scope.Scope.TheVariants.{In, Whole};
ghost use Rattle.loop_extract.specs.Plans.{IsPlan};
ghost use Rattle.loop_extract.specs.Procs as spec;

use crate::adding::sort_of_exit;
use crate::blocks::blocks_at;
use crate::making::{plan_of, region_of, sorts_of};
use crate::numbers::{small, sum};
use crate::origins::origins_at;
use crate::plan::Plan;
use extract_def::{Origin, Scope};
use flat_prog::{FlatBlock, FlatKind, FlatProc};
use sqlite_items::Items;
use src_prog::{Prog, SrcProc};
use std::alloc::{AllocError, Global};

// The flat procedure of a source procedure, with these blocks.
fn source_proc(
    alloc: Global,
    proc: &SrcProc,
    plan: &Plan,
    blocks: Items<FlatBlock>,
) -> Result<FlatProc, AllocError>
    ensures { IfOk result (λ q. q ≡ record { kind = Source plan.now.proc; ins = names.sorts_of proc.now.ins; outs = names.sorts_of proc.now.outs; locals = names.sorts_of proc.now.locals ++ spec.exit_sorts plan.now.heads; blocks = blocks }) }
{
    let ins = sorts_of(alloc, proc.ins.as_slice())?;
    let outs = sorts_of(alloc, proc.outs.as_slice())?;
    let mut locals = sorts_of(alloc, proc.locals.as_slice())?;
    if plan.heads.len() > 0 {
        locals.push(sort_of_exit())?;
    }
    Ok(FlatProc {
        kind: FlatKind::Source { proc: plan.proc },
        ins,
        outs,
        locals,
        blocks,
    })
}

// The flat procedure of the loop of a head, with these blocks.
fn loop_proc(
    alloc: Global,
    plan: &Plan,
    head: u32,
    blocks: Items<FlatBlock>,
) -> Result<FlatProc, AllocError>
    ensures { IfOk result (λ q. q ≡ record { kind = Loop plan.now.proc head; ins = plan.now.sorts; outs = plan.now.sorts ++ exit_sort ∷ []; locals = []; blocks = blocks }) }
{
    let ins = Items::from_slice(alloc, plan.sorts.as_slice())?;
    let mut outs = Items::from_slice(alloc, plan.sorts.as_slice())?;
    outs.push(sort_of_exit())?;
    Ok(FlatProc {
        kind: FlatKind::Loop {
            proc: plan.proc,
            head,
        },
        ins,
        outs,
        locals: Items::new(alloc),
        blocks,
    })
}

// The flat procedure of a scope, with these blocks.
fn proc_at(
    alloc: Global,
    proc: &SrcProc,
    plan: &Plan,
    scope: Scope,
    blocks: Items<FlatBlock>,
) -> Result<FlatProc, AllocError>
    ensures { IfOk result (λ q. q ≡ spec.proc_at proc.now plan.now scope blocks) }
{
    match scope {
        Scope::Whole => source_proc(alloc, proc, plan, blocks),
        Scope::In { head, exit: _ } => loop_proc(alloc, plan, head, blocks),
    }
}

// The flat procedure of a scope; behind the other origins stand those of its blocks.
fn flat_proc(
    alloc: Global,
    prog: &Prog,
    proc: &SrcProc,
    plan: &Plan,
    scope: Scope,
    number: u32,
    origins: &mut Items<Items<Origin>>,
) -> Result<FlatProc, AllocError>
    requires is_plan { IsPlan prog.now proc.now plan.now }
    requires number { number ≡ extraction.number_of prog.now plan.now.proc scope }
    ensures proc { IfOk result (λ q. q ≡ extraction.proc_of prog.now plan.now.proc proc.now scope) }
    ensures origins { IfOk result (λ _. origins.new ≡ origins.old ++ origins_of proc.now scope ∷ []) }
{
    // What a program keeps is a clause of this reader.
    let _consts = prog.consts();
    let region = region_of(alloc, proc, plan, scope, number)?;
    let blocks = blocks_at(alloc, &region, proc.blocks.as_slice())?;
    let found = origins_at(alloc, &region)?;
    origins.push(found)?;
    let made = proc_at(alloc, proc, plan, scope, blocks)?;
    Ok(made)
}

// The flat procedures of the loops of a procedure, behind others, and so the origins of their blocks.
fn add_loops(
    alloc: Global,
    prog: &Prog,
    proc: &SrcProc,
    plan: &Plan,
    loops: &mut Items<FlatProc>,
    origins: &mut Items<Items<Origin>>,
) -> Result<(), AllocError>
    requires { IsPlan prog.now proc.now plan.now }
    ensures loops { OnOk result (loops.new ≡ loops.old ++ map (spec.loop_of prog.now plan.now.proc proc.now) plan.now.heads) }
    ensures origins { OnOk result (origins.new ≡ origins.old ++ map (spec.loop_origins proc.now) plan.now.heads) }
{
    // What a program keeps is a clause of this reader.
    let _consts = prog.consts();
    for (k, head) in plan.heads.as_slice().iter().enumerate() {
        let place = small(k)?;
        let number = sum(plan.base, place)?;
        let scope = Scope::In {
            head: head.span.head,
            exit: head.span.exit,
        };
        loops.push(flat_proc(alloc, prog, proc, plan, scope, number, origins)?)?;
    }
    Ok(())
}

// The flat procedures of the first source procedures, those of their loops, and the number of the next of these.
#[derive(Drop)]
struct Made {
    sources: Items<FlatProc>,
    loops: Items<FlatProc>,
    base: u32,
    source_origins: Items<Items<Origin>>,
    loop_origins: Items<Items<Origin>>,
}

// The flat procedures of a source procedure more.
fn add_proc(
    alloc: Global,
    prog: &Prog,
    proc: &SrcProc,
    made: &mut Made,
    number: u32,
) -> Result<(), AllocError>
    requires is_proc { slice_get prog.now.procs number ≡ Some proc.now }
    requires base { made.old.base ≡ length prog.now.procs + extraction.loops_count (take number prog.now.procs) }
    ensures sources { OnOk result (made.new.sources ≡ made.old.sources ++ extraction.proc_of prog.now number proc.now Whole ∷ []) }
    ensures loops { OnOk result (made.new.loops ≡ made.old.loops ++ map (λ l. extraction.proc_of prog.now number proc.now (In l.head l.exit)) (reached_loops proc.now)) }
    ensures base { OnOk result (made.new.base ≡ made.old.base + length (reached_loops proc.now)) }
    ensures source_origins { OnOk result (made.new.source_origins ≡ made.old.source_origins ++ origins_of proc.now Whole ∷ []) }
    ensures loop_origins { OnOk result (made.new.loop_origins ≡ made.old.loop_origins ++ map (λ l. origins_of proc.now (In l.head l.exit)) (reached_loops proc.now)) }
{
    let plan = plan_of(alloc, prog, proc, number, made.base)?;
    let whole = flat_proc(
        alloc,
        prog,
        proc,
        &plan,
        Scope::Whole,
        number,
        &mut made.source_origins,
    )?;
    made.sources.push(whole)?;
    add_loops(
        alloc,
        prog,
        proc,
        &plan,
        &mut made.loops,
        &mut made.loop_origins,
    )?;
    let loops = plan.heads.len();
    let count = small(loops)?;
    made.base = sum(made.base, count)?;
    Ok(())
}

/// The flat procedures of a program, those of the source procedures and then those of the loops,
/// and what the blocks of each come from.
pub fn procs_of(
    alloc: Global,
    prog: &Prog,
) -> Result<(Items<FlatProc>, Items<Items<Origin>>), AllocError>
    ensures procs { IfOk result (λ r. r.0 ≡ extraction.source_procs prog.now 0 prog.now.procs ++ extraction.loop_procs prog.now 0 prog.now.procs) }
    ensures origins { IfOk result (λ r. r.1 ≡ origins prog.now) }
{
    let procs = prog.procs();
    let base = small(procs.len())?;
    let mut made = Made {
        sources: Items::new(alloc),
        loops: Items::new(alloc),
        base,
        source_origins: Items::new(alloc),
        loop_origins: Items::new(alloc),
    };
    for (k, proc) in procs.iter().enumerate() {
        let number = small(k)?;
        add_proc(alloc, prog, proc, &mut made, number)?;
    }
    let Made {
        mut sources,
        loops,
        base: _,
        mut source_origins,
        loop_origins,
    } = made;
    sources.append(loops)?;
    source_origins.append(loop_origins)?;
    Ok((sources, source_origins))
}

// Whether numbers of 32 bits name the variables and the blocks of a procedure.
fn is_small_proc(proc: &FlatProc) -> bool
    ensures { result ≡ laws.is_small_proc proc.now }
{
    let ins = proc.ins.len();
    let outs = proc.outs.len();
    let locals = proc.locals.len();
    let most = 0xffff_ffff;
    if ins > most || outs > most || locals > most {
        return false;
    }
    ins + (outs + locals) <= most && proc.blocks.len() <= most
}

/// Whether numbers of 32 bits name the procedures, and the variables and the blocks of each.
pub fn are_small(procs: &[FlatProc]) -> bool
    ensures { result ≡ are_numbered (length procs.now) && list_all laws.is_small_proc procs.now }
{
    for proc in procs {
        if !is_small_proc(proc) {
            return false;
        }
    }
    procs.len() <= 0xffff_ffff
}
