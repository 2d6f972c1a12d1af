//! The flat programs of the tests.
ghost use Rattle.std.specs.Prelude.{◌≡◌, [], ◌∷◌, map, replicate, IfOk};
ghost use Rattle.flat_prog.specs.declared.proc.FlatKind.TheVariants.{Source, Loop};
ghost use Rattle.flat_prog.specs.Shape.{IsFlat, exit_sort};
ghost use Rattle.tree_tests.specs.Programs.{call_of, block_of, proc_of, program_of, recursive, looping, wide};

use flat_prog::{Flat, FlatBlock, FlatCmd, FlatKind, FlatNext, FlatProc};
use hy_val::{Scalar, Sort, Var, Width};
use sqlite_items::Items;
use std::alloc::{AllocError, Global};

// A call of a procedure; that of the loop hands back its exit number.
fn call(alloc: Global, looping: u32, proc: u32) -> Result<FlatCmd, AllocError>
    ensures { IfOk result (λ c. c ≡ call_of looping proc) }
{
    let outs = if proc == looping {
        Items::from_slice(alloc, &[Var::Local(0)])?
    } else {
        Items::new(alloc)
    };
    Ok(FlatCmd::Call {
        proc,
        args: Items::new(alloc),
        outs,
    })
}

// Calls of these procedures, in order, and then the return.
fn block(alloc: Global, looping: u32, callees: &[u32]) -> Result<FlatBlock, AllocError>
    ensures { IfOk result (λ b. b ≡ block_of looping callees.now) }
{
    let mut cmds = Vec::new(alloc);
    for callee in callees {
        cmds.push(call(alloc, looping, *callee)?)?;
    }
    Ok(FlatBlock {
        cmds: Items::from_vec(cmds),
        next: FlatNext::Return,
    })
}

// A procedure of one block of calls.
fn proc(
    alloc: Global,
    kind: FlatKind,
    outs: Items<Sort>,
    locals: Items<Sort>,
    looping: u32,
    callees: &[u32],
) -> Result<FlatProc, AllocError>
    ensures { IfOk result (λ q. q ≡ proc_of kind outs locals looping callees.now) }
{
    let mut blocks = Items::new(alloc);
    blocks.push(block(alloc, looping, callees)?)?;
    Ok(FlatProc {
        kind,
        ins: Items::new(alloc),
        outs,
        locals,
        blocks,
    })
}

// The sort of exit numbers, alone.
fn exit(alloc: Global) -> Result<Items<Sort>, AllocError>
    ensures { IfOk result (λ sorts. sorts ≡ exit_sort ∷ []) }
{
    Items::from_slice(alloc, &[Sort::scalar(Scalar::bits(Width::new(32)))])
}

// A source procedure without outs and locals.
fn source(alloc: Global, number: u32, callees: &[u32]) -> Result<FlatProc, AllocError>
    ensures { IfOk result (λ q. q ≡ proc_of (Source number) [] [] 9 callees.now) }
{
    proc(
        alloc,
        FlatKind::Source { proc: number },
        Items::new(alloc),
        Items::new(alloc),
        9,
        callees,
    )
}

// The program of these procedures.
fn program(alloc: Global, procs: Items<FlatProc>) -> Flat
    requires { IsFlat (program_of procs) }
    ensures { result ≡ program_of procs }
{
    Flat::new(
        Items::new(alloc),
        Items::new(alloc),
        Items::new(alloc),
        Items::new(alloc),
        procs,
    )
}

fn recursive_procs(alloc: Global) -> Result<Items<FlatProc>, AllocError>
    ensures { IfOk result (λ procs. procs ≡ recursive.procs) }
{
    let mut procs = Items::new(alloc);
    procs.push(source(alloc, 0, &[0])?)?;
    procs.push(source(alloc, 1, &[0])?)?;
    Ok(procs)
}

/// `procedure r() { call r(); } procedure main() { call r(); }`
pub fn recursive_program(alloc: Global) -> Result<Flat, AllocError>
    ensures { IfOk result (λ f. f ≡ recursive) }
{
    let procs = recursive_procs(alloc)?;
    Ok(program(alloc, procs))
}

// A procedure that calls the loop, which has number 2.
fn turning(alloc: Global) -> Result<FlatProc, AllocError>
    ensures { IfOk result (λ q. q ≡ proc_of (Source 0) [] (exit_sort ∷ []) 2 (2 ∷ [])) }
{
    let locals = exit(alloc)?;
    proc(
        alloc,
        FlatKind::Source { proc: 0 },
        Items::new(alloc),
        locals,
        2,
        &[2],
    )
}

// A loop that calls procedure 0 and goes round.
fn turned(alloc: Global) -> Result<FlatProc, AllocError>
    ensures { IfOk result (λ q. q ≡ proc_of (Loop 0 1) (exit_sort ∷ []) [] 2 (0 ∷ 2 ∷ [])) }
{
    let outs = exit(alloc)?;
    proc(
        alloc,
        FlatKind::Loop { proc: 0, head: 1 },
        outs,
        Items::new(alloc),
        2,
        &[0, 2],
    )
}

// A procedure that calls the one with the loop.
fn starting(alloc: Global) -> Result<FlatProc, AllocError>
    ensures { IfOk result (λ q. q ≡ proc_of (Source 1) [] [] 2 (0 ∷ [])) }
{
    proc(
        alloc,
        FlatKind::Source { proc: 1 },
        Items::new(alloc),
        Items::new(alloc),
        2,
        &[0],
    )
}

fn looping_procs(alloc: Global) -> Result<Items<FlatProc>, AllocError>
    ensures { IfOk result (λ procs. procs ≡ looping.procs) }
{
    let mut procs = Items::new(alloc);
    procs.push(turning(alloc)?)?;
    procs.push(starting(alloc)?)?;
    procs.push(turned(alloc)?)?;
    Ok(procs)
}

/// `procedure p() { while (*) { call p(); } } procedure main() { call p(); }`, the loop after them.
pub fn looping_program(alloc: Global) -> Result<Flat, AllocError>
    ensures { IfOk result (λ f. f ≡ looping) }
{
    let procs = looping_procs(alloc)?;
    Ok(program(alloc, procs))
}

fn wide_procs(alloc: Global, first: usize, second: usize) -> Result<Items<FlatProc>, AllocError>
    ensures { IfOk result (λ procs. procs ≡ (wide first second).procs) }
{
    let seconds = vec![in alloc; 1u32; first]?;
    let thirds = vec![in alloc; 2u32; second]?;
    let mut procs = Items::new(alloc);
    procs.push(source(alloc, 0, seconds.as_slice())?)?;
    procs.push(source(alloc, 1, thirds.as_slice())?)?;
    procs.push(source(alloc, 2, &[3])?)?;
    procs.push(source(alloc, 3, &[])?)?;
    Ok(procs)
}

/// A procedure that calls a second one so many times, which calls a third one so many times, which calls the last.
pub fn wide_program(alloc: Global, first: usize, second: usize) -> Result<Flat, AllocError>
    ensures { IfOk result (λ f. f ≡ wide first second) }
{
    let procs = wide_procs(alloc, first, second)?;
    Ok(program(alloc, procs))
}
