//! The program of the tests, and its task.
ghost use Rattle.std.specs.Prelude.{◌≡◌, [], ◌∷◌, IfOk};
ghost use Rattle.std.specs.Arc.{arc_value};
ghost use Rattle.flat_prog.specs.Shape.{IsFlat};
ghost use Rattle.book_tests.specs.Example.{assert_false, call_p, main_proc, p_proc, proc_of, program, program_of, task};

use flat_prog::{Flat, FlatBlock, FlatCmd, FlatKind, FlatNext, FlatProc};
use hy_val::{Atom, Expr, ExprNode};
use piece_core::Task;
use sqlite_items::Items;
use std::alloc::{AllocError, Global};
use std::sync::Arc;

fn call(alloc: Global) -> FlatCmd
    ensures { result ≡ call_p }
{
    FlatCmd::Call {
        proc: 0,
        args: Items::new(alloc),
        outs: Items::new(alloc),
    }
}

fn failing(alloc: Global) -> Result<FlatCmd, AllocError>
    ensures { IfOk result (λ c. c ≡ assert_false) }
{
    let mut nodes = Items::new(alloc);
    nodes.push(ExprNode::Lit(Atom::bool(false)))?;
    Ok(FlatCmd::Assert {
        proc: 0,
        number: 1,
        expr: Expr::new(nodes),
    })
}

fn proc(alloc: Global, number: u32, cmds: Items<FlatCmd>) -> Result<FlatProc, AllocError>
    ensures { IfOk result (λ q. q ≡ proc_of number cmds) }
{
    let mut blocks = Items::new(alloc);
    blocks.push(FlatBlock {
        cmds,
        next: FlatNext::Return,
    })?;
    Ok(FlatProc {
        kind: FlatKind::Source { proc: number },
        ins: Items::new(alloc),
        outs: Items::new(alloc),
        locals: Items::new(alloc),
        blocks,
    })
}

fn recursive(alloc: Global) -> Result<FlatProc, AllocError>
    ensures { IfOk result (λ q. q ≡ p_proc) }
{
    let mut cmds = Items::new(alloc);
    cmds.push(failing(alloc)?)?;
    cmds.push(call(alloc))?;
    cmds.push(call(alloc))?;
    proc(alloc, 0, cmds)
}

fn calling(alloc: Global) -> Result<FlatProc, AllocError>
    ensures { IfOk result (λ q. q ≡ main_proc) }
{
    let mut cmds = Items::new(alloc);
    cmds.push(call(alloc))?;
    proc(alloc, 1, cmds)
}

fn procs(alloc: Global) -> Result<Items<FlatProc>, AllocError>
    ensures { IfOk result (λ qs. qs ≡ p_proc ∷ main_proc ∷ []) }
{
    let mut procs = Items::new(alloc);
    procs.push(recursive(alloc)?)?;
    procs.push(calling(alloc)?)?;
    Ok(procs)
}

// The program of these procedures.
fn program(alloc: Global, procs: Items<FlatProc>) -> Flat
    requires { IsFlat (program_of procs) }
    ensures { result ≡ program_of procs }
{
    Flat::new(
        Items::new(alloc),
        Items::new(alloc),
        Items::new(alloc),
        Items::new(alloc),
        procs,
    )
}

fn flat(alloc: Global) -> Result<Flat, AllocError>
    ensures { IfOk result (λ f. f ≡ program) }
{
    let found = procs(alloc)?;
    Ok(program(alloc, found))
}

/// The task of the tests.
pub fn asked(alloc: Global) -> Result<Arc<Task, Global>, AllocError>
    ensures { IfOk result (λ t. arc_value t ≡ task) }
{
    let asked = Task {
        flat: flat(alloc)?,
        entry: 1,
        bound: 1,
        grain: 1,
    };
    match Arc::new(alloc, asked) {
        Ok(shared) => Ok(shared),
        Err(_) => Err(AllocError),
    }
}
