//! The search on a small program.
ghost use Rattle.std.specs.Prelude.{◌≡◌, [], ◌∷◌, IfOk};
ghost use Rattle.hy_val.specs.declared.expr.ExprNode.TheVariants.{Var as Read};
ghost use Rattle.hy_val.specs.declared.expr.Var.TheVariants.{Global as AGlobal};
ghost use Rattle.hy_val.specs.declared.sort.ScalarKind.TheVariants.{Bool as BoolSort};
ghost use Rattle.hy_val.specs.declared.sort.SortKind.TheVariants.{Scalar as ScalarSort};
ghost use Rattle.src_prog.specs.declared.block.Cmd.TheVariants.{Assert, Havoc};
ghost use Rattle.src_prog.specs.declared.block.Next.TheVariants.{Return};

use hy_val::{Atom, Expr, ExprNode, Scalar, Sort, Value, Var};
use sqlite_items::Items;
use src_prog::{Cmd, Named, Next, Prog, SrcBlock, SrcProc};
use src_run::{Choice, Failing, is_plain, search};
use std::alloc::{AllocError, Global};
use std::process::Abort;
use std::test::Fail;

// A block that gives the first global any value, asserts it, and returns.
fn asserting(alloc: Global) -> Result<SrcBlock, AllocError>
    ensures { IfOk result (λ b. b ≡ record { cmds = Havoc (AGlobal 0 ∷ []) ∷ Assert 1 (Read (AGlobal 0) (ScalarSort BoolSort) ∷ []) ∷ []; next = Return }) }
{
    let node = ExprNode::Var {
        var: Var::Global(0),
        sort: Sort::scalar(Scalar::bool()),
    };
    let expr = Expr::new(Items::from_slice(alloc, &[node])?);
    let mut cmds = Items::new(alloc);
    cmds.push(Cmd::Havoc(Items::from_slice(alloc, &[Var::Global(0)])?))?;
    cmds.push(Cmd::Assert { number: 1, expr })?;
    Ok(SrcBlock {
        cmds,
        next: Next::Return,
    })
}

// `procedure main() { havoc b; assert b; }`
fn main_of(alloc: Global) -> Result<SrcProc, AllocError>
    ensures ins { IfOk result (λ p. p.ins ≡ []) }
    ensures outs { IfOk result (λ p. p.outs ≡ []) }
    ensures locals { IfOk result (λ p. p.locals ≡ []) }
    ensures loops { IfOk result (λ p. p.loops ≡ []) }
    ensures blocks { IfOk result (λ p. p.blocks ≡ record { cmds = Havoc (AGlobal 0 ∷ []) ∷ Assert 1 (Read (AGlobal 0) (ScalarSort BoolSort) ∷ []) ∷ []; next = Return } ∷ []) }
{
    let mut blocks = Items::new(alloc);
    blocks.push(asserting(alloc)?)?;
    Ok(SrcProc {
        name: Items::from_slice(alloc, b"main")?,
        ins: Items::new(alloc),
        outs: Items::new(alloc),
        locals: Items::new(alloc),
        blocks,
        loops: Items::new(alloc),
    })
}

// `var b: bool;` and the procedure.
fn prog_of(alloc: Global) -> Result<Prog, AllocError> {
    let mut globals = Items::new(alloc);
    globals.push(Named {
        name: Items::from_slice(alloc, b"b")?,
        sort: Sort::scalar(Scalar::bool()),
    })?;
    let mut procs = Items::new(alloc);
    procs.push(main_of(alloc)?)?;
    let prog = Prog::new(
        Items::new(alloc),
        Items::new(alloc),
        Items::new(alloc),
        globals,
        procs,
    );
    Ok(prog)
}

fn is_bool_choice(choice: &Choice, value: bool) -> bool {
    match choice {
        Choice::Val(Value::Atom(atom)) => *atom == Atom::bool(value),
        Choice::Val(Value::Map(_)) => false,
        Choice::Go(_) => false,
    }
}

// Both choices are false, and the first assert of the first procedure fails.
fn is_first(found: &Failing) -> bool {
    match found.choices.as_slice() {
        [one, other] => {
            is_bool_choice(one, false)
                && is_bool_choice(other, false)
                && found.proc == 0
                && found.assert == 1
        }
        _ => false,
    }
}

#[test]
fn the_first_failing_run_is_found(rt: HostRuntime) -> Result<(), Fail> {
    let prog = prog_of(rt.alloc())?;
    assert!(rt; prog.procs().len() == 1);
    assert!(rt; is_plain(&prog, 0));
    let found = search(rt.alloc(), &prog, 0)?.expect(&rt, "a run fails");
    assert!(rt; is_first(&found));
    Ok(())
}
