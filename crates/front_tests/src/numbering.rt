//! A program with a loop, and the numbers of its procedures.
ghost use Rattle.std.specs.Prelude.{◌≡◌, [], ◌∷◌, IfOk};
ghost use Rattle.hy_val.specs.declared.expr.ExprNode.TheVariants.{Var as Read};
ghost use Rattle.hy_val.specs.declared.expr.Var.TheVariants.{Global as AGlobal};
ghost use Rattle.hy_val.specs.declared.sort.ScalarKind.TheVariants.{Bool as BoolSort};
ghost use Rattle.hy_val.specs.declared.sort.SortKind.TheVariants.{Scalar as ScalarSort};
ghost use Rattle.src_prog.specs.declared.block.Cmd.TheVariants.{Assert};
ghost use Rattle.src_prog.specs.declared.block.Next.TheVariants.{Goto, Return};

use hy_text::Text;
use hy_val::{Expr, ExprNode, Scalar, Sort, Var};
use sqlite_items::Items;
use src_prog::{Cmd, Named, Next, Prog, SrcBlock, SrcLoop, SrcProc};
use std::alloc::{AllocError, Global};
use std::test::Fail;

// A block that goes on at these blocks.
fn going(alloc: Global, targets: &[u32]) -> Result<SrcBlock, AllocError>
    ensures { IfOk result (λ b. b ≡ record { cmds = []; next = Goto targets.now }) }
{
    Ok(SrcBlock {
        cmds: Items::new(alloc),
        next: Next::Goto(Items::from_slice(alloc, targets)?),
    })
}

// A block that asserts the first global, and returns.
fn asserting(alloc: Global) -> Result<SrcBlock, AllocError>
    ensures { IfOk result (λ b. b ≡ record { cmds = Assert 1 (Read (AGlobal 0) (ScalarSort BoolSort) ∷ []) ∷ []; next = Return }) }
{
    let node = ExprNode::Var {
        var: Var::Global(0),
        sort: Sort::scalar(Scalar::bool()),
    };
    let expr = Expr::new(Items::from_slice(alloc, &[node])?);
    let mut cmds = Items::new(alloc);
    cmds.push(Cmd::Assert { number: 1, expr })?;
    Ok(SrcBlock {
        cmds,
        next: Next::Return,
    })
}

// `procedure main() { while (*) { } assert b; }`
fn looping(alloc: Global) -> Result<SrcProc, AllocError>
    ensures ins { IfOk result (λ p. p.ins ≡ []) }
    ensures outs { IfOk result (λ p. p.outs ≡ []) }
    ensures locals { IfOk result (λ p. p.locals ≡ []) }
    ensures loops { IfOk result (λ p. p.loops ≡ record { head = 1; exit = 3 } ∷ []) }
    ensures blocks { IfOk result (λ p. p.blocks ≡ record { cmds = []; next = Goto (1 ∷ []) } ∷ record { cmds = []; next = Goto (2 ∷ 3 ∷ []) } ∷ record { cmds = []; next = Goto (1 ∷ []) } ∷ record { cmds = Assert 1 (Read (AGlobal 0) (ScalarSort BoolSort) ∷ []) ∷ []; next = Return } ∷ []) }
{
    let mut blocks = Items::new(alloc);
    blocks.push(going(alloc, &[1])?)?;
    blocks.push(going(alloc, &[2, 3])?)?;
    blocks.push(going(alloc, &[1])?)?;
    blocks.push(asserting(alloc)?)?;
    Ok(SrcProc {
        name: Items::from_slice(alloc, b"main")?,
        ins: Items::new(alloc),
        outs: Items::new(alloc),
        locals: Items::new(alloc),
        blocks,
        loops: Items::from_slice(alloc, &[SrcLoop { head: 1, exit: 3 }])?,
    })
}

#[test]
fn procedures_are_found_by_name(rt: HostRuntime) -> Result<(), Fail> {
    let alloc = rt.alloc();
    let mut globals = Items::new(alloc);
    globals.push(Named {
        name: Items::from_slice(alloc, b"b")?,
        sort: Sort::scalar(Scalar::bool()),
    })?;
    let mut procs = Items::new(alloc);
    procs.push(looping(alloc)?)?;
    let prog = Prog::new(
        Items::new(alloc),
        Items::new(alloc),
        Items::new(alloc),
        globals,
        procs,
    );
    assert_eq!(rt; prog.find(&Text::from_str(alloc, "main")?), Some(0));
    assert_eq!(rt; prog.find(&Text::from_str(alloc, "b")?), None);
    assert_eq!(rt; prog.procs().len(), 1);
    assert_eq!(rt; prog.globals().len(), 1);
    assert!(rt; prog.consts().is_empty());
    assert!(rt; prog.uniques().is_empty());
    assert!(rt; prog.axioms().is_empty());
    Ok(())
}
