//! Programs with loops, branches, recursion and calls, their blocks and their loops.

ghost use Rattle.std.specs.Prelude.{IsTrue};
ghost use Rattle.bpl_type.specs.WellTyped.{is_typed};

use bpl_ast::Ast;
use bpl_flow::lower;
use bpl_parse::parse;
use bpl_tok::tokens;
use bpl_type::{Typed, check, checked_programs_are_typed};
use hy_text::Text;
use hy_val::{Expr, ExprNode};
use loop_nest::{Loop, nest};
use src_prog::{Cmd, Next, Prog, SrcBlock, SrcProc};
use std::alloc::{AllocError, Global};
use std::test::Fail;

/// A loop that counts to three.
pub const COUNTED: &[u8] =
    b"function {:bvbuiltin \"bvadd\"} ADD(a: bv8, b: bv8) returns (r: bv8);\nprocedure main() {\n  var i: bv8;\n  i := 0bv8;\n  while (i != 3bv8) { i := ADD(i, 1bv8); }\n  assert false;\n}\n";

/// A procedure that calls itself from a branch inside a loop.
pub const RECURSIVE: &[u8] =
    b"function {:bvbuiltin \"bvadd\"} ADD(a: bv8, b: bv8) returns (r: bv8);\nvar d: bv8;\nprocedure p() modifies d; {\n  var i: bv8;\n  d := ADD(d, 1bv8);\n  i := 0bv8;\n  while (i != 3bv8) {\n    assert d != 2bv8;\n    if (i == 2bv8) { call p(); }\n    i := ADD(i, 1bv8);\n  }\n}\nprocedure main() modifies d; { d := 0bv8; call p(); }\n";

/// A loop in a loop.
pub const NESTED: &[u8] =
    b"function {:bvbuiltin \"bvadd\"} ADD(a: bv8, b: bv8) returns (r: bv8);\nprocedure main() {\n  var i, j, n: bv8;\n  i := 0bv8; n := 0bv8;\n  while (i != 2bv8) {\n    j := 0bv8;\n    while (j != 2bv8) { j, n := ADD(j, 1bv8), ADD(n, 1bv8); }\n    i := ADD(i, 1bv8);\n  }\n  assert n != 4bv8;\n}\n";

/// A driver that takes and releases a lock.
pub const DRIVER: &[u8] =
    b"type i32 = bv32;\ntype byte = bv8;\ntype mem = [i32]byte;\nconst unique LOCK_FREE: byte;\nconst unique LOCK_HELD: byte;\nfunction {:bvbuiltin \"bvadd\"} $add.bv32(p1: i32, p2: i32) returns (i32);\nfunction {:bvbuiltin \"bvult\"} $ult.bv32(p1: i32, p2: i32) returns (bool);\nfunction {:inline} $is_held(M: mem, p: i32) returns (bool) { M[p] == LOCK_HELD }\nvar $M: mem;\nvar $count: i32;\n\nprocedure acquire(l: i32)\n  modifies $M;\n{\n  assert {:msg \"taken twice\"} !$is_held($M, l);\n  $M[l] := LOCK_HELD;\n}\n\nprocedure release(l: i32)\n  modifies $M;\n{\n  assert {:msg \"released twice\"} $is_held($M, l);\n  $M[l] := LOCK_FREE;\n}\n\nprocedure read_reg(p: i32) returns (v: i32)\n{\n  var raw: byte;\n  havoc raw;\n  v := 0bv24 ++ raw;\n}\n\nprocedure irq(dev: i32, flag: bool)\n  modifies $M, $count;\n{\n  call acquire(dev);\n  $count := $add.bv32($count, 1bv32);\n  if (flag) {\n    call release(dev);\n  }\n  call release(dev);\n}\n\nprocedure handle(dev: i32, n: i32)\n  modifies $M, $count;\n{\n  var k: i32;\n  var last: bool;\n  k := 0bv32;\n  while ($ult.bv32(k, n)) {\n    last := $add.bv32(k, 1bv32) == 2bv32;\n    call irq(dev, last);\n    k := $add.bv32(k, 1bv32);\n  }\n}\n\nprocedure {:entrypoint} main()\n  modifies $M, $count;\n{\n  var dev: i32;\n  var n: i32;\n  assume {:sourceloc \"drv.c\", 41, 3} true;\n  dev := 4096bv32;\n  $M[dev] := LOCK_FREE;\n  $count := 0bv32;\n  call n := read_reg(dev);\n  assume $ult.bv32(n, 3bv32);\n  call handle(dev, n);\n  assert {:msg \"left held\"} !$is_held($M, dev);\n}\n";

/// The program of a text, which has no fault.
pub fn program(alloc: Global, text: &[u8]) -> Result<Prog, AllocError> {
    let Ok(found) = tokens(alloc, text) else {
        return Err(AllocError);
    };
    let Ok(tree) = parse(alloc, text, found.as_slice()) else {
        return Err(AllocError);
    };
    typed_program(alloc, &tree)
}

fn typed_program(alloc: Global, tree: &Ast) -> Result<Prog, AllocError> {
    checked_programs_are_typed();
    match check(alloc, tree) {
        Ok(typed) => lowered(alloc, &typed),
        Err(_) => Err(AllocError),
    }
}

fn lowered(alloc: Global, typed: &Typed) -> Result<Prog, AllocError>
    requires { IsTrue (is_typed typed.now) }
{
    match lower(alloc, typed) {
        Ok(prog) => Ok(prog),
        Err(_) => Err(AllocError),
    }
}

// `e` for what is assumed, with `!` behind it where it is a negation.
fn show_assumed(text: &mut String, expr: &Expr) -> Result<(), AllocError> {
    let is_negation = matches!(expr.nodes().last(), Some(ExprNode::Unary { .. }));
    text.push_str(if is_negation { " e!" } else { " e" })
}

// `a` and the number of an assert, `call` and the number of the procedure.
fn show_command(alloc: Global, text: &mut String, cmd: &Cmd) -> Result<(), AllocError> {
    match cmd {
        Cmd::Assert { number, .. } => text.push_str(&format!(in alloc; " a{number}")?),
        Cmd::Assume(expr) => show_assumed(text, expr),
        Cmd::Assign(_) => text.push_str(" :="),
        Cmd::Havoc(_) => text.push_str(" havoc"),
        Cmd::Call { proc, .. } => text.push_str(&format!(in alloc; " call {proc}")?),
    }
}

fn show_targets(alloc: Global, text: &mut String, targets: &[u32]) -> Result<(), AllocError> {
    text.push_str(" ->")?;
    for target in targets {
        text.push_str(&format!(in alloc; " {target}")?)?;
    }
    Ok(())
}

fn show_block(alloc: Global, text: &mut String, block: &SrcBlock) -> Result<(), AllocError> {
    for cmd in block.cmds.as_slice() {
        show_command(alloc, text, cmd)?;
    }
    match &block.next {
        Next::Goto(targets) => show_targets(alloc, text, targets.as_slice()),
        Next::Return => text.push_str(" return"),
    }
}

// The blocks of a procedure, and its loops.
fn show_proc(alloc: Global, text: &mut String, proc: &SrcProc) -> Result<(), AllocError> {
    for (number, block) in proc.blocks.as_slice().iter().enumerate() {
        text.push_str(&format!(in alloc; "{number}:")?)?;
        show_block(alloc, text, block)?;
        text.push_str("\n")?;
    }
    for span in proc.loops.as_slice() {
        text.push_str(&format!(in alloc; "{}..{}\n", span.head, span.exit)?)?;
    }
    Ok(())
}

// The same of each procedure that has a body.
fn listing(alloc: Global, text: &[u8]) -> Result<String, AllocError> {
    let prog = program(alloc, text)?;
    let mut shown = String::new(alloc);
    for proc in prog.procs() {
        show_proc(alloc, &mut shown, proc)?;
    }
    Ok(shown)
}

#[test]
fn a_loop_has_a_head_a_body_and_an_exit(rt: HostRuntime) -> Result<(), Fail> {
    let shown = listing(rt.alloc(), COUNTED)?;
    assert_eq!(rt;
        shown.as_str(),
        "0: := -> 1\n1: -> 2 3\n2: e := -> 1\n3: e! a1 return\n1..3\n"
    );
    Ok(())
}

#[test]
fn a_branch_calls_its_procedure(rt: HostRuntime) -> Result<(), Fail> {
    let shown = listing(rt.alloc(), RECURSIVE)?;
    assert_eq!(rt;
        shown.as_str(),
        "0: := := -> 1\n1: -> 2 6\n2: e a1 -> 3 4\n3: e call 0 -> 5\n4: e! -> 5\n5: := -> 1\n6: e! return\n1..6\n0: := call 0 return\n"
    );
    Ok(())
}

#[test]
fn a_loop_in_a_loop_lies_within_it(rt: HostRuntime) -> Result<(), Fail> {
    let shown = listing(rt.alloc(), NESTED)?;
    assert_eq!(rt;
        shown.as_str(),
        "0: := := -> 1\n1: -> 2 6\n2: e := -> 3\n3: -> 4 5\n4: e := -> 3\n5: e! := -> 1\n6: e! a1 return\n1..6\n3..5\n"
    );
    Ok(())
}

#[test]
fn a_driver_becomes_six_procedures(rt: HostRuntime) -> Result<(), Fail> {
    let shown = listing(rt.alloc(), DRIVER)?;
    assert_eq!(rt;
        shown.as_str(),
        "0: a1 := return\n0: a1 := return\n0: havoc := return\n0: call 0 := -> 1 2\n1: e call 1 -> 3\n2: e! -> 3\n3: call 1 return\n0: := -> 1\n1: -> 2 3\n2: e := call 3 := -> 1\n3: e! return\n1..3\n0: e := := := call 2 e call 4 a1 return\n"
    );
    Ok(())
}

// The head of a loop, its blocks, and `in` with the place of the loop around it.
fn show_loop(alloc: Global, text: &mut String, shown: &Loop) -> Result<(), AllocError> {
    text.push_str(&format!(in alloc; "{}:", shown.head)?)?;
    for block in shown.blocks.as_slice() {
        text.push_str(&format!(in alloc; " {block}")?)?;
    }
    if let Some(outer) = shown.outer {
        text.push_str(&format!(in alloc; " in {outer}")?)?;
    }
    text.push_str("\n")
}

// The loops of the procedure of this name.
fn loops(alloc: Global, text: &[u8], name: &str) -> Result<String, AllocError> {
    let prog = program(alloc, text)?;
    let Some(number) = prog.find(&Text::from_str(alloc, name)?) else {
        return Err(AllocError);
    };
    let found = nest(alloc, &prog, number)?;
    let mut shown = String::new(alloc);
    for one in found.loops() {
        show_loop(alloc, &mut shown, one)?;
    }
    Ok(shown)
}

// Each with its loops, as they stand by the rules of flow.
const LOOPS: [(&[u8], &str, &str); 15] = [
    (COUNTED, "main", "1: 1 2\n"),
    (RECURSIVE, "p", "1: 1 2 3 4 5\n"),
    (RECURSIVE, "main", ""),
    (NESTED, "main", "1: 1 2 3 4 5\n3: 3 4 in 0\n"),
    (DRIVER, "handle", "1: 1 2\n"),
    (DRIVER, "irq", ""),
    // three loops, each in the one before
    (
        b"procedure main() { while (*) { while (*) { while (*) { } } } }",
        "main",
        "1: 1 2 3 4 5 6 7 8\n3: 3 4 5 6 7 in 0\n5: 5 6 in 1\n",
    ),
    // two loops side by side in a third one
    (
        b"procedure main() { while (*) { while (*) { } while (*) { } } }",
        "main",
        "1: 1 2 3 4 5 6 7 8\n3: 3 4 in 0\n6: 6 7 in 0\n",
    ),
    // a loop behind two that end at once
    (
        b"procedure main() { while (*) { while (*) { while (*) { } } while (*) { } } }",
        "main",
        "1: 1 2 3 4 5 6 7 8 9 10 11\n3: 3 4 5 6 7 in 0\n5: 5 6 in 1\n9: 9 10 in 0\n",
    ),
    // a loop without a back edge
    (
        b"procedure main() { while (*) { return; } }",
        "main",
        "1: 1 2\n",
    ),
    // a block of the loop that is not reached
    (
        b"procedure main() { while (*) { return; assert false; } }",
        "main",
        "1: 1 2\n",
    ),
    // loops that are not reached
    (b"procedure main() { return; while (*) { } }", "main", ""),
    (
        b"procedure main() { goto out; while (*) { while (*) { } } out: return; }",
        "main",
        "",
    ),
    // a loop that holds one that is not reached and one that is
    (
        b"procedure main() { while (*) { goto on; while (*) { } on: while (*) { } } }",
        "main",
        "1: 1 2 7 8 9 10\n8: 8 9 in 0\n",
    ),
    // a loop that only the last target reaches
    (
        b"procedure main() { goto a, b; a: return; b: while (*) { } }",
        "main",
        "3: 3 4\n",
    ),
];

#[test]
fn loops_have_their_reached_blocks(rt: HostRuntime) -> Result<(), Fail> {
    for (text, name, want) in LOOPS {
        let shown = loops(rt.alloc(), text, name)?;
        assert_eq!(rt; shown.as_str(), want);
    }
    Ok(())
}
