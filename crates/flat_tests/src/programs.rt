//! The texts of the tests' programs, and the programs that they are.
ghost use Rattle.std.specs.Prelude.{IsTrue};
ghost use Rattle.bpl_type.specs.WellTyped.{is_typed};

use bpl_ast::Ast;
use bpl_flow::lower;
use bpl_parse::parse;
use bpl_tok::tokens;
use bpl_type::{Typed, check, checked_programs_are_typed};
use src_prog::Prog;
use std::alloc::{AllocError, Global};

/// A loop that counts to three.
pub const COUNTED: &[u8] =
    b"function {:bvbuiltin \"bvadd\"} ADD(a: bv8, b: bv8) returns (r: bv8);\nprocedure main() {\n  var i: bv8;\n  i := 0bv8;\n  while (i != 3bv8) { i := ADD(i, 1bv8); }\n  assert false;\n}\n";

/// A procedure that calls itself from a branch inside a loop.
pub const RECURSIVE: &[u8] =
    b"function {:bvbuiltin \"bvadd\"} ADD(a: bv8, b: bv8) returns (r: bv8);\nvar d: bv8;\nprocedure p() modifies d; {\n  var i: bv8;\n  d := ADD(d, 1bv8);\n  i := 0bv8;\n  while (i != 3bv8) {\n    assert d != 2bv8;\n    if (i == 2bv8) { call p(); }\n    i := ADD(i, 1bv8);\n  }\n}\nprocedure main() modifies d; { d := 0bv8; call p(); }\n";

/// A loop in a loop.
pub const NESTED: &[u8] =
    b"function {:bvbuiltin \"bvadd\"} ADD(a: bv8, b: bv8) returns (r: bv8);\nprocedure main() {\n  var i, j, n: bv8;\n  i := 0bv8; n := 0bv8;\n  while (i != 2bv8) {\n    j := 0bv8;\n    while (j != 2bv8) { j, n := ADD(j, 1bv8), ADD(n, 1bv8); }\n    i := ADD(i, 1bv8);\n  }\n  assert n != 4bv8;\n}\n";

/// A recursion whose third frame fails.
pub const DEEP: &[u8] =
    b"function {:bvbuiltin \"bvadd\"} ADD(a: bv8, b: bv8) returns (r: bv8);\nprocedure r(n: bv8) { assert n != 2bv8; call r(ADD(n, 1bv8)); }\nprocedure main() { call r(0bv8); }\n";

/// A goto that names a block twice.
pub const TWICE: &[u8] = b"procedure main() { goto A, A; A: assert false; }\n";

/// A goto with one target.
pub const ONCE: &[u8] = b"procedure main() { goto A; A: assert false; }\n";

/// A loop that is left at its head and by a break.
pub const BROKEN: &[u8] =
    b"procedure main() {\n  var b: bool;\n  while (*) { if (b) { break; } havoc b; }\n  assert false;\n}\n";

/// A loop that is left at its head and by a return, and never goes round.
pub const RETURNED: &[u8] = b"procedure main() { while (*) { return; } assert false; }\n";

/// A loop in a procedure with an in, an out and a local.
pub const CARRIED: &[u8] =
    b"procedure q(a: bool) returns (r: bv8) { var m: bv8; while (a) { r := m; } }\n";

/// Two constants, and two globals, of which some procedures change one, and a loop whose body alone changes both.
pub const CHANGED: &[u8] =
    b"const c: bool;\nconst unique k: bv8;\naxiom c;\nvar g, h: bv8;\nprocedure reads() { var x: bv8; x := g; }\nprocedure takes() returns (r: bv8) { r := h; }\nprocedure gives() modifies g; { call g := takes(); }\nprocedure havocs() modifies h; { havoc h; }\nprocedure loops() modifies g, h; { while (*) { call gives(); h := g; } call reads(); }\n";

/// The program of a text, which has no fault.
pub fn program(alloc: Global, text: &[u8]) -> Result<Prog, AllocError> {
    let Ok(found) = tokens(alloc, text) else {
        return Err(AllocError);
    };
    let Ok(tree) = parse(alloc, text, found.as_slice()) else {
        return Err(AllocError);
    };
    typed_program(alloc, &tree)
}

fn typed_program(alloc: Global, tree: &Ast) -> Result<Prog, AllocError> {
    checked_programs_are_typed();
    match check(alloc, tree) {
        Ok(typed) => lowered(alloc, &typed),
        Err(_) => Err(AllocError),
    }
}

fn lowered(alloc: Global, typed: &Typed) -> Result<Prog, AllocError>
    requires { IsTrue (is_typed typed.now) }
{
    match lower(alloc, typed) {
        Ok(prog) => Ok(prog),
        Err(_) => Err(AllocError),
    }
}
