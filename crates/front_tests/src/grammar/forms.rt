//! Each alternative of the grammar, and the trees of operators.

use super::fault_of;
use bpl_ast::{Ast, Decl, Expr};
use bpl_parse::parse;
use bpl_tok::tokens;
use std::test::Fail;

const DECLARATIONS: [&[u8]; 24] = [
    b"",
    b"type T = [bv8] (bool);",
    b"type {:x} U = T;",
    b"const {:x \"s\" 3 +} a, b: bv064;",
    b"const unique c: T;",
    b"function f(): bool;",
    b"function {:bvbuiltin \"bvadd\"} g(x: bv8, bv8, T) returns (r: bv8);",
    b"function h(x: bool) returns (bool) { x }",
    b"function k([T] U): bv8 { 1bv8 }",
    b"axiom {:x} a == b;",
    b"axiom true && false && (a);",
    b"axiom a || b || c;",
    b"axiom a ==> b ==> c;",
    b"axiom a ==> b <== c;",
    b"axiom a <== b <== c;",
    b"axiom a <==> b <==> c;",
    b"axiom a ++ b != !c;",
    b"axiom if a then b else if c then d else e;",
    b"axiom m[a][b := c][7:0] == f() && g(a, (b));",
    b"var {:x} x, y: bv8, z: T;",
    b"procedure p();",
    b"procedure {:x} q(a, b: bool, {:y} c: T) returns (r: bool); modifies; modifies {:x} x, y;",
    b"procedure p() returns () modifies x; { }",
    b"implementation {:x} p(a: b) returns (r: c) { var l: bool, m: T; var n: bv8; }",
];

const STATEMENTS: [&[u8]; 18] = [
    b"procedure p() { start: }",
    b"procedure p() { assert {:x} a; }",
    b"procedure p() { assume a; }",
    b"procedure p() { havoc {:x} x, y; }",
    b"procedure p() { goto a, b; }",
    b"procedure p() { return {:x}; }",
    b"procedure p() { break; }",
    b"procedure p() { break {:x} a; }",
    b"procedure p() { x := a; }",
    b"procedure p() { x[a], y, z[b] := c, d, e; }",
    b"procedure p() { call p(); }",
    b"procedure p() { call {:x} p(a, b); }",
    b"procedure p() { call x, y := p(a); }",
    b"procedure p() { if (*) { } }",
    b"procedure p() { if {:x} (a) { return; } else { } }",
    b"procedure p() { if (a) { } else if (b) { } else { x := a; } }",
    b"procedure p() { while (*) { } }",
    b"procedure p() { while {:x} (a) invariant b; free invariant {:y} c; { break; } }",
];

#[test]
fn declarations_are_read(rt: HostRuntime) -> Result<(), Fail> {
    for source in DECLARATIONS {
        let told = fault_of(rt.alloc(), source)?;
        assert!(rt; told.is_none());
    }
    Ok(())
}

#[test]
fn statements_are_read(rt: HostRuntime) -> Result<(), Fail> {
    for source in STATEMENTS {
        let told = fault_of(rt.alloc(), source)?;
        assert!(rt; told.is_none());
    }
    Ok(())
}

// The condition of a program that is one axiom.
fn condition(tree: &Ast) -> Option<&Expr> {
    match tree.decls.as_slice() {
        [Decl::Axiom(axiom)] => Some(&axiom.condition),
        _ => None,
    }
}

fn is_variable(expr: &Expr) -> bool {
    matches!(expr, Expr::Variable { .. })
}

// Whether the implication at 6 has another at 12 as its right side.
fn nests_at_the_right(expr: &Expr) -> bool {
    match expr {
        Expr::Implies { at, left, right } => {
            *at == 6
                && is_variable(left.get())
                && matches!(right.get(), Expr::Implies { at: 12, .. })
        }
        _ => false,
    }
}

// Whether the chain at 6 has three operands, and the first is a variable.
fn is_one_chain(expr: &Expr) -> bool {
    match expr {
        Expr::ImpliedBy { at, operands } => {
            *at == 6 && operands.len() == 3 && operands.get(0).is_some_and(is_variable)
        }
        _ => false,
    }
}

// `==>` groups from the right.
#[test]
fn implications_nest_at_the_right(rt: HostRuntime) -> Result<(), Fail> {
    let source = b"axiom a ==> b ==> c;".as_slice();
    let tokens = tokens(rt.alloc(), source)?;
    let tree = parse(rt.alloc(), source, tokens.as_slice())?;
    assert!(rt; condition(&tree).is_some_and(nests_at_the_right));
    Ok(())
}

// A chain is one node. It begins at the parenthesis of its first operand, which leaves no node.
#[test]
fn chains_are_one_node(rt: HostRuntime) -> Result<(), Fail> {
    let source = b"axiom (a) <== b <== c;".as_slice();
    let tokens = tokens(rt.alloc(), source)?;
    let tree = parse(rt.alloc(), source, tokens.as_slice())?;
    assert!(rt; condition(&tree).is_some_and(is_one_chain));
    Ok(())
}
