//! Where the grammar stops, at tokens that are no form that is left out, and at the end.

use super::fault_of;
use bpl_ast::Word;
use bpl_parse::{ParseFault, ParseKind};
use std::test::Fail;

const SPECS_AND_OPERANDS: [(&[u8], usize, ParseKind); 22] = [
    (b"procedure p(); free a;", 15, ParseKind::Unexpected),
    (b"procedure p(); free", 15, ParseKind::Unexpected),
    (
        b"procedure p() { while (*) free requires a; { } }",
        31,
        ParseKind::Unexpected,
    ),
    (
        b"implementation p() requires a; { }",
        19,
        ParseKind::Unexpected,
    ),
    (b"procedure p() { } requires a;", 18, ParseKind::Unexpected),
    (b"procedure p() { call q<a>(); }", 22, ParseKind::Unexpected),
    (
        b"procedure p() { call x := forall q(); }",
        26,
        ParseKind::Unexpected,
    ),
    (b"procedure p() { x + 1 := a; }", 18, ParseKind::Unexpected),
    (
        b"procedure p() { if (* + a) { } }",
        22,
        ParseKind::Unexpected,
    ),
    (b"var x: a + b;", 9, ParseKind::Unexpected),
    (b"axiom x[7:0 + 1];", 12, ParseKind::Unexpected),
    (b"axiom + a;", 6, ParseKind::Unexpected),
    (b"axiom * a;", 6, ParseKind::Unexpected),
    (b"axiom / a;", 6, ParseKind::Unexpected),
    (b"axiom % a;", 6, ParseKind::Unexpected),
    (b"axiom div a;", 6, ParseKind::Unexpected),
    (b"axiom mod a;", 6, ParseKind::Unexpected),
    (b"axiom x[7:0, a];", 11, ParseKind::Unexpected),
    (b"axiom m[a := b, c];", 14, ParseKind::Unexpected),
    (b"axiom a <== b ==> c;", 14, ParseKind::Unexpected),
    (b"axiom a && b || c;", 13, ParseKind::Unexpected),
    (b"axiom a == b == c;", 13, ParseKind::Unexpected),
];

const NAMES_AND_ENDS: [(&[u8], usize, ParseKind); 18] = [
    (b"var bv0: a;", 4, ParseKind::Unexpected),
    (b"axiom {:where} a;", 8, ParseKind::Unexpected),
    (b"axiom {:x {y}} a;", 10, ParseKind::Unexpected),
    (b"procedure p(a, {:x} b: bool);", 15, ParseKind::Unexpected),
    (b"procedure p(a: b, );", 18, ParseKind::Unexpected),
    (b"procedure p() { goto ; }", 21, ParseKind::Unexpected),
    (b"axiom a; b", 9, ParseKind::Unexpected),
    (b"axiom if;", 8, ParseKind::Unexpected),
    (
        b"procedure p() { x: a := b := c; }",
        26,
        ParseKind::Unexpected,
    ),
    (b"type C = ;", 9, ParseKind::Unexpected),
    (b"const unique;", 12, ParseKind::Unexpected),
    (b"function f(a: b: c): d;", 15, ParseKind::Unexpected),
    (b"axiom a", 7, ParseKind::EndTooSoon),
    (b"axiom a // b", 12, ParseKind::EndTooSoon),
    (b"procedure p() { ", 16, ParseKind::EndTooSoon),
    (b"procedure p(a: b", 16, ParseKind::EndTooSoon),
    (b"type C =", 8, ParseKind::EndTooSoon),
    (b"axiom x[", 8, ParseKind::EndTooSoon),
];

const NUMBERS_AND_NAMES: [(&[u8], usize, Word); 5] = [
    (b"axiom x[7", 8, Word::Integer),
    (b"axiom x[7];", 8, Word::Integer),
    (b"procedure p() { x[7:0] := a; }", 18, Word::Integer),
    (b"axiom f<a>(b);", 7, Word::Order),
    (b"type finite C;", 12, Word::TypeConstructor),
];

#[test]
fn specs_and_operands_stop(rt: HostRuntime) -> Result<(), Fail> {
    for (source, at, kind) in SPECS_AND_OPERANDS {
        let told = fault_of(rt.alloc(), source)?;
        assert!(rt; told == Some(ParseFault { at, kind }), "at {at}");
    }
    Ok(())
}

#[test]
fn names_and_ends_stop(rt: HostRuntime) -> Result<(), Fail> {
    for (source, at, kind) in NAMES_AND_ENDS {
        let told = fault_of(rt.alloc(), source)?;
        assert!(rt; told == Some(ParseFault { at, kind }), "at {at}");
    }
    Ok(())
}

// A number that no colon follows is an operand.
#[test]
fn numbers_and_names_are_left_out(rt: HostRuntime) -> Result<(), Fail> {
    for (source, at, what) in NUMBERS_AND_NAMES {
        let kind = ParseKind::LeftOut { what };
        let told = fault_of(rt.alloc(), source)?;
        assert!(rt; told == Some(ParseFault { at, kind }), "{what:?} at {at}");
    }
    Ok(())
}
