//! Each row of the table of what is left out.

use super::fault_of;
use bpl_ast::Word;
use bpl_parse::{ParseFault, ParseKind};
use std::test::Fail;

const OPERATORS_AND_SORTS: [(&[u8], usize, Word); 24] = [
    (b"var x: int;", 7, Word::Integer),
    (b"axiom 7;", 6, Word::Integer),
    (b"var x: real;", 7, Word::Real),
    (b"axiom a + b;", 8, Word::Arithmetic),
    (b"axiom a - b;", 8, Word::Arithmetic),
    (b"axiom a * b;", 8, Word::Arithmetic),
    (b"axiom a / b;", 8, Word::Arithmetic),
    (b"axiom a % b;", 8, Word::Arithmetic),
    (b"axiom a div b;", 8, Word::Arithmetic),
    (b"axiom a mod b;", 8, Word::Arithmetic),
    (b"axiom -a;", 6, Word::Arithmetic),
    (b"axiom a < b;", 8, Word::Order),
    (b"axiom a <= b;", 8, Word::Order),
    (b"axiom a > b;", 8, Word::Order),
    (b"axiom a >= b;", 8, Word::Order),
    (b"var x: <a> b;", 7, Word::Polymorphism),
    (b"function f<a>(x: a): b;", 10, Word::Polymorphism),
    (b"procedure p<a>();", 11, Word::Polymorphism),
    (b"implementation p<a>() { }", 16, Word::Polymorphism),
    (b"type C;", 6, Word::TypeConstructor),
    (b"type C a;", 7, Word::TypeConstructor),
    (b"var m: [a, b] c;", 9, Word::SeveralIndexes),
    (b"axiom m[a, b];", 9, Word::SeveralIndexes),
    (b"procedure p() { m[a, b] := c; }", 19, Word::SeveralIndexes),
];

const WORDS: [(&[u8], usize, Word); 27] = [
    (b"axiom (forall x: a :: b);", 7, Word::Quantifier),
    (b"axiom exists x: a :: b;", 6, Word::Quantifier),
    (b"procedure p() { call forall q(); }", 21, Word::Quantifier),
    (
        b"procedure p() { call {:x} exists q(); }",
        26,
        Word::Quantifier,
    ),
    (b"axiom (lambda x: a :: b);", 7, Word::Lambda),
    (b"var x: a where b;", 9, Word::Where),
    (b"var m: [a where b] c;", 10, Word::Where),
    (b"var x: (a where b);", 10, Word::Where),
    (b"const c: a where b;", 11, Word::Where),
    (b"type C = a where b;", 11, Word::Where),
    (b"function f(a where b): c;", 13, Word::Where),
    (b"function f(): c where b;", 16, Word::Where),
    (b"procedure p(a: b where c);", 17, Word::Where),
    (b"const c: a extends b;", 11, Word::Extends),
    (b"const c: a complete;", 11, Word::Extends),
    (b"procedure p() { async call q(); }", 16, Word::Concurrency),
    (
        b"procedure p() { var x: a; par q(); }",
        26,
        Word::Concurrency,
    ),
    (
        b"procedure p() { if (*) { yield; } }",
        25,
        Word::Concurrency,
    ),
    (b"procedure p(); requires a;", 15, Word::Contract),
    (b"procedure p() ensures a; { }", 14, Word::Contract),
    (b"procedure p(); free requires a;", 20, Word::Contract),
    (
        b"procedure p(); modifies x; free ensures a;",
        32,
        Word::Contract,
    ),
    (b"axiom old(a);", 6, Word::Old),
    (b"var x: bv0;", 7, Word::WideType),
    (b"var x: bv00;", 7, Word::WideType),
    (b"var x: bv65;", 7, Word::WideType),
    (b"var x: [bv065] a;", 8, Word::WideType),
];

#[test]
fn operators_and_sorts_are_left_out(rt: HostRuntime) -> Result<(), Fail> {
    for (source, at, what) in OPERATORS_AND_SORTS {
        let kind = ParseKind::LeftOut { what };
        let told = fault_of(rt.alloc(), source)?;
        assert!(rt; told == Some(ParseFault { at, kind }), "{what:?} at {at}");
    }
    Ok(())
}

#[test]
fn words_are_left_out(rt: HostRuntime) -> Result<(), Fail> {
    for (source, at, what) in WORDS {
        let kind = ParseKind::LeftOut { what };
        let told = fault_of(rt.alloc(), source)?;
        assert!(rt; told == Some(ParseFault { at, kind }), "{what:?} at {at}");
    }
    Ok(())
}
