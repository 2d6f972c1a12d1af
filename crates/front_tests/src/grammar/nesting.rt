//! Phrases that nest as deep as they may, and one level deeper.

use super::fault_of;
use bpl_parse::{ParseFault, ParseKind};
use std::alloc::{AllocError, Global};
use std::test::Fail;

// A middle with a front and a back so many times around it, between what stands before and after.
fn nested(
    alloc: Global,
    levels: usize,
    [before, front, middle, back, after]: [&[u8]; 5],
) -> Result<Vec<u8>, AllocError> {
    let mut text = Vec::from_slice(alloc, before)?;
    for _ in 0..levels {
        text.extend_from_slice(front)?;
    }
    text.extend_from_slice(middle)?;
    for _ in 0..levels {
        text.extend_from_slice(back)?;
    }
    text.extend_from_slice(after)?;
    Ok(text)
}

// The parts of a text, how many times it may nest, and where a level more is told.
const EXPRESSIONS_AND_SORTS: [([&[u8]; 5], usize, usize); 10] = [
    ([b"axiom ", b"(", b"a", b")", b";"], 200, 206),
    ([b"axiom ", b"f(", b"a", b")", b";"], 200, 407),
    ([b"axiom ", b"m[", b"a", b"]", b";"], 200, 407),
    ([b"axiom ", b"!", b"a", b"", b";"], 200, 206),
    ([b"axiom ", b"if ", b"a", b" then b else c", b";"], 200, 606),
    ([b"axiom ", b"a ==> ", b"b", b"", b";"], 200, 1208),
    ([b"axiom ", b"(", b"a[8:7]", b")", b";"], 199, 207),
    ([b"var x: ", b"(", b"a", b")", b";"], 200, 207),
    ([b"var x: ", b"[a]", b"b", b"", b";"], 200, 607),
    ([b"var x: ", b"[", b"a", b"]b", b";"], 200, 207),
];

const STATEMENTS_AND_HEADS: [([&[u8]; 5], usize, usize); 8] = [
    (
        [b"procedure p() { ", b"if (*) {", b"", b"}", b" }"],
        200,
        1623,
    ),
    (
        [b"procedure p() { ", b"while (*) {", b"", b"}", b" }"],
        200,
        2226,
    ),
    (
        [
            b"procedure p() { if (*) { }",
            b" else if (*) { }",
            b"",
            b"",
            b" }",
        ],
        199,
        3223,
    ),
    (
        [b"procedure p() { call p(", b"(", b"a", b")", b"); }"],
        199,
        222,
    ),
    (
        [b"procedure p() { x[", b"(", b"a", b")", b"] := b; }"],
        199,
        217,
    ),
    (
        [b"procedure p() { if (", b"(", b"a", b")", b") { } }"],
        200,
        220,
    ),
    ([b"procedure p(x: ", b"(", b"a", b")", b");"], 200, 215),
    ([b"function f(x: ", b"(", b"a", b")", b"): b;"], 200, 214),
];

#[test]
fn expressions_and_sorts_nest(rt: HostRuntime) -> Result<(), Fail> {
    let kind = ParseKind::TooDeep;
    for (parts, most, at) in EXPRESSIONS_AND_SORTS {
        let deepest = nested(rt.alloc(), most, parts)?;
        let deeper = nested(rt.alloc(), most + 1, parts)?;
        assert!(rt; fault_of(rt.alloc(), deepest.as_slice())?.is_none());
        assert!(rt; fault_of(rt.alloc(), deeper.as_slice())? == Some(ParseFault { at, kind }));
    }
    Ok(())
}

#[test]
fn statements_and_heads_nest(rt: HostRuntime) -> Result<(), Fail> {
    let kind = ParseKind::TooDeep;
    for (parts, most, at) in STATEMENTS_AND_HEADS {
        let deepest = nested(rt.alloc(), most, parts)?;
        let deeper = nested(rt.alloc(), most + 1, parts)?;
        assert!(rt; fault_of(rt.alloc(), deepest.as_slice())?.is_none());
        assert!(rt; fault_of(rt.alloc(), deeper.as_slice())? == Some(ParseFault { at, kind }));
    }
    Ok(())
}
