//! What the program prints on files and words.

mod replaying;

use super::*;
use hy_outside::{MemShelf, MemSink, Turn};
use hy_text::{Bytes, Text};
use std::alloc::{AllocError, Global};
use std::test::Fail;

const ASSERTED: &[u8] = b"var b: bool;\nprocedure main() { assert b; }\n";

const ASSUMED: &[u8] = b"var b: bool;\nprocedure main() { assume b; assert b; }\n";

const GROUPED: &[u8] =
    b"var {:x 1} a, b: bool, c: bool; // three\nprocedure {:p} main() { assume {:s} !a; assert /* a */ !(!(!a)); assert b; }";

const FALSE: &[u8] = b"procedure main() { assert false; assume false; }\n";

// An axiom in 200 pairs of parentheses.
const WITHIN: &[u8] =
    b"axiom ((((((((((((((((((((((((((((((((((((((((((((((((((((((((((((((((((((((((((((((((((((((((((((((((((((((((((((((((((((((((((((((((((((((((((((((((((((((((((((((((((((((((((((((((((((((((((((((((((((((((true))))))))))))))))))))))))))))))))))))))))))))))))))))))))))))))))))))))))))))))))))))))))))))))))))))))))))))))))))))))))))))))))))))))))))))))))))))))))))))))))))))))))))))))))))))))))))))))))))))))));";

// Runs the words on a shelf with the one file `f`.
fn run(
    alloc: Global,
    words: &[&str],
    bytes: &[u8],
    shelf_turns: &[Turn],
    room: usize,
    sink_turns: &[Turn],
) -> Result<(u8, MemSink), AllocError> {
    let mut texts = Vec::new(alloc);
    for word in words {
        texts.push(Text::from_str(alloc, word)?)?;
    }
    let name = Text::from_str(alloc, "f")?;
    let content = Bytes::from_slice(alloc, bytes)?;
    let files = vec![in alloc; (name, content)]?;
    let mut shelf = MemShelf::new(alloc, files, Vec::from_slice(alloc, shelf_turns)?);
    let mut out = MemSink::new(alloc, room, Vec::from_slice(alloc, sink_turns)?)?;
    let report = run_solo(alloc, texts.as_slice(), &mut shelf, &mut out);
    Ok((report.status, out))
}

#[test]
fn outcomes_are_printed(rt: HostRuntime) -> Result<(), Fail> {
    let missing: &[u8] = b"refused: no entry main\n";
    let cases: [(&str, &[u8], u8, &[u8]); 8] = [
        ("main", ASSERTED, 10, b"Bug\nv b false\nfails main 1\n"),
        ("main", ASSUMED, 0, b"Safe\n"),
        (
            "main",
            GROUPED,
            10,
            b"Bug\nv a false\nv b false\nv c false\nfails main 2\n",
        ),
        ("main", FALSE, 10, b"Bug\nfails main 1\n"),
        ("main", b"", 3, missing),
        ("p q", ASSUMED, 3, b"refused: no entry p q\n"),
        ("main", b"var b: bv8;", 3, missing),
        (
            "main",
            b"var b: bv8; procedure main() { }",
            3,
            b"refused: not built\n",
        ),
    ];
    let reads = [Turn::All, Turn::AtMost(1), Turn::AtMost(2)];
    let writes = [Turn::AtMost(2), Turn::AtMost(1)];
    for (entry, bytes, status, printed) in cases {
        let words = ["solo", "f", entry, "1"];
        let (ended, out) = run(rt.alloc(), &words, bytes, &reads, 100, &writes)?;
        assert_eq!(rt; ended, status);
        assert_eq!(rt; out.held(), printed);
    }
    Ok(())
}

#[test]
fn trees_are_shown(rt: HostRuntime) -> Result<(), Fail> {
    let cases: [(&[u8], u8, &[u8]); 4] = [
        (
            b"var b:bool;procedure main(){assert ((b));}",
            0,
            b"var b : bool ;\nprocedure main ( ) {\nassert b ;\n}\n",
        ),
        (WITHIN, 0, b"axiom true ;\n"),
        (b"", 0, b""),
        (b"var x: int;", 3, b"refused: parse 7 left out integer\n"),
    ];
    for (bytes, status, printed) in cases {
        let (ended, out) = run(rt.alloc(), &["show", "f"], bytes, &[], 100, &[])?;
        assert_eq!(rt; ended, status);
        assert_eq!(rt; out.held(), printed);
    }
    Ok(())
}

#[test]
fn words_are_read(rt: HostRuntime) -> Result<(), Fail> {
    let safe: &[u8] = b"Safe\n";
    let cases: [(&[&str], u8, &[u8]); 6] = [
        (&["show", "g"], 4, b"fault: read\n"),
        (&["solo", "g", "main", "1"], 4, b"fault: read\n"),
        (&["solo", "f", "main", "1000"], 0, safe),
        (
            &["solo", "f", "main", "00000000000000000000000001"],
            0,
            safe,
        ),
        (
            &["solo", "f", "--grain", "1"],
            3,
            b"refused: no entry --grain\n",
        ),
        (&["show", "--journal"], 4, b"fault: read\n"),
    ];
    for (words, status, printed) in cases {
        let (ended, out) = run(rt.alloc(), words, ASSUMED, &[], 100, &[])?;
        assert_eq!(rt; ended, status);
        assert_eq!(rt; out.held(), printed);
    }
    Ok(())
}

#[test]
fn wrong_words_are_named(rt: HostRuntime) -> Result<(), Fail> {
    let cases: [(&[&str], &[u8]); 21] = [
        (&[], b"refused: word 0 missing\n"),
        (&["check"], b"refused: word 1 missing\n"),
        (
            &["check", "a", "main", "0", "1"],
            b"refused: word 3 out of range\n",
        ),
        (
            &["check", "a", "main", "1001", "1"],
            b"refused: word 3 out of range\n",
        ),
        (
            &["check", "a", "main", "1", "0"],
            b"refused: word 4 out of range\n",
        ),
        (
            &["check", "a", "main", "1", "65"],
            b"refused: word 4 out of range\n",
        ),
        (
            &["check", "a", "main", "x", "1"],
            b"refused: word 3 not number\n",
        ),
        (
            &[
                "check", "a", "main", "1", "2", "--grain", "2", "--grain", "3",
            ],
            b"refused: word 7 repeated\n",
        ),
        (
            &["check", "a", "main", "1", "2", "--grain"],
            b"refused: word 6 missing\n",
        ),
        (
            &["solo", "a", "main", "1", "extra"],
            b"refused: word 4 unexpected\n",
        ),
        (&["--help"], b"refused: word 0 unexpected\n"),
        (&["show"], b"refused: word 1 missing\n"),
        (&["show", "f", "main"], b"refused: word 2 unexpected\n"),
        (&["solo", "f", "main"], b"refused: word 3 missing\n"),
        (
            &["solo", "f", "main", "0"],
            b"refused: word 3 out of range\n",
        ),
        (
            &["solo", "f", "main", "1001"],
            b"refused: word 3 out of range\n",
        ),
        (
            &["solo", "f", "main", "18446744073709551617"],
            b"refused: word 3 out of range\n",
        ),
        (
            &["solo", "f", "main", "+1"],
            b"refused: word 3 not number\n",
        ),
        (&["solo", "f", "main", ""], b"refused: word 3 not number\n"),
        (&["gen", "7", "0", "2"], b"refused: word 2 out of range\n"),
        (&["replay", "f", "main", "1"], b"refused: word 4 missing\n"),
    ];
    for (words, printed) in cases {
        let (ended, out) = run(rt.alloc(), words, ASSUMED, &[], 100, &[])?;
        assert_eq!(rt; ended, 2);
        assert_eq!(rt; out.held(), printed);
    }
    Ok(())
}

#[test]
fn commands_that_are_not_built_are_told(rt: HostRuntime) -> Result<(), Fail> {
    let cases: [&[&str]; 4] = [
        &["check", "f", "main", "1", "1"],
        &["gen", "7", "6", "2"],
        &["solo", "f", "main", "1", "--grain", "16"],
        &["solo", "f", "main", "1", "--journal"],
    ];
    for words in cases {
        let (ended, out) = run(rt.alloc(), words, ASSUMED, &[], 100, &[])?;
        assert_eq!(rt; ended, 3);
        assert_eq!(rt; out.held(), b"refused: not built\n".as_slice());
    }
    Ok(())
}

#[test]
fn faults_are_told(rt: HostRuntime) -> Result<(), Fail> {
    let words = ["solo", "f", "main", "1"];
    let cut = [Turn::All, Turn::AtMost(4), Turn::Fail];
    let (ended, out) = run(rt.alloc(), &words, ASSUMED, &cut, 100, &[])?;
    assert_eq!(rt; ended, 4);
    assert_eq!(rt; out.held(), b"fault: read\n".as_slice());
    let cases: [(usize, &[Turn], &[u8]); 3] = [
        (100, &[Turn::AtMost(3), Turn::Fail], b"Saf"),
        (100, &[Turn::AtMost(0)], b""),
        (3, &[], b"Saf"),
    ];
    for (room, turns, held) in cases {
        let (ended, out) = run(rt.alloc(), &words, ASSUMED, &[], room, turns)?;
        assert_eq!(rt; ended, 5);
        assert_eq!(rt; out.held(), held);
    }
    Ok(())
}
