//! Traces in a second file, and what is printed of them.

use super::*;

// A loop that counts to three.
const COUNTED: &[u8] =
    b"function {:bvbuiltin \"bvadd\"} ADD(a: bv8, b: bv8) returns (r: bv8);\nprocedure main() {\n  var i: bv8;\n  i := 0bv8;\n  while (i != 3bv8) { i := ADD(i, 1bv8); }\n  assert false;\n}\n";

// A recursion whose third frame fails.
const DEEP_CALLS: &[u8] =
    b"function {:bvbuiltin \"bvadd\"} ADD(a: bv8, b: bv8) returns (r: bv8);\nprocedure r(n: bv8) { assert n != 2bv8; call r(ADD(n, 1bv8)); }\nprocedure main() { call r(0bv8); }\n";

// The status and what is printed, where `f` has the program and `t` the trace.
fn replayed(
    alloc: Global,
    words: &[&str],
    program: &[u8],
    trace: &[u8],
    turns: &[Turn],
) -> Result<(u8, MemSink), AllocError> {
    let mut texts = Vec::new(alloc);
    for word in words {
        texts.push(Text::from_str(alloc, word)?)?;
    }
    let mut files = Vec::new(alloc);
    files.push((
        Text::from_str(alloc, "f")?,
        Bytes::from_slice(alloc, program)?,
    ))?;
    files.push((
        Text::from_str(alloc, "t")?,
        Bytes::from_slice(alloc, trace)?,
    ))?;
    let mut shelf = MemShelf::new(alloc, files, Vec::from_slice(alloc, turns)?);
    let mut out = MemSink::new(alloc, 100, Vec::new(alloc))?;
    let report = run_solo(alloc, texts.as_slice(), &mut shelf, &mut out);
    Ok((report.status, out))
}

#[test]
fn traces_of_one_choice_are_replayed(rt: HostRuntime) -> Result<(), Fail> {
    let words = ["replay", "f", "main", "1", "t"];
    let cases: [(&[u8], u8, &[u8]); 9] = [
        (b"Bug\nv b false\nfails main 1\n", 0, b"replayed main 1\n"),
        (b"Bug\nfails main 1\n", 3, b"refused: trace going 0\n"),
        (
            b"Bug\nv b 0bv1\nfails main 1\n",
            3,
            b"refused: trace choice 0\n",
        ),
        (
            b"Bug\nv b true\nfails main 1\n",
            3,
            b"refused: trace ended 1\n",
        ),
        (
            b"Bug\nv c false\nfails main 1\n",
            3,
            b"refused: trace line 2 differs\n",
        ),
        (
            b"Bug\nv b false\nfails main 2\n",
            3,
            b"refused: trace line 3 differs\n",
        ),
        (b"Bug\nv b false\n", 3, b"refused: trace line 3 no end\n"),
        (b"", 3, b"refused: trace line 1 no head\n"),
        (
            b"Bug\nv b  false\nfails main 1\n",
            3,
            b"refused: trace line 2 bad line\n",
        ),
    ];
    for (trace, status, printed) in cases {
        let (ended, out) = replayed(rt.alloc(), &words, ASSERTED, trace, &[])?;
        assert_eq!(rt; ended, status);
        assert_eq!(rt; out.held(), printed);
    }
    Ok(())
}

#[test]
fn traces_are_replayed_at_a_bound_and_below(rt: HostRuntime) -> Result<(), Fail> {
    let all: &[u8] = b"Bug\nv i 0bv8\ng 0\ng 0\ng 0\ng 1\nfails main 1\n";
    let cut: &[u8] = b"Bug\nv i 0bv8\ng 0\ng 0\ng 0\nfails main 1\n";
    let calls: &[u8] = b"Bug\nfails r 1\n";
    let cases: [(&[u8], &str, &[u8], u8, &[u8]); 5] = [
        (COUNTED, "3", all, 0, b"replayed main 1\n"),
        (COUNTED, "2", all, 3, b"refused: trace choice 4\n"),
        (COUNTED, "2", cut, 3, b"refused: trace cut 4\n"),
        (DEEP_CALLS, "3", calls, 0, b"replayed r 1\n"),
        (DEEP_CALLS, "2", calls, 3, b"refused: trace cut 0\n"),
    ];
    for (program, bound, trace, status, printed) in cases {
        let words = ["replay", "f", "main", bound, "t"];
        let (ended, out) = replayed(rt.alloc(), &words, program, trace, &[])?;
        assert_eq!(rt; ended, status);
        assert_eq!(rt; out.held(), printed);
    }
    Ok(())
}

#[test]
fn the_first_cause_is_told(rt: HostRuntime) -> Result<(), Fail> {
    let trace: &[u8] = b"Bug\nv b false\nfails main 1\n";
    let main = ["replay", "f", "main", "1", "t"];
    let other = ["replay", "f", "other", "1", "t"];
    let absent = ["replay", "f", "main", "1", "u"];
    let cut = [Turn::All, Turn::All, Turn::All, Turn::All, Turn::Fail];
    let cases: [(&[&str], &[u8], &[Turn], u8, &[u8]); 5] = [
        (
            &main,
            b"var x: int;",
            &[],
            3,
            b"refused: parse 7 left out integer\n",
        ),
        (&other, ASSERTED, &[], 3, b"refused: no entry other\n"),
        (&absent, ASSERTED, &[], 4, b"fault: read\n"),
        (&main, ASSERTED, &cut, 4, b"fault: read\n"),
        (&main, ASSERTED, &[Turn::Fail], 4, b"fault: read\n"),
    ];
    for (words, program, turns, status, printed) in cases {
        let (ended, out) = replayed(rt.alloc(), words, program, trace, turns)?;
        assert_eq!(rt; ended, status);
        assert_eq!(rt; out.held(), printed);
    }
    Ok(())
}

#[test]
fn a_printed_trace_is_replayed(rt: HostRuntime) -> Result<(), Fail> {
    let solo = ["solo", "f", "main", "1"];
    let (ended, out) = run(rt.alloc(), &solo, GROUPED, &[], 100, &[])?;
    assert_eq!(rt; ended, 10);
    let words = ["replay", "f", "main", "1", "t"];
    let (ended, again) = replayed(rt.alloc(), &words, GROUPED, out.held(), &[])?;
    assert_eq!(rt; ended, 0);
    assert_eq!(rt; again.held(), b"replayed main 2\n".as_slice());
    Ok(())
}
