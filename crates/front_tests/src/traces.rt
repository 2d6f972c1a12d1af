//! Traces that are read and written again, and the first fault of other texts.

use hy_text::{Bytes, Or};
use std::alloc::Global;
use std::test::Fail;
use trace_text::{TraceFault, TraceKind, read, write};

// What is read of a text, written again.
fn written_again(alloc: Global, text: &str) -> Result<Bytes, Or<TraceFault>> {
    let trace = read(alloc, text.as_bytes())?;
    let again = write(alloc, &trace)?;
    Ok(again)
}

#[test]
fn traces_are_read_and_written(rt: HostRuntime) -> Result<(), Fail> {
    let texts = [
        "Bug\nv b false\nfails main 1\n",
        "Bug\nv x 255bv8\nfails main 1\n",
        "Bug\nv i 0bv8\ng 0\ng 0\ng 0\ng 1\nfails main 1\n",
        "Bug\nv d 1bv8\nv i 2bv8\ng 0\ng 1\ng 0\ng 1\ng 0\ng 0\nv i 3bv8\ng 0\nfails p 1\n",
        "Bug\nv m [bool]bool{false:true,true:true}\nfails main 1\n",
        "Bug\nv lock [bv32]bv8{}\nv raw 2bv8\ng 0\ng 1\ng 0\ng 0\nfails release 1\n",
        "Bug\nfails main 1\n",
        "Bug\nv m [bv32]bv8{1bv32:2bv8,4294967295bv32:255bv8}\nfails main 1\n",
        "Bug\nv x 18446744073709551615bv64\ng 4294967295\nfails main 4294967295\n",
        "Bug\nv assert true\nv bv8 true\nv a.B9$#'~^?`_ 0bv1\nfails while 0\n",
    ];
    for text in texts {
        match written_again(rt.alloc(), text) {
            Ok(again) => assert_eq!(rt; again.as_slice(), text.as_bytes()),
            Err(_) => assert_eq!(rt; text, "a trace"),
        }
    }
    Ok(())
}

#[test]
fn other_spellings_are_read(rt: HostRuntime) -> Result<(), Fail> {
    let cases = [
        (
            "Bug\nv b false\nfails main 1",
            "Bug\nv b false\nfails main 1\n",
        ),
        (
            "Bug\nv x 0007bv008\ng 00\nfails main 01\n",
            "Bug\nv x 7bv8\ng 0\nfails main 1\n",
        ),
        (
            "Bug\nv m [bv032]bv08{01bv32:2bv008}\ng 00000000000000000000000000001\nfails main 1\n",
            "Bug\nv m [bv32]bv8{1bv32:2bv8}\ng 1\nfails main 1\n",
        ),
    ];
    for (text, spelt) in cases {
        match written_again(rt.alloc(), text) {
            Ok(again) => assert_eq!(rt; again.as_slice(), spelt.as_bytes()),
            Err(_) => assert_eq!(rt; text, "a trace"),
        }
    }
    Ok(())
}

#[test]
fn other_texts_have_a_first_fault(rt: HostRuntime) -> Result<(), Fail> {
    let cases = [
        ("", 1, TraceKind::NoHead),
        ("\n", 1, TraceKind::NoHead),
        ("bug\n", 1, TraceKind::NoHead),
        ("Bug \nfails main 1\n", 1, TraceKind::NoHead),
        ("Bug\r\nfails main 1\n", 1, TraceKind::NoHead),
        ("v b false\nfails main 1\n", 1, TraceKind::NoHead),
        ("Bug", 2, TraceKind::NoEnd),
        ("Bug\n", 2, TraceKind::NoEnd),
        ("Bug\nv b false\n", 3, TraceKind::NoEnd),
        ("Bug\nv b false", 3, TraceKind::NoEnd),
        ("Bug\nfails main 1\n\n", 3, TraceKind::AfterEnd),
        ("Bug\nfails main 1\nx", 3, TraceKind::AfterEnd),
        ("Bug\nfails main 1\nfails main 1\n", 3, TraceKind::AfterEnd),
        ("Bug\ng 0\nx\nfails main 1\nmore", 3, TraceKind::BadLine),
        ("Bug\n\nfails main 1\n", 2, TraceKind::BadLine),
        ("Bug\nBug\nfails main 1\n", 2, TraceKind::BadLine),
    ];
    for (text, line, kind) in cases {
        match read(rt.alloc(), text.as_bytes()) {
            Ok(_) => assert_eq!(rt; text, "a fault"),
            Err(fault) => assert_eq!(rt; fault, Or::Fault(TraceFault { line, kind })),
        }
    }
    Ok(())
}

#[test]
fn lines_without_a_form_are_refused(rt: HostRuntime) -> Result<(), Fail> {
    let lines = [
        "v b  false",
        "v  b false",
        " v b false",
        "v b false ",
        "v b",
        "w b false",
        "v 9a true",
        "v a-b true",
        "v  true",
        "v b True",
        "v b 1",
        "g",
        "g ",
        "g x",
        "g +1",
        "g 0 0",
        "g 4294967296",
        "fails main 4294967296",
        "fails main",
        "fails 1 1",
        "fails main 18446744073709551617",
        "v x 0bv0",
        "v x 0bv65",
        "v x 0bv18446744073709551680",
        "v x 256bv8",
        "v x 18446744073709551616bv64",
        "v x bv8",
        "v x 1bv",
        "v x 1bvv8",
        "v x 1b8",
        "v m [bv8]bv8{1bv8:0bv8}",
        "v m [bv8]bv8{2bv8:1bv8,1bv8:1bv8}",
        "v m [bv8]bv8{1bv8:1bv8,1bv8:2bv8}",
        "v m [bv8]bv8{1bv16:1bv8}",
        "v m [bv8]bv8{1bv8:true}",
        "v m [bv8]bv8{1bv8:1bv8,}",
        "v m [bv8]bv8{1bv8}",
        "v m [bv0]bool{}",
        "v m [bool]bv65{}",
        "v m [bool]bool{}x",
        "v m [bool]bool{",
        "v m bool]bool{}",
    ];
    for line in lines {
        let mut text = Bytes::from_slice(rt.alloc(), b"Bug\n")?;
        text.append(line.as_bytes())?;
        text.append(b"\nfails main 1\n")?;
        match read(rt.alloc(), text.as_slice()) {
            Ok(_) => assert_eq!(rt; line, "a line that is refused"),
            Err(fault) => assert_eq!(rt;
                fault,
                Or::Fault(TraceFault {
                    line: 2,
                    kind: TraceKind::BadLine
                })
            ),
        }
    }
    Ok(())
}
