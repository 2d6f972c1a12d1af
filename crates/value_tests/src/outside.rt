//! Shelves and sinks in memory and of the system.

use hy_outside::{Failed, FileShelf, MemShelf, MemSink, Shelf, ShelfFault, Sink, StdSink, Turn};
use hy_text::{Bytes, Text};
use std::alloc::{AllocError, Global};
use std::test::Fail;

fn shelf_of(alloc: Global, turns: Vec<Turn>) -> Result<MemShelf, AllocError> {
    let mut bytes = Bytes::new(alloc);
    bytes.append(b"abcdef")?;
    let mut other = Bytes::new(alloc);
    other.append(b"zz")?;
    let name = Text::from_str(alloc, "a")?;
    let again = Text::from_str(alloc, "a")?;
    let files = vec![in alloc; (name, bytes), (again, other)]?;
    Ok(MemShelf::new(alloc, files, turns))
}

fn opens<S: Shelf>(
    alloc: Global,
    shelf: &mut S,
    name: &str,
) -> Result<Result<(), ShelfFault>, AllocError> {
    let text = Text::from_str(alloc, name)?;
    Ok(shelf.open(alloc, &text))
}

#[test]
fn a_shelf_in_memory_obeys_its_turns(rt: HostRuntime) -> Result<(), Fail> {
    let turns = vec![in rt.alloc();
        Turn::AtMost(1),
        Turn::AtMost(2),
        Turn::AtMost(0),
        Turn::Fail,
    ]?;
    let mut shelf = shelf_of(rt.alloc(), turns)?;
    assert_eq!(rt; opens(rt.alloc(), &mut shelf, "a")?, Ok(()));
    let mut buf = [0u8; 8];
    for (count, first) in [
        (Ok(2), b'a'),
        (Ok(1), b'c'),
        (Err(Failed), b'c'),
        (Ok(3), b'd'),
        (Ok(0), b'd'),
    ] {
        assert_eq!(rt; shelf.read(&mut buf), count);
        assert_eq!(rt; buf[0], first);
    }
    assert_eq!(rt;
        opens(rt.alloc(), &mut shelf, "b")?,
        Err(ShelfFault::Failed)
    );
    assert_eq!(rt; shelf.read(&mut buf), Ok(0));
    Ok(())
}

#[test]
fn a_sink_in_memory_obeys_its_turns(rt: HostRuntime) -> Result<(), Fail> {
    let turns = vec![in rt.alloc();
        Turn::AtMost(2),
        Turn::Fail,
        Turn::AtMost(0),
        Turn::AtMost(0),
    ]?;
    let mut sink = MemSink::new(rt.alloc(), 5, turns)?;
    let cases: [(&[u8], Result<usize, Failed>); 6] = [
        (b"abc", Ok(2)),
        (b"abc", Err(Failed)),
        (b"abc", Err(Failed)),
        (b"", Ok(0)),
        (b"cdefg", Ok(3)),
        (b"f", Err(Failed)),
    ];
    for (piece, taken) in cases {
        assert_eq!(rt; sink.write(piece), taken);
    }
    assert_eq!(rt; sink.held(), b"abcde".as_slice());
    Ok(())
}

#[test]
fn files_are_read_by_name(rt: HostRuntime) -> Result<(), Fail> {
    let mut shelf = FileShelf::new(&rt, rt.alloc());
    let mut buf = [0u8; 4];
    assert_eq!(rt; shelf.read(&mut buf), Ok(0));
    assert_eq!(rt;
        opens(rt.alloc(), &mut shelf, "/no such folder/no such file")?,
        Err(ShelfFault::Failed)
    );
    assert_eq!(rt; shelf.read(&mut buf), Ok(0));
    assert_eq!(rt; opens(rt.alloc(), &mut shelf, "/dev/zero")?, Ok(()));
    buf = [7u8; 4];
    assert_eq!(rt; shelf.read(&mut buf).is_ok(), true);
    assert_eq!(rt; buf[0], 0);
    Ok(())
}

#[test]
fn text_goes_to_the_standard_output(rt: HostRuntime) -> Result<(), Fail> {
    let mut sink = StdSink::new(&rt);
    assert_eq!(rt; sink.write(b"printed\n"), Ok(8));
    Ok(())
}
