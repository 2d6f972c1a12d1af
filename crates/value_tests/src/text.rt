//! Numbers in decimal, and texts and bytes that are copied.

use hy_text::{Bytes, NumFault, Or, Text, put_u64, read_u64};
use std::alloc::Global;
use std::test::Fail;

#[test]
fn digits_are_written_and_read(rt: HostRuntime) -> Result<(), Fail> {
    let greatest = 18446744073709551615;
    let mut out = Bytes::new(rt.alloc());
    put_u64(&mut out, greatest)?;
    out.push(b' ')?;
    put_u64(&mut out, 0)?;
    assert_eq!(rt; out.as_slice(), b"18446744073709551615 0".as_slice());
    let cases: [(&[u8], Result<u64, NumFault>); 7] = [
        (b"0", Ok(0)),
        (b"00018446744073709551615", Ok(greatest)),
        (b"18446744073709551616", Err(NumFault::TooLarge)),
        (b"99999999999999999999999", Err(NumFault::TooLarge)),
        (b"18446744073709551616x", Err(NumFault::NotDigits)),
        (b"+1", Err(NumFault::NotDigits)),
        (b"", Err(NumFault::NotDigits)),
    ];
    for (digits, read) in cases {
        assert_eq!(rt; read_u64(digits), read);
    }
    Ok(())
}

fn needs_memory(alloc: Global, text: &Text) -> Result<Bytes, Or<NumFault>> {
    let bytes = Bytes::from_slice(alloc, text.as_bytes())?;
    Ok(bytes)
}

#[test]
fn text_and_bytes_are_copied(rt: HostRuntime) -> Result<(), Fail> {
    let text = Text::from_str(rt.alloc(), "main")?;
    let copied = text.copy(rt.alloc())?;
    assert!(rt; copied.equals(&text));
    assert_eq!(rt; copied.as_str(), "main");
    assert_eq!(rt; copied.len(), 4);
    let other = Text::from_str(rt.alloc(), "mai")?;
    assert!(rt; !other.equals(&text) && !other.is_empty());

    let bytes = Bytes::from_vec(vec![in rt.alloc(); 1u8, 2]?);
    let mut longer = bytes.copy(rt.alloc())?;
    longer.append(&[3])?;
    assert_eq!(rt; longer.as_slice(), [1u8, 2, 3].as_slice());
    assert_eq!(rt; bytes.len(), 2);
    assert!(rt; !bytes.is_empty());

    match needs_memory(rt.alloc(), &text) {
        Ok(kept) => assert_eq!(rt; kept.as_slice(), b"main".as_slice()),
        Err(fault) => assert_eq!(rt; fault, Or::NoMemory),
    }
    Ok(())
}
