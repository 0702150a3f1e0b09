//! Lists, texts and bytes, and their order.

use plain_types::{Bytes, List, Text, sort_in_byte_order};
use std::alloc::{AllocError, Global};

#[test]
fn each_call_succeeds_with_ample_memory(rt: HostRuntime) -> Result<(), AllocError> {
    let text = Text::copy_of(rt.alloc(), "Ünö")?;
    assert_eq!(rt; text.len(), 5);
    let bytes = Bytes::copy_of(rt.alloc(), text.as_bytes())?;
    assert_eq!(rt; bytes.as_slice(), "Ünö".as_bytes());
    let mut list: List<u8> = List::new(rt.alloc());
    list.push(7)?;
    list.push(9)?;
    assert_eq!(rt; list.as_slice(), [7, 9].as_slice());
    Ok(())
}

#[test]
fn texts_sort_by_unsigned_bytes(rt: HostRuntime) -> Result<(), AllocError> {
    let given: [&[u8]; 7] = [b"b", b"\xff", b"ab", b"", b"a", b"Z", b"\x80\x00"];
    let wanted: [&[u8]; 7] = [b"", b"Z", b"a", b"ab", b"b", b"\x80\x00", b"\xff"];
    let mut texts = Vec::new(rt.alloc());
    // Each four times: a sort of so many takes memory.
    for _ in 0..4 {
        for text in given.iter() {
            texts.push(Bytes::copy_of(rt.alloc(), *text)?)?;
        }
    }
    sort_in_byte_order(&mut texts)?;
    assert_eq!(rt; texts.len(), 28);
    for (at, text) in texts.iter().enumerate() {
        assert_eq!(rt; wanted.get(at / 4), Some(&text.as_slice()), "at {at}");
    }
    Ok(())
}
