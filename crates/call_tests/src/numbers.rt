//! Numbers in two's complement, as the standard spells them.

use kind_values::{int_of, long_of, put_signed, signed_of};
use std::alloc::Global;

#[test]
fn numbers_are_read_from_their_bytes(rt: HostRuntime) {
    assert_eq!(rt; int_of(b"\x22\x00\x00\x00"), Some(34));
    assert_eq!(rt; int_of(b"\xfe\xff\xff\xff"), Some(-2));
    assert_eq!(rt; int_of(b"\x22"), None);
    assert_eq!(rt;
        long_of(b"\x00\x00\x00\x00\x00\x00\x00\x80"),
        Some(i64::MIN)
    );
    assert_eq!(rt; signed_of(b"\x05\x8c"), 1420);
    assert_eq!(rt; signed_of(b"\xff"), -1);
}

fn is_written(alloc: Global, number: i128, bytes: &[u8]) -> bool {
    let mut out = Vec::new(alloc);
    put_signed(number, &mut out).is_ok() && out.as_slice() == bytes
}

#[test]
fn numbers_are_written_in_the_fewest_bytes(rt: HostRuntime) {
    let alloc = rt.alloc();
    assert!(rt; is_written(alloc, 1420, b"\x05\x8c"));
    assert!(rt; is_written(alloc, -1, b"\xff"));
    assert!(rt; is_written(alloc, 0, b"\x00"));
    assert!(rt; is_written(alloc, 128, b"\x00\x80"));
    assert!(rt; is_written(alloc, -129, b"\xff\x7f"));
}
