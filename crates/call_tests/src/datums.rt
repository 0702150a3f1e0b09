//! Worked rows of the encoding.

use avro_binary::{Datum, DatumFault, read_datum, read_schema};
use std::alloc::Global;

/// How many bytes a datum takes, or why there is none. A schema that isn't read counts as memory.
fn used(alloc: Global, schema: &[u8], bytes: &[u8]) -> Result<usize, DatumFault> {
    match read_schema(alloc, schema) {
        Ok(schema) => match read_datum(alloc, &schema, bytes) {
            Ok((_datum, used)) => Ok(used),
            Err(f) => Err(f),
        },
        Err(_f) => Err(DatumFault::Memory),
    }
}

#[test]
fn datums_take_their_bytes_or_fail_at_their_place(rt: HostRuntime) {
    let array: &[u8] = b"{\"type\":\"array\",\"items\":\"long\"}";
    let map: &[u8] = b"{\"type\":\"map\",\"values\":\"long\"}";
    let fixed: &[u8] = b"{\"type\":\"fixed\",\"name\":\"f\",\"size\":2}";
    let symbols: &[u8] = b"{\"type\":\"enum\",\"name\":\"e\",\"symbols\":[\"A\"]}";
    let record: &[u8] =
        b"{\"type\":\"record\",\"name\":\"r\",\"fields\":[{\"name\":\"a\",\"type\":\"int\"}]}";
    let cases: [(&[u8], &[u8], Result<usize, DatumFault>); 25] = [
        (b"\"long\"", b"\x80\x01", Ok(2)),
        (b"\"long\"", b"\x82\x00", Ok(2)),
        (b"\"long\"", b"\x80", Err(DatumFault::Short(1))),
        (
            b"\"long\"",
            b"\xff\xff\xff\xff\xff\xff\xff\xff\xff\xff",
            Err(DatumFault::Long(0)),
        ),
        (
            b"\"long\"",
            b"\xff\xff\xff\xff\xff\xff\xff\xff\xff\x01",
            Ok(10),
        ),
        (
            b"\"long\"",
            b"\xff\xff\xff\xff\xff\xff\xff\xff\xff\x02",
            Err(DatumFault::Long(0)),
        ),
        (
            b"\"int\"",
            b"\x80\x80\x80\x80\x10",
            Err(DatumFault::Long(0)),
        ),
        (b"\"boolean\"", b"\x02", Err(DatumFault::Branch(0))),
        (b"\"string\"", b"\x01", Err(DatumFault::Size(0))),
        (b"\"string\"", b"\x02\xff", Err(DatumFault::Text(0))),
        (b"\"string\"", b"\x04a", Err(DatumFault::Short(2))),
        (b"\"bytes\"", b"\x02\xff", Ok(2)),
        (b"[\"null\",\"long\"]", b"\x02\x02", Ok(2)),
        (b"[\"null\",\"long\"]", b"\x04", Err(DatumFault::Branch(0))),
        (array, b"\x7e", Err(DatumFault::Size(0))),
        (array, b"\x01\x02\x02\x00", Ok(4)),
        (array, b"\x01\x01\x02\x00", Err(DatumFault::Size(1))),
        (array, b"\x02\x02", Err(DatumFault::Short(2))),
        (map, b"\x02\x02a\x02\x00", Ok(5)),
        (map, b"\x02\x02\xff\x02\x00", Err(DatumFault::Text(1))),
        (fixed, b"\x02", Err(DatumFault::Short(1))),
        (fixed, b"\x02\x03\x04", Ok(2)),
        (symbols, b"\x02", Err(DatumFault::Branch(0))),
        (record, b"\x02\x04", Ok(1)),
        (b"\"null\"", b"", Ok(0)),
    ];
    for (schema, bytes, want) in cases {
        assert!(rt; used(rt.alloc(), schema, bytes) == want, "{want:?}");
    }
}

fn long_at(alloc: Global, bytes: &[u8]) -> Option<i64> {
    match read_schema(alloc, b"\"long\"") {
        Ok(schema) => match read_datum(alloc, &schema, bytes) {
            Ok((Datum::Long(number), _used)) => Some(number),
            _ => None,
        },
        Err(_f) => None,
    }
}

#[test]
fn longs_are_zigzag(rt: HostRuntime) {
    let cases: [(&[u8], i64); 5] = [
        (b"\x00", 0),
        (b"\x01", -1),
        (b"\x02", 1),
        (b"\x80\x01", 64),
        (b"\x7f", -64),
    ];
    for (bytes, want) in cases {
        assert!(rt; long_at(rt.alloc(), bytes) == Some(want), "{want}");
    }
}
