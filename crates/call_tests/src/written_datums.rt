//! Worked rows of what is written: a datum or a schema is read, and written again.

use avro_binary::{put_datum, read_datum, read_schema, write_schema};
use std::alloc::Global;

/// Whether the datum that these bytes spell is written as the others.
fn writes(alloc: Global, schema: &[u8], bytes: &[u8], want: &[u8]) -> bool {
    let Ok(schema) = read_schema(alloc, schema) else {
        return false;
    };
    let Ok((datum, _used)) = read_datum(alloc, &schema, bytes) else {
        return false;
    };
    let mut out = Vec::new(alloc);
    put_datum(&datum, &mut out).is_ok() && out.as_slice() == want
}

fn writes_all(alloc: Global) -> bool {
    let array: &[u8] = b"{\"type\":\"array\",\"items\":\"long\"}";
    let map: &[u8] = b"{\"type\":\"map\",\"values\":\"int\"}";
    let record: &[u8] =
        b"{\"type\":\"record\",\"name\":\"r\",\"fields\":[{\"name\":\"a\",\"type\":\"int\"},{\"name\":\"b\",\"type\":\"string\"}]}";
    let cases: [(&[u8], &[u8], &[u8]); 7] = [
        (b"\"long\"", b"\x80\x01", b"\x80\x01"),
        (b"\"long\"", b"\x82\x00", b"\x02"),
        (b"[\"null\",\"long\"]", b"\x02\x7f", b"\x02\x7f"),
        (array, b"\x02\x02\x02\x04\x00", b"\x04\x02\x04\x00"),
        (array, b"\x00", b"\x00"),
        (map, b"\x01\x06\x02k\x05\x00", b"\x02\x02k\x05\x00"),
        (record, b"\x01\x04hi", b"\x01\x04hi"),
    ];
    for (schema, bytes, want) in cases {
        if !writes(alloc, schema, bytes, want) {
            return false;
        }
    }
    true
}

#[test]
fn datums_are_written_shortest_and_in_one_block(rt: HostRuntime) {
    assert!(rt; writes_all(rt.alloc()));
}

/// Whether the schema of a text is written as the other text.
fn writes_schema(alloc: Global, text: &[u8], want: &[u8]) -> bool {
    let Ok(schema) = read_schema(alloc, text) else {
        return false;
    };
    match write_schema(alloc, &schema) {
        Ok(written) => written.as_slice() == want,
        Err(_e) => false,
    }
}

#[test]
fn a_schema_is_written_with_its_names_and_digits(rt: HostRuntime) {
    let text: &[u8] =
        b"{\"type\":\"record\",\"name\":\"n.r\",\"fields\":[{\"name\":\"a\",\"field-id\":1,\"type\":{\"type\":\"fixed\",\"name\":\"f\",\"size\":2}},{\"name\":\"b\",\"type\":\"f\"}]}";
    let want: &[u8] =
        b"{\"fields\":[{\"field-id\":1,\"name\":\"a\",\"type\":{\"name\":\"n.f\",\"namespace\":\"n\",\"size\":2,\"type\":\"fixed\"}},{\"name\":\"b\",\"type\":\"n.f\"}],\"name\":\"n.r\",\"namespace\":\"n\",\"type\":\"record\"}";
    assert!(rt; writes_schema(rt.alloc(), text, want));
    assert!(rt; writes_schema(rt.alloc(), want, want));
    let decimal: &[u8] =
        b"{\"type\":\"bytes\",\"logicalType\":\"decimal\",\"precision\":4,\"scale\":2}";
    let kept: &[u8] =
        b"{\"logicalType\":\"decimal\",\"precision\":4,\"scale\":2,\"type\":\"bytes\"}";
    assert!(rt; writes_schema(rt.alloc(), decimal, kept));
}
