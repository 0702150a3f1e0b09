//! The bounds of columns, as the standard spells single values.

use kind_values::{Kind, List, Value, put_bound, read_bound};
use row_values::Text;
use std::alloc::{AllocError, Global};
use std::test::Fail;

#[derive(Drop)]
struct Case {
    kind: Kind,
    bytes: &'static [u8],
    want: Option<Value>,
}

fn numbers(cases: &mut List<Case>) -> Result<(), AllocError> {
    cases.push(Case {
        kind: Kind::Int,
        bytes: b"\x22\x00\x00\x00",
        want: Some(Value::Int(34)),
    })?;
    cases.push(Case {
        kind: Kind::Int,
        bytes: b"\x22",
        want: None,
    })?;
    cases.push(Case {
        kind: Kind::Long,
        bytes: b"\xff\xff\xff\xff",
        want: Some(Value::Long(-1)),
    })?;
    cases.push(Case {
        kind: Kind::Date,
        bytes: b"\xff\xff\xff\x7f",
        want: None,
    })
}

fn others(alloc: Global, cases: &mut List<Case>) -> Result<(), AllocError> {
    cases.push(Case {
        kind: Kind::Bool,
        bytes: b"\x02",
        want: Some(Value::Bool(true)),
    })?;
    cases.push(Case {
        kind: Kind::Decimal {
            precision: 9,
            scale: 2,
        },
        bytes: b"\x05\x8c",
        want: Some(Value::Decimal {
            unscaled: 1420,
            scale: 2,
        }),
    })?;
    cases.push(Case {
        kind: Kind::Text,
        bytes: b"ice",
        want: Some(Value::Text(Text::copy_of(alloc, "ice")?)),
    })?;
    cases.push(Case {
        kind: Kind::Text,
        bytes: b"\xff",
        want: None,
    })
}

#[test]
fn each_bound_is_the_value_of_its_bytes(rt: HostRuntime) -> Result<(), Fail> {
    let alloc = rt.alloc();
    let mut cases = List::new(alloc);
    numbers(&mut cases)?;
    others(alloc, &mut cases)?;
    for case in cases.into_vec() {
        let Case { kind, bytes, want } = case;
        assert!(rt; read_bound(alloc, kind, bytes)? == want, "{bytes:?}");
    }
    Ok(())
}

#[test]
fn each_bound_is_written_as_its_bytes(rt: HostRuntime) -> Result<(), Fail> {
    let alloc = rt.alloc();
    let cases: [(Value, &[u8]); 4] = [
        (Value::Bool(true), b"\x01"),
        (Value::Date(34), b"\x22\x00\x00\x00"),
        (
            Value::Decimal {
                unscaled: -1,
                scale: 2,
            },
            b"\xff",
        ),
        (Value::Text(Text::copy_of(alloc, "ice")?), b"ice"),
    ];
    for (value, want) in cases.iter() {
        let mut out = Vec::new(alloc);
        put_bound(value, &mut out)?;
        assert!(rt; out.as_slice() == *want, "{value:?}");
    }
    Ok(())
}
