//! The records of rows.

use row_values::{List, Row, Text, Value};
use run_report::sorted_records;
use std::alloc::{AllocError, Global};
use std::test::Fail;

fn row(alloc: Global, id: i64, name: Option<&str>) -> Result<Row, AllocError> {
    let mut row = List::new(alloc);
    row.push(Value::Long(id))?;
    row.push(match name {
        Some(text) => Value::Text(Text::copy_of(alloc, text)?),
        None => Value::Null,
    })?;
    Ok(row)
}

#[test]
fn rows_are_sorted_by_their_records(rt: HostRuntime) -> Result<(), Fail> {
    let alloc = rt.alloc();
    let mut rows = Vec::new(alloc);
    rows.push(row(alloc, 2, None)?)?;
    rows.push(row(alloc, -1, Some("a \"b\", c"))?)?;
    rows.push(row(alloc, 10, Some("\\N"))?)?;
    let records = sorted_records(alloc, rows.as_slice())?;
    let mut text = Vec::new(alloc);
    for record in records.iter() {
        text.extend_from_slice(record.as_slice())?;
        text.push(b'|')?;
    }
    assert!(rt; text.as_slice() == b"-1,\"a \"\"b\"\", c\"|10,\\\\N|2,\\N|".as_slice());
    Ok(())
}
