//! Tables that are made, and what is answered where one isn't.

use crate::commands::{one_file, run};
use dml_program::run_program;
use std::alloc::{AllocError, Global};
use std::test::Fail;
use store_core::{
    CallKind, FailAt, FixedClock, Leave, List, MemoryInputs, MemorySink, MemoryStore, ReadAnswer,
    Store,
};

const CREATE: [&str; 5] = ["create", "--table", "h", "--schema", "s.json"];

pub(crate) const SCHEMA: &[u8] = b"{\"schema\":{\"type\":\"struct\",\"schema-id\":0,\"fields\":[
{\"id\":1,\"name\":\"id\",\"required\":true,\"type\":\"long\"},
{\"id\":2,\"name\":\"name\",\"required\":false,\"type\":\"string\",\"doc\":\"who\"}]}}";

const VERSION: &str = "h/metadata/v1.metadata.json";

/// The first version of a table of this schema, made 1,700,000,000,000 milliseconds after 1970 began.
const TEXT: &str =
    r#"{"current-schema-id":0,"default-sort-order-id":0,"default-spec-id":0,"format-version":2,"last-column-id":2,"last-partition-id":999,"last-sequence-number":0,"last-updated-ms":1700000000000,"location":"h","partition-specs":[{"fields":[],"spec-id":0}],"properties":{},"schemas":[{"fields":[{"id":1,"name":"id","required":true,"type":"long"},{"doc":"who","id":2,"name":"name","required":false,"type":"string"}],"schema-id":0,"type":"struct"}],"sort-orders":[{"fields":[],"order-id":0}],"table-uuid":"29ac0894-7884-5831-8a36-17e914394540"}"#;

/// Whether the call ends so, with this schema file.
fn ends(
    alloc: Global,
    schema: &[u8],
    store: MemoryStore,
    number: u8,
    report: &str,
) -> Result<bool, AllocError> {
    let mut store = store;
    let mut inputs = MemoryInputs::with_files(one_file(alloc, "s.json", schema)?, 0);
    let mut out = MemorySink::new(alloc, 128, 0)?;
    let mut clock = FixedClock::at(1_700_000_000_000);
    let words = CREATE.as_slice();
    let status = run_program(alloc, words, &mut store, &mut inputs, &mut out, &mut clock);
    Ok(status.number() == number && out.bytes() == report.as_bytes())
}

/// A store whose first call of a kind fails, and perhaps its first read.
fn failing(
    alloc: Global,
    kind: CallKind,
    leave: Leave,
    read_fails: bool,
) -> Result<MemoryStore, AllocError> {
    let mut plan = List::new(alloc);
    plan.push(FailAt {
        kind,
        nth: 1,
        leave,
    })?;
    if read_fails {
        plan.push(FailAt {
            kind: CallKind::Read,
            nth: 1,
            leave: Leave::Nothing,
        })?;
    }
    Ok(MemoryStore::failing(List::new(alloc), plan))
}

fn fails(
    alloc: Global,
    kind: CallKind,
    leave: Leave,
    read_fails: bool,
    number: u8,
    report: &str,
) -> Result<bool, AllocError> {
    let store = failing(alloc, kind, leave, read_fails)?;
    ends(alloc, SCHEMA, store, number, report)
}

#[test]
fn a_call_that_fails_is_named_or_settled(rt: HostRuntime) -> Result<(), Fail> {
    let alloc = rt.alloc();
    let (whole, nothing) = (Leave::Whole, Leave::Nothing);
    assert!(rt; fails(alloc, CallKind::List, nothing, false, 5, "fault store\n")?);
    assert!(rt; fails(alloc, CallKind::Swap, nothing, false, 5, "fault store\n")?);
    assert!(rt; fails(alloc, CallKind::Swap, whole, false, 0, "created v1\n")?);
    assert!(rt; fails(alloc, CallKind::Swap, whole, true, 8, "fault unknown\n")?);
    Ok(())
}

/// Whether the store has the first version as it is to be.
fn holds_version(alloc: Global, store: &mut MemoryStore) -> bool {
    match store.read(alloc, VERSION) {
        Ok(ReadAnswer::Found(bytes)) => bytes.as_slice() == TEXT.as_bytes(),
        _ => false,
    }
}

/// Whether the call ends so, over a store that stays.
fn creates(
    alloc: Global,
    store: &mut MemoryStore,
    inputs: &mut MemoryInputs,
    number: u8,
    report: &str,
) -> Result<bool, AllocError> {
    let mut out = MemorySink::new(alloc, 128, 0)?;
    let mut clock = FixedClock::at(1_700_000_000_000);
    let words = CREATE.as_slice();
    let status = run_program(alloc, words, store, inputs, &mut out, &mut clock);
    Ok(status.number() == number && out.bytes() == report.as_bytes())
}

fn has_no_rows(alloc: Global, store: &mut MemoryStore) -> Result<bool, AllocError> {
    let mut out = MemorySink::new(alloc, 128, 0)?;
    let status = run(alloc, &["rows", "--table", "h"], store, &mut out);
    Ok(status.number() == 0 && out.bytes().is_empty())
}

#[test]
fn a_table_that_was_made_has_no_rows_and_is_made_once(rt: HostRuntime) -> Result<(), Fail> {
    let alloc = rt.alloc();
    let mut store = MemoryStore::new(alloc);
    let mut inputs = MemoryInputs::with_files(one_file(alloc, "s.json", SCHEMA)?, 3);
    assert!(rt; creates(alloc, &mut store, &mut inputs, 0, "created v1\n")?);
    assert!(rt; creates(alloc, &mut store, &mut inputs, 4, "fault table exists h\n")?);
    assert!(rt; creates(alloc, &mut store, &mut inputs, 6, "fault input s.json\n")?);
    let mut none = MemoryInputs::with_files(List::new(alloc), 0);
    assert!(rt; creates(alloc, &mut store, &mut none, 6, "fault input s.json\n")?);
    assert!(rt; holds_version(alloc, &mut store));
    assert!(rt; has_no_rows(alloc, &mut store)?);
    Ok(())
}
