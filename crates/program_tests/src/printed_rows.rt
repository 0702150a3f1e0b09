//! The rows of a table, where a call of the store or the sink fails.

use crate::commands::run;
use crate::script_runs::{BOTH, two_rows};
use std::alloc::{AllocError, Global};
use std::test::Fail;
use store_core::{CallKind, FailAt, Leave, List, MemorySink, MemoryStore};

// Whether `rows` over the store ends with this status, and a sink with this room has this report.
fn ends(alloc: Global, store: MemoryStore, sink: MemorySink, number: u8, report: &str) -> bool {
    let mut store = store;
    let mut out = sink;
    let status = run(alloc, &["rows", "--table", "h"], &mut store, &mut out);
    status.number() == number && out.bytes() == report.as_bytes()
}

// A table with two rows in a store of which one call fails.
fn failing(alloc: Global, kind: CallKind, nth: u64) -> Result<MemoryStore, AllocError> {
    let mut plan = List::new(alloc);
    plan.push(FailAt {
        kind,
        nth,
        leave: Leave::Nothing,
    })?;
    Ok(MemoryStore::failing(two_rows(alloc)?, plan))
}

#[test]
fn each_store_call_that_fails_is_named(rt: HostRuntime) -> Result<(), Fail> {
    let alloc = rt.alloc();
    for (kind, nth) in [
        (CallKind::List, 1),
        (CallKind::Read, 1),
        (CallKind::Read, 2),
        (CallKind::Read, 3),
        (CallKind::Read, 4),
    ] {
        let store = failing(alloc, kind, nth)?;
        let sink = MemorySink::new(alloc, 8192, 0)?;
        assert!(rt;
            ends(alloc, store, sink, 5, "fault store\n"),
            "{kind:?} {nth}"
        );
    }
    Ok(())
}

#[test]
fn a_sink_that_fails_has_a_front_of_the_rows(rt: HostRuntime) -> Result<(), Fail> {
    let alloc = rt.alloc();
    for (room, fail_at, report) in [(64, 1, ""), (5, 0, "row 1"), (5, 2, "row 1"), (17, 0, BOTH)] {
        let files = two_rows(alloc)?;
        let sink = MemorySink::new(alloc, room, fail_at)?;
        let number = if report == BOTH { 0 } else { 7 };
        assert!(rt;
            ends(alloc, MemoryStore::with_files(files), sink, number, report),
            "{room}"
        );
    }
    Ok(())
}
