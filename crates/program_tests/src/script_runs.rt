//! Scripts that are run on a table, and what is answered where one isn't.

use crate::commands::one_file;
use crate::created_tables::SCHEMA;
use dml_program::run_program;
use std::alloc::{AllocError, Global};
use std::test::Fail;
use store_core::{
    Blob, CallKind, FailAt, File, FixedClock, Leave, List, MemoryInputs, MemorySink, MemoryStore,
    Name, ReadAnswer, Store,
};

const TABLE: &str = "h";

/// The first version of a table `h` with a required `id` of type long and a `name` of type string.
const VERSION: &str = "h/metadata/v1.metadata.json";

/// Inserts two rows and deletes one.
const TWO_STATEMENTS: &str =
    "SESSION s; INSERT INTO t VALUES (1, 'x'), (2, NULL); DELETE FROM t WHERE id = 1;";

const TWO_REPORT: &str = "event s.1 plan v1
event s.1 validate v1 good
event s.1 swap v2 won
answer s.1 committed v2
event s.2 plan v2
event s.2 validate v2 good
event s.2 swap v3 won
answer s.2 committed v3
branch main 1
";

/// Runs a command over a store that stays, with a file `f`, and says whether it ends so.
fn command_ends(
    alloc: Global,
    store: &mut MemoryStore,
    words: &[&str],
    file: &[u8],
    number: u8,
    report: &str,
) -> Result<bool, AllocError> {
    let mut inputs = MemoryInputs::with_files(one_file(alloc, "f", file)?, 0);
    let mut out = MemorySink::new(alloc, 8192, 0)?;
    let mut clock = FixedClock::at(1_700_000_000_000);
    let status = run_program(alloc, words, store, &mut inputs, &mut out, &mut clock);
    Ok(status.number() == number && out.bytes() == report.as_bytes())
}

fn script_ends(
    alloc: Global,
    store: &mut MemoryStore,
    script: &[u8],
    number: u8,
    report: &str,
) -> Result<bool, AllocError> {
    let words = ["run", "--table", TABLE, "--script", "f"];
    command_ends(alloc, store, words.as_slice(), script, number, report)
}

/// Whether the table has these rows.
fn has_rows(alloc: Global, store: &mut MemoryStore, rows: &str) -> Result<bool, AllocError> {
    let words = ["rows", "--table", TABLE];
    command_ends(alloc, store, words.as_slice(), b"", 0, rows)
}

/// Makes the table, and says whether that ends well.
fn made(alloc: Global, store: &mut MemoryStore) -> Result<bool, AllocError> {
    let words = ["create", "--table", TABLE, "--schema", "f"];
    command_ends(alloc, store, words.as_slice(), SCHEMA, 0, "created v1\n")
}

#[test]
fn a_script_changes_a_table_that_was_made(rt: HostRuntime) -> Result<(), Fail> {
    let alloc = rt.alloc();
    let mut store = MemoryStore::new(alloc);
    assert!(rt; made(alloc, &mut store)?);
    assert!(rt; script_ends(alloc, &mut store, TWO_STATEMENTS.as_bytes(), 0, TWO_REPORT)?);
    assert!(rt; has_rows(alloc, &mut store, "row 2,\\N\n")?);
    assert!(rt; !made(alloc, &mut store)?);
    Ok(())
}

/// The bytes of the first version of the table.
fn first_version(alloc: Global) -> Result<List<File>, AllocError> {
    let mut store = MemoryStore::new(alloc);
    let mut files = List::new(alloc);
    if made(alloc, &mut store)? {
        if let Ok(ReadAnswer::Found(bytes)) = store.read(alloc, VERSION) {
            files.push(File {
                name: Name::copy_of(alloc, VERSION)?,
                bytes,
            })?;
        }
    }
    Ok(files)
}

fn copies(alloc: Global, files: &List<File>) -> Result<List<File>, AllocError> {
    let mut copies = Vec::new(alloc);
    for held in files.as_slice() {
        copies.push(File {
            name: Name::copy_of(alloc, held.name.as_str())?,
            bytes: Blob::copy_of(alloc, held.bytes.as_slice())?,
        })?;
    }
    Ok(List::from_vec(copies))
}

const INSERT_REPORT: &str = "event s.1 plan v1
event s.1 validate v1 good
event s.1 swap v2 won
answer s.1 committed v2
branch main 2
";

/// The files of the table with two rows.
pub(crate) fn two_rows(alloc: Global) -> Result<List<File>, AllocError> {
    let mut store = MemoryStore::with_files(first_version(alloc)?);
    let script = b"SESSION s; INSERT INTO t VALUES (1, 'x'), (2, NULL);";
    if script_ends(alloc, &mut store, script.as_slice(), 0, INSERT_REPORT)? {
        copies(alloc, store.files())
    } else {
        Ok(List::new(alloc))
    }
}

/// The files that are there when a run begins, of which so many calls of the store fail.
type Plan = &'static [(CallKind, u64, Leave)];

/// Calls that fail, the status, the report and the rows that are left.
type Case = (Plan, u8, &'static str, &'static str);

pub(crate) const BOTH: &str = "row 1,x\nrow 2,\\N\n";

const SECOND: &str = "row 2,\\N\n";

const FAILING: [Case; 11] = [
    (
        &[(CallKind::List, 1, Leave::Nothing)],
        5,
        "fault store\n",
        "",
    ),
    (
        &[(CallKind::Read, 1, Leave::Nothing)],
        5,
        "fault store\n",
        "",
    ),
    (
        &[(CallKind::List, 2, Leave::Nothing)],
        5,
        "fault store\n",
        "",
    ),
    (
        &[(CallKind::Put, 1, Leave::Nothing)],
        5,
        "fault store\n",
        "",
    ),
    (&[(CallKind::Put, 1, Leave::Half)], 5, "fault store\n", ""),
    (
        &[(CallKind::Put, 2, Leave::Whole)],
        5,
        "event s.1 plan v1\nfault store\n",
        "",
    ),
    (
        &[(CallKind::Swap, 1, Leave::Nothing)],
        5,
        "event s.1 plan v1\nevent s.1 validate v1 good\nfault store\n",
        "",
    ),
    (&[(CallKind::Swap, 1, Leave::Whole)], 0, TWO_REPORT, SECOND),
    (
        &[
            (CallKind::Swap, 1, Leave::Whole),
            (CallKind::Read, 4, Leave::Nothing),
        ],
        8,
        "event s.1 plan v1\nevent s.1 validate v1 good\nfault unknown s.1\n",
        BOTH,
    ),
    (
        &[
            (CallKind::Swap, 1, Leave::Nothing),
            (CallKind::Read, 4, Leave::Nothing),
        ],
        8,
        "event s.1 plan v1\nevent s.1 validate v1 good\nfault unknown s.1\n",
        "",
    ),
    (
        &[(CallKind::Swap, 2, Leave::Nothing)],
        5,
        "event s.1 plan v1
event s.1 validate v1 good
event s.1 swap v2 won
answer s.1 committed v2
event s.2 plan v2
event s.2 validate v2 good
fault store
",
        BOTH,
    ),
];

fn plan_of(alloc: Global, calls: &[(CallKind, u64, Leave)]) -> Result<List<FailAt>, AllocError> {
    let mut plan = List::new(alloc);
    for (kind, nth, leave) in calls {
        plan.push(FailAt {
            kind: *kind,
            nth: *nth,
            leave: *leave,
        })?;
    }
    Ok(plan)
}

#[test]
fn a_call_that_fails_leaves_the_statements_before_it(rt: HostRuntime) -> Result<(), Fail> {
    let alloc = rt.alloc();
    for (calls, number, report, rows) in FAILING.iter() {
        let mut store = MemoryStore::failing(first_version(alloc)?, plan_of(alloc, calls)?);
        let script = TWO_STATEMENTS.as_bytes();
        assert!(rt;
            script_ends(alloc, &mut store, script, *number, report)?,
            "{report}"
        );
        assert!(rt; has_rows(alloc, &mut store, rows)?, "{report}");
    }
    Ok(())
}

const ANY_LEAVE: [Leave; 3] = [Leave::Nothing, Leave::Half, Leave::Whole];

/// Each kind of call, more calls of it than a run makes, and what one that fails may leave.
const CALLS: [(CallKind, u64, &[Leave]); 4] = [
    (CallKind::List, 8, &[Leave::Nothing]),
    (CallKind::Read, 24, &[Leave::Nothing]),
    (CallKind::Put, 8, &ANY_LEAVE),
    (CallKind::Swap, 3, &ANY_LEAVE),
];

/// How many of the two statements a report says are committed.
fn committed(report: &str) -> usize {
    TWO_REPORT
        .lines()
        .filter(|line| line.starts_with("answer") && report.contains(*line))
        .count()
}

/// Runs the two statements where one call fails, and says whether the table has the rows that the report tells.
fn leaves_what_it_tells(
    alloc: Global,
    kind: CallKind,
    nth: u64,
    leave: Leave,
) -> Result<bool, AllocError> {
    let plan = plan_of(alloc, &[(kind, nth, leave)])?;
    let mut store = MemoryStore::failing(first_version(alloc)?, plan);
    let script = one_file(alloc, "f", TWO_STATEMENTS.as_bytes())?;
    let mut inputs = MemoryInputs::with_files(script, 0);
    let mut out = MemorySink::new(alloc, 8192, 0)?;
    let mut clock = FixedClock::at(0);
    let words = ["run", "--table", TABLE, "--script", "f"];
    let words = words.as_slice();
    let status = run_program(alloc, words, &mut store, &mut inputs, &mut out, &mut clock);
    let report = str::from_utf8(out.bytes()).unwrap_or("");
    let ended = match status.number() {
        0 => report == TWO_REPORT,
        number => number == 5 && report.ends_with("fault store\n"),
    };
    let rows = match committed(report) {
        0 => "",
        1 => BOTH,
        _ => SECOND,
    };
    // The call that fails may come only when the rows are read, and then they are read again.
    Ok(ended && (has_rows(alloc, &mut store, rows)? || has_rows(alloc, &mut store, rows)?))
}

#[test]
fn each_call_that_fails_leaves_the_statements_before_it(rt: HostRuntime) -> Result<(), Fail> {
    let alloc = rt.alloc();
    for (kind, calls, leaves) in CALLS.iter() {
        for nth in 1..=*calls {
            for leave in *leaves {
                assert!(rt; leaves_what_it_tells(alloc, *kind, nth, *leave)?, "{nth}");
            }
        }
    }
    Ok(())
}

#[test]
fn an_output_that_fails_is_named_once_the_script_was_run(rt: HostRuntime) -> Result<(), Fail> {
    let alloc = rt.alloc();
    for (room, fail_at) in [(40, 0), (8192, 1)] {
        let mut store = MemoryStore::with_files(first_version(alloc)?);
        let script = one_file(alloc, "f", TWO_STATEMENTS.as_bytes())?;
        let mut inputs = MemoryInputs::with_files(script, 0);
        let mut out = MemorySink::new(alloc, room, fail_at)?;
        let mut clock = FixedClock::at(0);
        let words = ["run", "--table", TABLE, "--script", "f"];
        let words = words.as_slice();
        let status = run_program(alloc, words, &mut store, &mut inputs, &mut out, &mut clock);
        assert_eq!(rt; status.number(), 7);
        assert!(rt; TWO_REPORT.as_bytes().starts_with(out.bytes()));
        assert!(rt; has_rows(alloc, &mut store, SECOND)?);
    }
    Ok(())
}
