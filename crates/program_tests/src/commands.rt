//! Words that are no command, and a sink that fails.

use dml_program::{Status, run_program};
use std::alloc::{AllocError, Global};
use std::test::Fail;
use store_core::{Blob, File, FixedClock, List, MemoryInputs, MemorySink, MemoryStore, Name};

pub(crate) fn one_file(alloc: Global, name: &str, bytes: &[u8]) -> Result<List<File>, AllocError> {
    let mut files = List::new(alloc);
    files.push(File {
        name: Name::copy_of(alloc, name)?,
        bytes: Blob::copy_of(alloc, bytes)?,
    })?;
    Ok(files)
}

// Runs the program without inputs.
pub(crate) fn run(
    alloc: Global,
    words: &[&str],
    store: &mut MemoryStore,
    out: &mut MemorySink,
) -> Status {
    let mut inputs = MemoryInputs::with_files(List::new(alloc), 0);
    let mut clock = FixedClock::at(0);
    run_program(alloc, words, store, &mut inputs, out, &mut clock)
}

#[test]
fn a_sink_that_fails_leaves_the_status(rt: HostRuntime) -> Result<(), Fail> {
    let alloc = rt.alloc();
    let mut out = MemorySink::new(alloc, 64, 1)?;
    let status = run(alloc, &["rows"], &mut MemoryStore::new(alloc), &mut out);
    assert_eq!(rt; status.number(), 2);
    assert_eq!(rt; out.bytes(), b"".as_slice());
    let mut short = MemorySink::new(alloc, 5, 0)?;
    let status = run(alloc, &["rows"], &mut MemoryStore::new(alloc), &mut short);
    assert_eq!(rt; status.number(), 2);
    assert_eq!(rt; short.bytes(), b"fault".as_slice());
    Ok(())
}
