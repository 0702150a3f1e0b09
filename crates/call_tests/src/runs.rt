//! The number of a run.

use std::test::Fail;
use store_core::{Blob, File, List, MemoryStore, Name};
use table_names::fresh_run;

#[test]
fn a_run_takes_the_least_number_that_no_name_bears(rt: HostRuntime) -> Result<(), Fail> {
    let alloc = rt.alloc();
    let mut files = List::new(alloc);
    for name in [
        "t/data/r1-load-1.avro",
        "t/data/r1-load-2.avro",
        "t/metadata/r2-load-3.avro",
        "t/data/r03-load-1.avro",
        "t/data/r30-load-1.avro",
        "t/data/r3.avro",
        "t/metadata/r4-load-1.avro",
        "t/data/r18446744073709551617-load-1.avro",
        "t/data/s/r3-load-1.avro",
        "u/data/r3-load-1.avro",
        "u/metadata/r0-load-1.avro",
        "w/metadata/r1-load-1.avro",
        "w/data/r2-load-1.avro",
        "w/data/r3-load-1.avro",
    ] {
        files.push(File {
            name: Name::copy_of(alloc, name)?,
            bytes: Blob::copy_of(alloc, b"")?,
        })?;
    }
    let mut store = MemoryStore::with_files(files);
    assert_eq!(rt; fresh_run(alloc, &mut store, "t")?, 3);
    assert_eq!(rt; fresh_run(alloc, &mut store, "u")?, 1);
    assert_eq!(rt; fresh_run(alloc, &mut store, "v")?, 1);
    assert_eq!(rt; fresh_run(alloc, &mut store, "w")?, 4);
    Ok(())
}
