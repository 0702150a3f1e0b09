//! The versions of a table.

use std::test::Fail;
use store_core::{Blob, File, List, MemoryStore, Name};
use table_names::{current_version, version_name};

#[test]
fn the_current_version_is_the_greatest_by_number(rt: HostRuntime) -> Result<(), Fail> {
    let alloc = rt.alloc();
    let mut files = List::new(alloc);
    for name in [
        "t/metadata/v0.metadata.json",
        "t/metadata/v2.metadata.json",
        "t/metadata/v10.metadata.json",
        "t/metadata/v9.metadata.json",
        "t/metadata/v011.metadata.json",
        "t/metadata/v12.metadata.json.gz",
        "t/metadata/v4294967296.metadata.json",
        "t/metadata/v13",
        "u/metadata/v4294967295.metadata.json",
    ] {
        files.push(File {
            name: Name::copy_of(alloc, name)?,
            bytes: Blob::copy_of(alloc, b"")?,
        })?;
    }
    let mut store = MemoryStore::with_files(files);
    assert_eq!(rt; current_version(alloc, &mut store, "t")?, Some(10));
    assert_eq!(rt; current_version(alloc, &mut store, "u")?, Some(4294967295));
    assert_eq!(rt; current_version(alloc, &mut store, "v")?, None);
    assert_eq!(rt;
        version_name(alloc, "t", 10)?.as_str(),
        "t/metadata/v10.metadata.json"
    );
    Ok(())
}
