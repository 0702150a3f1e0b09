//! What is written of metadata after a commit.

use metadata_writer::{metadata_text, text, with_snapshot};
use plain_types::Text;
use serde_json::Value;
use std::alloc::{AllocError, Global};
use std::process::Abort;
use std::test::Fail;
use table_metadata::{Snapshot, read_metadata};

const TABLE: &str = r#"{
"format-version":2,
"table-uuid":"9c12d441-03fe-4693-9a96-a0705ddf69c1",
"location":"s3://warehouse/t",
"last-sequence-number":1,
"last-updated-ms":1600000000000,
"last-column-id":1,
"schemas":[{"schema-id":0,"type":"struct","fields":[{"id":1,"name":"x","required":true,"type":"long"}]}],
"current-schema-id":0,
"partition-specs":[{"spec-id":0,"fields":[]}],
"default-spec-id":0,
"last-partition-id":999,
"current-snapshot-id":5,
"snapshots":[{"snapshot-id":5,"sequence-number":1,"timestamp-ms":1600000000000,"manifest-list":"s3://warehouse/t/1.avro"}],
"snapshot-log":[{"snapshot-id":5,"timestamp-ms":1600000000000}],
"refs":{"audit":{"snapshot-id":5,"type":"branch","max-ref-age-ms":9},"main":{"snapshot-id":5,"type":"branch"}},
"statistics":[]
}"#;

/// What the snapshot 6 is.
fn head(alloc: Global) -> Result<Snapshot, AllocError> {
    Ok(Snapshot {
        id: 6,
        parent: Some(5),
        seq: 2,
        timestamp_ms: 1600000000001,
        list: Text::copy_of(alloc, "s3://warehouse/t/2.avro")?,
        operation: Text::copy_of(alloc, "append")?,
        schema: Some(0),
    })
}

/// The JSON after the snapshot is put on the branch.
fn commit_on(alloc: Global, branch: &str, now_ms: i64) -> Result<Value, Fail> {
    let metadata = read_metadata(alloc, TABLE.as_bytes())?;
    let snapshot = head(alloc)?;
    let json = with_snapshot(alloc, &metadata, branch, &snapshot, "r1-s-4w", now_ms)?;
    Ok(json)
}

/// The JSON's text under the pointer, or `absent`.
fn found(alloc: Global, json: &Value, path: &str) -> Result<String, AllocError> {
    match json.pointer(path) {
        Some(value) => value.to_string(alloc),
        None => String::from_str(alloc, "absent"),
    }
}

fn check_commit(
    rt: &impl Abort,
    alloc: Global,
    branch: &str,
    wanted: &[(&str, &str)],
) -> Result<(), Fail> {
    let json = commit_on(alloc, branch, 1600000000001)?;
    for (path, text) in wanted {
        let told = found(alloc, &json, path)?;
        assert_eq!(rt; told.as_str(), *text, "at {path}");
    }
    Ok(())
}

#[test]
fn a_commit_is_the_head_of_its_branch_alone(rt: HostRuntime) -> Result<(), Fail> {
    check_commit(
        &rt,
        rt.alloc(),
        "main",
        &[
            ("/current-snapshot-id", "6"),
            ("/last-sequence-number", "2"),
            ("/last-updated-ms", "1600000000001"),
            ("/dml-writer", "\"r1-s-4w\""),
            ("/snapshot-log/0/snapshot-id", "5"),
            (
                "/snapshot-log/1",
                "{\"snapshot-id\":6,\"timestamp-ms\":1600000000001}",
            ),
            ("/refs/main/snapshot-id", "6"),
            ("/refs/audit/snapshot-id", "5"),
            ("/snapshots/0/snapshot-id", "5"),
            ("/snapshots/1/parent-snapshot-id", "5"),
            ("/snapshots/1/summary", "{\"operation\":\"append\"}"),
            ("/statistics", "[]"),
        ],
    )?;
    check_commit(
        &rt,
        rt.alloc(),
        "audit",
        &[
            ("/current-snapshot-id", "5"),
            ("/snapshot-log/1", "absent"),
            ("/refs/main/snapshot-id", "5"),
            ("/refs/audit/snapshot-id", "6"),
            ("/refs/audit/max-ref-age-ms", "9"),
        ],
    )
}

#[test]
fn what_is_committed_is_read(rt: HostRuntime) -> Result<(), Fail> {
    let json = commit_on(rt.alloc(), "main", 1600000000001)?;
    let bytes = text(rt.alloc(), &json)?;
    let metadata = read_metadata(rt.alloc(), bytes.as_slice())?;
    assert_eq!(rt; metadata.current_snapshot, Some(6));
    Ok(())
}

#[test]
fn an_unread_key_is_written(rt: HostRuntime) -> Result<(), Fail> {
    let metadata = read_metadata(rt.alloc(), TABLE.as_bytes())?;
    let bytes = metadata_text(rt.alloc(), &metadata)?;
    let again = read_metadata(rt.alloc(), bytes.as_slice())?;
    assert!(rt; again.json.get("statistics").is_some());
    Ok(())
}
