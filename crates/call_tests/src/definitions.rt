//! The first version of a table, by its schema file.

use plain_types::Bytes;
use std::alloc::Global;
use std::test::Fail;
use table_definition::{first_text, read_definition};

const SMALL: &str =
    r#"{"schema":{"type":"struct","schema-id":0,"fields":[{"id":1,"name":"x","required":true,"type":"long"}]}}"#;

const WHOLE: &str = r#"{
"schema":{"type":"struct","schema-id":3,"fields":[
{"id":7,"name":"at","required":false,"type":"timestamptz"},
{"id":2,"name":"key","required":true,"type":"long","doc":"k"}]},
"partition-spec":[
{"source-id":7,"field-id":1001,"name":"day","transform":"day"},
{"source-id":2,"field-id":1000,"name":"part","transform":"bucket[16]"}],
"properties":{"write.delete.mode":"merge-on-read","owner":"o"}
}"#;

fn text_of(alloc: Global, file: &str) -> Result<Bytes, Fail> {
    let definition = read_definition(alloc, file.as_bytes())?;
    let text = first_text(alloc, &definition, "h", 1700000000000)?;
    Ok(text)
}

#[test]
fn the_first_version_is_written(rt: HostRuntime) -> Result<(), Fail> {
    for (file, wanted) in [
        (
            SMALL,
            r#"{"current-schema-id":0,"default-sort-order-id":0,"default-spec-id":0,"format-version":2,"last-column-id":1,"last-partition-id":999,"last-sequence-number":0,"last-updated-ms":1700000000000,"location":"h","partition-specs":[{"fields":[],"spec-id":0}],"properties":{},"schemas":[{"fields":[{"id":1,"name":"x","required":true,"type":"long"}],"schema-id":0,"type":"struct"}],"sort-orders":[{"fields":[],"order-id":0}],"table-uuid":"29ac0894-7884-5831-8a36-17e914394540"}"#,
        ),
        (
            WHOLE,
            r#"{"current-schema-id":3,"default-sort-order-id":0,"default-spec-id":0,"format-version":2,"last-column-id":7,"last-partition-id":1001,"last-sequence-number":0,"last-updated-ms":1700000000000,"location":"h","partition-specs":[{"fields":[{"field-id":1001,"name":"day","source-id":7,"transform":"day"},{"field-id":1000,"name":"part","source-id":2,"transform":"bucket[16]"}],"spec-id":0}],"properties":{"owner":"o","write.delete.mode":"merge-on-read"},"schemas":[{"fields":[{"id":7,"name":"at","required":false,"type":"timestamptz"},{"doc":"k","id":2,"name":"key","required":true,"type":"long"}],"schema-id":3,"type":"struct"}],"sort-orders":[{"fields":[],"order-id":0}],"table-uuid":"29ac0894-7884-5831-8a36-17e914394540"}"#,
        ),
    ] {
        let text = text_of(rt.alloc(), file)?;
        assert_eq!(rt; text.as_slice(), wanted.as_bytes());
    }
    Ok(())
}
