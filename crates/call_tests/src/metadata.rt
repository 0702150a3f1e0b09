//! A whole document of metadata, after the standard's own.

use iceberg_schema::{TransformFault, read_transform};
use row_values::{Kind, Transform, has_id, has_name, kind_of_column};
use std::test::Fail;
use table_metadata::{current_schema, read_metadata};

// After the example of valid metadata in Iceberg's own tests.
const GOOD: &str = r#"{
"format-version":2,
"table-uuid":"9c12d441-03fe-4693-9a96-a0705ddf69c1",
"location":"s3://warehouse/t",
"last-sequence-number":34,
"last-updated-ms":1602638573590,
"last-column-id":4,
"schemas":[
{"schema-id":0,"type":"struct","fields":[{"id":1,"name":"x","required":true,"type":"int"}]},
{"schema-id":1,"type":"struct","fields":[
{"id":1,"name":"x","required":true,"type":"long"},
{"id":2,"name":"ts","required":false,"type":"timestamptz"},
{"id":3,"name":"amount","required":false,"type":"decimal(9, 2)"},
{"id":4,"name":"note","required":false,"type":"string"}]}],
"current-schema-id":1,
"partition-specs":[
{"spec-id":0,"fields":[]},
{"spec-id":3,"fields":[
{"source-id":2,"field-id":1000,"name":"ts_day","transform":"day"},
{"source-id":1,"field-id":1001,"name":"x_bucket","transform":"bucket[16]"}]}],
"default-spec-id":3,
"last-partition-id":1001,
"properties":{"write.delete.mode":"merge-on-read","commit.retry.num-retries":"1000","owner":"o"},
"current-snapshot-id":3055729675574597004,
"snapshots":[
{"snapshot-id":3051729675574597004,"sequence-number":0,"timestamp-ms":1515100955770,"manifest-list":"s3://warehouse/t/1.avro"},
{"snapshot-id":3055729675574597004,"parent-snapshot-id":3051729675574597004,"sequence-number":1,"timestamp-ms":1555100955770,"summary":{"operation":"append"},"manifest-list":"s3://warehouse/t/2.avro","schema-id":1}],
"snapshot-log":[],
"refs":{"test":{"snapshot-id":3051729675574597004,"type":"tag"},"audit":{"snapshot-id":3051729675574597004,"type":"branch"}},
"sort-orders":[{"order-id":3,"fields":[]}]
}"#;

#[test]
fn a_whole_document_is_read(rt: HostRuntime) -> Result<(), Fail> {
    let m = read_metadata(rt.alloc(), GOOD.as_bytes())?;
    assert_eq!(rt; m.format_version, 2);
    assert_eq!(rt; m.location.as_str(), "s3://warehouse/t");
    assert_eq!(rt; (m.last_sequence, m.last_updated_ms), (34, 1602638573590));
    assert_eq!(rt; (m.last_column, m.current_schema), (4, 1));
    assert_eq!(rt; (m.default_spec, m.last_partition), (3, 1001));
    assert_eq!(rt; m.current_snapshot, Some(3055729675574597004));
    let schema = m.schemas.get(1).ok_or("a second schema")?;
    let current = current_schema(&m).ok_or("a current schema")?;
    assert_eq!(rt; current.id, schema.id);
    let columns = schema.columns.as_slice();
    assert!(rt; has_id(4, columns));
    assert!(rt; has_name("note", columns));
    assert!(rt; kind_of_column(1, columns) == Some(Kind::Long));
    let amount = schema.columns.get(2).ok_or("a third column")?;
    assert_eq!(rt;
        amount.kind,
        Kind::Decimal {
            precision: 9,
            scale: 2
        }
    );
    assert!(rt; !amount.required);
    let spec = m.specs.get(1).ok_or("a second spec")?;
    let field = spec.fields.get(1).ok_or("a second field")?;
    assert_eq!(rt; (field.source, field.field), (1, 1001));
    assert_eq!(rt; field.transform, Transform::Bucket(16));
    Ok(())
}

#[test]
fn snapshots_refs_and_properties_are_read(rt: HostRuntime) -> Result<(), Fail> {
    let m = read_metadata(rt.alloc(), GOOD.as_bytes())?;
    let first = m.snapshots.get(0).ok_or("a first snapshot")?;
    assert_eq!(rt; (first.parent, first.schema), (None, None));
    assert!(rt; first.operation.is_empty());
    let second = m.snapshots.get(1).ok_or("a second snapshot")?;
    assert_eq!(rt; second.operation.as_str(), "append");
    assert_eq!(rt; (second.seq, second.schema), (1, Some(1)));
    let mut names = String::new(rt.alloc());
    for reference in m.refs.as_slice() {
        names.push_str(reference.name.as_str())?;
        names.push_str(if reference.tag { " tag," } else { " branch," })?;
    }
    assert_eq!(rt; names.as_str(), "audit branch,main branch,test tag,");
    assert!(rt; m.properties.delete.on_read);
    assert!(rt; !m.properties.update.on_read);
    assert_eq!(rt;
        (m.properties.retries, m.properties.least_to_merge),
        (1000, 100)
    );
    assert!(rt; m.properties.merge_enabled);
    Ok(())
}

#[test]
fn transforms_are_read_by_their_spellings(rt: HostRuntime) {
    let alloc = rt.alloc();
    assert_eq!(rt; read_transform(alloc, "years"), Ok(Transform::Year));
    assert_eq!(rt;
        read_transform(alloc, "truncate[10]"),
        Ok(Transform::Truncate(10))
    );
    assert_eq!(rt;
        read_transform(alloc, "truncate[0]"),
        Err(TransformFault::Width)
    );
    assert_eq!(rt;
        read_transform(alloc, "bucket[2147483648]"),
        Err(TransformFault::Width)
    );
    assert_eq!(rt;
        read_transform(alloc, "bucket[x]"),
        Err(TransformFault::Name)
    );
    assert_eq!(rt; read_transform(alloc, "zorder"), Err(TransformFault::Name));
}
