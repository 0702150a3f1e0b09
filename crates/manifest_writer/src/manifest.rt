//! Manifests.
ghost use Rattle.std.specs.Prelude.{◌≡◌, IfOk};
ghost use Rattle.std.specs.List.{AllByRecursion};
ghost use Rattle.manifest_writer.specs.EntryDatum.{manifest_text, IsEntry};

use crate::entry_datum::datums_of_entries;
use crate::entry_schema::entry_schema;
use crate::manifest_meta::manifest_meta;
use avro_container::{Container, write_container};
use manifest_files::Entry;
use plain_types::{Bytes, List};
use row_values::{Spec, TableSchema};
use std::alloc::{AllocError, Global};

/// The bytes of the manifest of these entries, of data files or of delete files as the first. An added entry's sequence
/// numbers are null, since it takes those of the manifest's row; a partition value that is none of its field's kind is
/// null, too.
pub fn write_manifest(
    alloc: Global,
    entries: &[Entry],
    spec: &Spec,
    schema: &TableSchema,
) -> Result<Bytes, AllocError>
    ensures text { IfOk result (λ bytes. bytes ≡ manifest_text entries.now spec.now schema.now) }
    ensures entries { IfOk result (λ bytes. AllByRecursion IsEntry entries.now) }
{
    let datums = datums_of_entries(alloc, spec, schema, entries)?;
    let container = Container {
        schema: entry_schema(alloc, spec, schema)?,
        meta: List::from_vec(manifest_meta(alloc, entries, spec, schema)?),
        datums: List::from_vec(datums),
    };
    write_container(alloc, &container)
}
