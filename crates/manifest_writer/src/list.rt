//! Manifest lists.
ghost use Rattle.std.specs.Prelude.{◌≡◌, ◌^◌, ◌<◌, IsTrue, IfOk, List, Ok, length};
ghost use Rattle.std.specs.List.{AllByRecursion, list_all};
ghost use Rattle.manifest_files.specs.declared.manifest_row.ManifestRow.{ManifestRow as Row};
ghost use Rattle.manifest_files.specs.Lists.{rows_of_list};
ghost use Rattle.manifest_writer.specs.ListDatum.{list_text, is_listed, IsRow};

use crate::list_datum::datums_of_rows;
use crate::list_schema::list_schema;
use avro_container::{Container, write_container};
use manifest_files::ManifestRow;
use plain_types::{Bytes, List as Sequence};
use std::alloc::{AllocError, Global};

/// The bytes of the list of these rows. A count that is absent is null; so is a bound that is not bytes, since a list
/// says no kinds.
pub fn write_list(alloc: Global, rows: &[ManifestRow]) -> Result<Bytes, AllocError>
    ensures text { IfOk result (λ bytes. bytes ≡ list_text rows.now) }
    ensures rows { IfOk result (λ bytes. AllByRecursion IsRow rows.now) }
{
    let datums = datums_of_rows(alloc, rows)?;
    let container = Container {
        schema: list_schema(alloc)?,
        meta: Sequence::from_vec(Vec::new(alloc)),
        datums: Sequence::from_vec(datums),
    };
    write_container(alloc, &container)
}

/// Rows that are written are read again, where no count is negative and each bound is bytes.
pub fn a_written_list_is_read_again()
    ensures { (rows : List Row) → AllByRecursion IsRow rows → IsTrue (list_all is_listed rows) → length (list_text rows) < 2 ^ 63
        → rows_of_list (list_text rows) ≡ Ok rows }
{}
