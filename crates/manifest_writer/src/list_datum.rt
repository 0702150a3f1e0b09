//! The rows of a manifest list as datums.
ghost use Rattle.std.specs.Prelude.{◌≡◌, IfOk, map};
ghost use Rattle.std.specs.List.{AllByRecursion};
ghost use Rattle.manifest_writer.specs.ListDatum.{
  content_number,
  head_values,
  count_values,
  datum_of_summary,
  partitions_value,
  datum_of_row,
  HasHead,
  HasCounts,
  IsRow,
};

use crate::value::{
    int_datum, long_datum, optional_bound, optional_int, optional_long, text_datum,
};
use avro_binary::{Datum, Items};
use kind_values::Summary;
use manifest_files::{ManifestContent, ManifestRow};
use row_writer::value_branch;
use std::alloc::{AllocError, Global};

fn content_number(content: ManifestContent) -> i32
    ensures { result ≡ content_number content }
{
    match content {
        ManifestContent::Data => 0,
        ManifestContent::Deletes => 1,
    }
}

fn datum_of_summary(alloc: Global, summary: &Summary) -> Result<Datum, AllocError>
    ensures { IfOk result (λ d. d ≡ datum_of_summary summary.now) }
{
    let mut values = Vec::new(alloc);
    values.push(Datum::Boolean(summary.contains_null))?;
    values.push(optional_bound(alloc, &summary.lower)?)?;
    values.push(optional_bound(alloc, &summary.upper)?)?;
    Ok(Datum::Record(Items::from_vec(values)))
}

fn datums_of_summaries(alloc: Global, summaries: &[Summary]) -> Result<Vec<Datum>, AllocError>
    ensures { IfOk result (λ ds. ds.items ≡ map datum_of_summary summaries.now) }
{
    let mut datums = Vec::new(alloc);
    for summary in summaries {
        datums.push(datum_of_summary(alloc, summary)?)?;
    }
    Ok(datums)
}

fn partitions_value(alloc: Global, row: &ManifestRow) -> Result<Datum, AllocError>
    ensures { IfOk result (λ d. d ≡ partitions_value row.now) }
{
    let datums = datums_of_summaries(alloc, row.partitions.as_slice())?;
    value_branch(alloc, Datum::Array(Items::from_vec(datums)))
}

fn head_values(alloc: Global, row: &ManifestRow) -> Result<Vec<Datum>, AllocError>
    ensures same { IfOk result (λ values. values.items ≡ head_values row.now) }
    ensures range { IfOk result (λ values. HasHead row.now) }
{
    let mut values = Vec::new(alloc);
    values.push(text_datum(alloc, &row.manifest_path)?)?;
    values.push(optional_long(alloc, row.manifest_length)?)?;
    values.push(int_datum(row.partition_spec_id))?;
    values.push(int_datum(content_number(row.content)))?;
    values.push(long_datum(row.sequence_number))?;
    values.push(long_datum(row.min_sequence_number))?;
    values.push(long_datum(row.added_snapshot_id))?;
    Ok(values)
}

fn count_values(alloc: Global, row: &ManifestRow) -> Result<Vec<Datum>, AllocError>
    ensures same { IfOk result (λ values. values.items ≡ count_values row.now) }
    ensures range { IfOk result (λ values. HasCounts row.now) }
{
    let mut values = Vec::new(alloc);
    values.push(optional_int(alloc, row.added_files_count)?)?;
    values.push(optional_int(alloc, row.existing_files_count)?)?;
    values.push(optional_int(alloc, row.deleted_files_count)?)?;
    values.push(optional_long(alloc, row.added_rows_count)?)?;
    values.push(optional_long(alloc, row.existing_rows_count)?)?;
    values.push(optional_long(alloc, row.deleted_rows_count)?)?;
    Ok(values)
}

fn datum_of_row(alloc: Global, row: &ManifestRow) -> Result<Datum, AllocError>
    ensures same { IfOk result (λ d. d ≡ datum_of_row row.now) }
    ensures range { IfOk result (λ d. IsRow row.now) }
{
    let mut values = head_values(alloc, row)?;
    let mut counts = count_values(alloc, row)?;
    values.append(&mut counts)?;
    values.push(partitions_value(alloc, row)?)?;
    Ok(Datum::Record(Items::from_vec(values)))
}

pub(crate) fn datums_of_rows(alloc: Global, rows: &[ManifestRow]) -> Result<Vec<Datum>, AllocError>
    ensures same { IfOk result (λ ds. ds.items ≡ map datum_of_row rows.now) }
    ensures range { IfOk result (λ ds. AllByRecursion IsRow rows.now) }
{
    let mut datums = Vec::new(alloc);
    for row in rows {
        datums.push(datum_of_row(alloc, row)?)?;
    }
    Ok(datums)
}
