ghost use Rattle.std.specs.Prelude.{◌≡◌, ◌++◌, IfOk, OnOk, map};
ghost use Rattle.csv.specs.Writing.{row_text, writer_under};
ghost use Rattle.run_report.specs.Texts.{field_of};
ghost use Rattle.run_report.specs.Records.{IsReady, record_of, records_of, settings, without_last};

use crate::fields::put_field;
use csv::{Writer, WriterBuilder};
use plain_types::{Bytes, sort_in_byte_order};
use row_values::{Row, Value};
use std::alloc::{AllocError, Global};

fn fields_of(alloc: Global, row: &[Value]) -> Result<Vec<Vec<u8>>, AllocError>
    ensures { IfOk result (λ fields. map (λ f. f.items) fields.items ≡ map field_of row.now) }
{
    let mut fields = Vec::with_capacity(alloc, row.len())?;
    for value in row {
        let mut field = Vec::new(alloc);
        put_field(alloc, &mut field, value)?;
        fields.push(field)?;
    }
    Ok(fields)
}

fn slices_of(alloc: Global, fields: &[Vec<u8>]) -> Result<Vec<&[u8]>, AllocError>
    ensures { IfOk result (λ slices. map (λ s. s.now) slices.items ≡ map (λ f. f.items) fields.now) }
{
    let mut slices = Vec::with_capacity(alloc, fields.len())?;
    for field in fields {
        slices.push(field.as_slice())?;
    }
    Ok(slices)
}

// Writes a line, and holds nothing back.
fn write_line(writer: &mut Writer<Vec<u8>>, fields: &[&[u8]]) -> Result<(), AllocError>
    requires { IsReady writer.old }
    ensures ready { OnOk result (IsReady writer.new) }
    ensures text { OnOk result ((writer_under writer.new).items ≡ (writer_under writer.old).items ++ row_text settings (map (λ f. f.now) fields.now)) }
{
    match writer.write_fields(fields) {
        Ok(()) => {}
        Err(_) => return Err(AllocError),
    }
    match writer.flush() {
        Ok(()) => Ok(()),
        Err(_) => Err(AllocError),
    }
}

// The record of a row, by a writer that is used for row after row.
fn record_of(
    alloc: Global,
    writer: &mut Writer<Vec<u8>>,
    row: &[Value],
) -> Result<Bytes, AllocError>
    requires { IsReady writer.old }
    ensures ready { OnOk result (IsReady writer.new) }
    ensures text { IfOk result (λ text. text ≡ record_of row.now) }
{
    let before = writer.get_ref().len();
    let fields = fields_of(alloc, row)?;
    let slices = slices_of(alloc, fields.as_slice())?;
    write_line(writer, slices.as_slice())?;
    let (_, line) = writer.get_ref().as_slice().split_at(before);
    Bytes::copy_of(alloc, without_last(line))
}

fn without_last(line: &[u8]) -> &[u8]
    ensures { result.now ≡ without_last line.now }
{
    match line {
        [front @ .., _] => front,
        [] => line,
    }
}

/// The records of the rows, sorted by their bytes.
pub fn sorted_records(alloc: Global, rows: &[Row]) -> Result<Vec<Bytes>, AllocError>
    ensures { IfOk result (λ records. records.items ≡ records_of rows.now) }
{
    let mut records = records_in_order(alloc, rows)?;
    sort_in_byte_order(&mut records)?;
    Ok(records)
}

fn records_in_order(alloc: Global, rows: &[Row]) -> Result<Vec<Bytes>, AllocError>
    ensures { IfOk result (λ records. records.items ≡ map record_of rows.now) }
{
    let mut writer = new_writer(alloc);
    let mut records = Vec::with_capacity(alloc, rows.len())?;
    for row in rows {
        records.push(record_of(alloc, &mut writer, row.as_slice())?)?;
    }
    Ok(records)
}

fn new_writer(alloc: Global) -> Writer<Vec<u8>>
    ensures { IsReady result }
{
    WriterBuilder::new()
        .flexible(true)
        .from_writer(Vec::new(alloc))
}
