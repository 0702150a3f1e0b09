// Lines of texts, and the lines of rows.
ghost use Rattle.plain_types.specs.Appends.{Appends};
ghost use Rattle.std.specs.List.{flat_map};
ghost use Rattle.run_report.specs.Report.{line, row_line, row_lines};

use crate::escapes::put_escaped;
use crate::records::sorted_records;
use plain_types::Bytes;
use row_values::Row;
use std::alloc::{AllocError, Global};

/// Appends the text as one line, with its line feed.
pub fn put_line(text: &[u8], out: &mut Vec<u8>) -> Result<(), AllocError>
    ensures { Appends out.old.items out.new.items (line text.now) result }
{
    put_escaped(out, text)?;
    out.push(b'\n')?;
    Ok(())
}

/// Appends the lines of the rows, sorted by the bytes of their records.
pub fn put_rows(alloc: Global, rows: &[Row], out: &mut Vec<u8>) -> Result<(), AllocError>
    ensures { Appends out.old.items out.new.items (row_lines rows.now) result }
{
    let records = sorted_records(alloc, rows)?;
    put_records(records.as_slice(), out)
}

fn put_records(records: &[Bytes], out: &mut Vec<u8>) -> Result<(), AllocError>
    ensures { Appends out.old.items out.new.items (flat_map row_line records.now) result }
{
    for text in records {
        put_row(text.as_slice(), out)?;
    }
    Ok(())
}

fn put_row(text: &[u8], out: &mut Vec<u8>) -> Result<(), AllocError>
    ensures { Appends out.old.items out.new.items (row_line text.now) result }
{
    out.extend_from_slice(b"row ")?;
    put_line(text, out)
}
