//! Laws of what is written. Each function says its law in its clauses, and does nothing.
ghost use Rattle.std.specs.Prelude.{◌≡◌, ◌*◌, ◌^◌, ◌<◌, ◌≤◌, IsTrue, List, Ok, length};
ghost use Rattle.row_values.specs.declared.schema.Column.{Column};
ghost use Rattle.row_values.specs.declared.value.Value.{Value};
ghost use Rattle.row_values.specs.Rows.{AreRows};
ghost use Rattle.avro_container.specs.Container.{container_of};
ghost use Rattle.avro_rows.specs.Rows.{rows_of};
ghost use Rattle.row_writer.specs.Readable.{AreColumns};
ghost use Rattle.row_writer.specs.RowDatum.{row_size};
ghost use Rattle.row_writer.specs.RowsText.{rows_container, rows_text};
ghost use Rattle.row_writer.specs.Short.{is_short_row};

/// Rows that are written are read again: the bytes are a container, whose rows in the columns are these.
pub fn what_is_written_is_read()
    ensures container { (columns : List Column) → (rows : List (List Value)) → AreColumns columns → AreRows columns rows
        → length (rows_text columns rows) < 2 ^ 63 → container_of (rows_text columns rows) ≡ Ok (rows_container columns rows) }
    ensures rows { (columns : List Column) → (rows : List (List Value)) → AreColumns columns → AreRows columns rows
        → rows_of (rows_container columns rows) columns ≡ Ok rows }
{}

/// A row whose texts and bytes have at most 131,072 bytes each takes at most 131,076 bytes a column.
pub fn a_short_row_takes_few_bytes()
    ensures { (columns : List Column) → (row : List Value) → IsTrue (is_short_row row) → row_size columns row ≤ 131076 * length columns }
{}
