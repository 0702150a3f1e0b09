//! Laws of what is read. Each function says its law in its clauses, and does nothing.
ghost use Rattle.std.specs.Prelude.{◌≡◌, [], ◌∷◌, List, Ok, length};
ghost use Rattle.std.specs.List.{list_all};
ghost use Rattle.std.specs.Result.{is_ok};
ghost use Rattle.row_values.specs.declared.schema.Column.{Column};
ghost use Rattle.row_values.specs.declared.value.Value.{Value};
ghost use Rattle.row_values.specs.Rows.{AreRows};
ghost use Rattle.avro_container.specs.declared.container.Container.{Container};
ghost use Rattle.avro_rows.specs.Columns.{read_of, both_read};
ghost use Rattle.avro_rows.specs.Rows.{rows_of};

/// Columns are read each for itself: columns are read together exactly where each is read alone, and a column's values
/// beside others are those that it has alone.
pub fn columns_are_read_each_for_itself()
    ensures success { (container : Container) (columns : List Column)
        → is_ok (rows_of container columns) ≡ list_all (λ column. is_ok (rows_of container (column ∷ []))) columns }
    ensures values { (container : Container) (column : Column) (columns : List Column)
        → read_of (rows_of container (column ∷ columns)) ≡ both_read (read_of (rows_of container (column ∷ [])))
        (read_of (rows_of container columns)) }
{}

/// Rows that are read are rows of the columns, whatever the container holds, and each datum gives one.
pub fn rows_are_of_their_columns()
    ensures kinds { (container : Container) (columns : List Column) (rows : List (List Value)) → rows_of container columns ≡ Ok rows → AreRows columns rows }
    ensures count { (container : Container) (columns : List Column) (rows : List (List Value))
        → rows_of container columns ≡ Ok rows → length rows ≡ length container.datums }
{}
