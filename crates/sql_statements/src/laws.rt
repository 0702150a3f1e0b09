//! Laws of the statements. Each function says its law in its clauses, and does nothing.

ghost use Rattle.std.specs.Prelude.{◌≡◌, ◌++◌, ℕ, [], List, map, None, Ok, false, length, IsTrue};
ghost use Rattle.std.specs.List.{list_all};
ghost use Rattle.plain_types.specs.Bags.{SameBag};
ghost use Rattle.row_values.specs.declared.value.Value.{Value};
ghost use Rattle.row_values.specs.declared.schema.Column.{Column};
ghost use Rattle.row_values.specs.Rows.{AreRows};
ghost use Rattle.sql_predicates.specs.declared.expr.Expr.{Expr};
ghost use Rattle.sql_predicates.specs.declared.pred.Pred.{Pred};
ghost use Rattle.sql_statements.specs.declared.statement.Source.{Source};
ghost use Rattle.sql_statements.specs.declared.statement.Statement.{Statement};
ghost use Rattle.sql_statements.specs.declared.statement.Statement.TheVariants as statement;
ghost use Rattle.sql_statements.specs.Effects.{effect, insertions, result_of, refusal, rows_after};
ghost use Rattle.sql_statements.specs.Filter.{always, filter_of, hits, misses};
ghost use Rattle.sql_statements.specs.Fits.{are_wide};
ghost use Rattle.sql_statements.specs.Kinds.{source_has_rows, statement_fits};
ghost use Rattle.sql_statements.specs.Clauses.{holds_on};
ghost use Rattle.sql_statements.specs.declared.effect.Effect.TheVariants.{Keep};
ghost use Rattle.sql_statements.specs.NewRows.{new_row, row_of};
ghost use Rattle.sql_statements.specs.Results.{SameResult, beside};

/// The same bag of rows, the same refusal or the same bag after the statement.
pub fn order_of_rows_does_not_matter()
    ensures { (columns : List Column) (sources : List Source) (s : Statement) (xs ys : List (List Value)) →
        SameBag xs ys → SameResult (result_of columns sources s xs) (result_of columns sources s ys) }
{}

/// A DELETE whose filter is TRUE leaves nothing.
pub fn delete_of_all_leaves_nothing()
    ensures { (width : ℕ) (sources : List Source) (branch : List ℕ) (rows : List (List Value)) →
        rows_after width sources (statement.Delete branch always) rows ≡ [] }
{}

pub fn delete_is_never_refused()
    ensures { (columns : List Column) (sources : List Source) (branch : List ℕ) (filter : Pred) (rows : List (List Value)) →
        refusal columns sources (statement.Delete branch filter) rows ≡ None }
{}

/// An INSERT that is not refused adds exactly the rows of its tuples.
pub fn insert_adds_exactly_its_rows()
    ensures { (width : ℕ) (sources : List Source) (branch : List ℕ) (tuples : List (List Expr)) (rows : List (List Value)) →
        rows_after width sources (statement.Insert branch tuples) rows ≡ rows ++ map row_of (map (new_row []) tuples) }
{}

/// A SELECT is never refused, and leaves the rows as they are.
pub fn select_leaves_the_rows_as_they_are()
    ensures { (columns : List Column) (sources : List Source) (branch : List ℕ) (filter : Pred) (rows : List (List Value)) →
        result_of columns sources (statement.Select branch filter) rows ≡ Ok rows }
{}

/// Rows of the columns are as wide as the laws of filters ask.
pub fn rows_of_the_columns_are_wide()
    ensures { (columns : List Column) (rows : List (List Value)) →
        AreRows columns rows → IsTrue (are_wide (length columns) rows) }
{}

/// A row for which the filter is not True is kept.
pub fn rows_outside_the_filter_are_kept()
    ensures { (sources : List Source) (s : Statement) (row : List Value) →
        holds_on (filter_of (length row) s) row ≡ false → effect sources s row ≡ Keep }
{}

/// What is inserted and why the statement is refused depend only on the bag of rows for which the
/// filter is True.
pub fn statements_depend_on_the_rows_of_their_filter()
    ensures inserted { (width : ℕ) (sources : List Source) (s : Statement) (xs ys : List (List Value)) →
        IsTrue (are_wide width xs) → IsTrue (are_wide width ys) →
        SameBag (hits width s xs) (hits width s ys) → insertions width sources s xs ≡ insertions width sources s ys }
    ensures refused { (columns : List Column) (sources : List Source) (s : Statement) (xs ys : List (List Value)) →
        IsTrue (are_wide (length columns) xs) → IsTrue (are_wide (length columns) ys) →
        SameBag (hits (length columns) s xs) (hits (length columns) s ys) →
        refusal columns sources s xs ≡ refusal columns sources s ys }
{}

/// A statement leaves the rows outside its filter as they are, beside what it leaves of the others,
/// and is refused where it is refused on those alone.
pub fn a_statement_acts_on_the_rows_of_its_filter()
    ensures { (columns : List Column) (sources : List Source) (s : Statement) (rows : List (List Value)) →
        IsTrue (are_wide (length columns) rows) →
        SameResult (result_of columns sources s rows)
        (beside (misses (length columns) s rows) (result_of columns sources s (hits (length columns) s rows))) }
{}

/// A statement whose expressions fit their columns leaves rows of the columns, where it is not refused.
pub fn a_statement_that_fits_leaves_rows_of_the_columns()
    ensures { (columns : List Column) (sources : List Source) (s : Statement) (rows left : List (List Value)) →
        IsTrue (list_all source_has_rows sources) → IsTrue (statement_fits columns sources s) →
        AreRows columns rows → result_of columns sources s rows ≡ Ok left → AreRows columns left }
{}
