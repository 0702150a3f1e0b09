//! Laws of expressions. Each function says its law in its clauses, and does nothing.

ghost use Rattle.std.specs.Prelude.{◌≡◌, List, Ok, IsTrue};
ghost use Rattle.row_values.specs.declared.kind.Kind.{Kind};
ghost use Rattle.row_values.specs.declared.value.Value.{Value};
ghost use Rattle.row_values.specs.declared.schema.Column.{Column};
ghost use Rattle.row_values.specs.Rows.{is_row};
ghost use Rattle.sql_predicates.specs.declared.expr.Expr.{Expr};
ghost use Rattle.sql_predicates.specs.Exprs.{value_of};
ghost use Rattle.sql_predicates.specs.Kinds.{fits, has_kinds, is_value_or_null};

/// An expression that fits a kind has a value of the kind or NULL, unless it overflows, on each row whose
/// values are of the kinds of the columns or NULL. A row of the columns is one.
pub fn an_expression_has_the_kind_that_it_fits()
    ensures value { (columns : List Column) (row : List Value) (expr : Expr) (kind : Kind) (v : Value) →
        IsTrue (has_kinds columns row) → IsTrue (fits columns expr kind) →
        value_of expr row ≡ Ok v → IsTrue (is_value_or_null kind v) }
    ensures rows { (columns : List Column) (row : List Value) →
        IsTrue (is_row columns row) → IsTrue (has_kinds columns row) }
{}
