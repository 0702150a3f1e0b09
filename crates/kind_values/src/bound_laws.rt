//! Laws of bounds that are written. Each function says its law in its clauses, and does nothing.
ghost use Rattle.std.specs.Prelude.{◌≡◌, IsTrue, Some};
ghost use Rattle.row_values.specs.declared.kind.Kind.{Kind};
ghost use Rattle.row_values.specs.declared.value.Value.{Value};
ghost use Rattle.row_values.specs.Rows.{is_value};
ghost use Rattle.kind_values.specs.Bounds.{is_kind, bound_of, bytes_of};

/// The value of a kind is read again from the bytes that it is written as.
pub fn a_written_bound_is_read_again()
    ensures { (k : Kind) → (v : Value) → IsTrue (is_kind k) → IsTrue (is_value k v) → bound_of k (bytes_of v) ≡ Some v }
{}
