//! What holds of each script that was read. Each function says its law in its clauses, and does nothing.
ghost use Rattle.std.specs.Prelude.{◌≡◌, ℕ, List, Ok};
ghost use Rattle.std.specs.Str.{IsUtf8};
ghost use Rattle.row_values.specs.declared.schema.TableSchema.{TableSchema};
ghost use Rattle.dml_parser.specs.declared.script.Script.{Script};
ghost use Rattle.dml_parser.specs.Read.{AreNamed, AreRead, HasNo, IsPlainName, IsShort};
ghost use Rattle.dml_parser.specs.Script.{script_of};

/// Each statement changes `main`, reads columns that are there, and makes values of the columns' kinds.
pub fn statements_that_were_read_are_of_the_columns()
    ensures { (bytes : List ℕ) (schema : TableSchema) (script : Script) → script_of bytes schema ≡ Ok script → AreRead schema.columns script }
{}

/// A session's name is of letters, digits and low lines, so it is a text that has no hyphen (45)
/// and no slash (47).
pub fn sessions_that_were_read_have_plain_names()
    ensures plain { (bytes : List ℕ) (schema : TableSchema) (script : Script) → script_of bytes schema ≡ Ok script → AreNamed IsPlainName script }
    ensures text { (bytes : List ℕ) (schema : TableSchema) (script : Script) → script_of bytes schema ≡ Ok script → AreNamed IsUtf8 script }
    ensures no_hyphen { (bytes : List ℕ) (schema : TableSchema) (script : Script) → script_of bytes schema ≡ Ok script → AreNamed (HasNo 45) script }
    ensures no_slash { (bytes : List ℕ) (schema : TableSchema) (script : Script) → script_of bytes schema ≡ Ok script → AreNamed (HasNo 47) script }
{}

/// There is at most one session, of at most 4,096 statements.
pub fn scripts_that_were_read_are_short()
    ensures { (bytes : List ℕ) (schema : TableSchema) (script : Script) → script_of bytes schema ≡ Ok script → IsShort script }
{}
