//! The law of faults. It is the contract of a function that does nothing.
ghost use Rattle.std.specs.Prelude.{◌≡◌, codes, ℕ, List as Seq};
ghost use Rattle.row_values.specs.declared.schema.TableSchema.{TableSchema};
ghost use Rattle.sql_statements.specs.declared.statement.Statement.{Statement};
ghost use Rattle.sql_statements.specs.Tables.{branch_of};
ghost use Rattle.store_core.specs.Files.{Files};
ghost use Rattle.session_steps.specs.Open.{IsOpen};
ghost use Rattle.session_steps.specs.declared.fault.RunFault.{RunFault};
ghost use Rattle.session_steps.specs.Faults.{CannotStep};
ghost use Rattle.session_steps.specs.Outside.{IsOfOutside};

/// On an open table a step of a statement on `main` finds its branch, its data files and the schema: it can't be made only for
/// what is no fault of the table.
pub fn a_step_on_an_open_table_can_be_read()
    ensures { (table : Seq ℕ) (schema : TableSchema) (s : Statement) (files : Files) (current : ℕ) (fault : RunFault)
        → branch_of s ≡ codes "main" → IsOpen table schema files current → CannotStep table schema s files fault
        → IsOfOutside table files current fault }
{}
