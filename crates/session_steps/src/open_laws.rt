//! The laws. Each is the contract of a function that does nothing.
ghost use Rattle.std.specs.Prelude.{◌≡◌, ◌≢◌, ◌+◌, ◌<◌, codes, length, ℕ, List as Seq, Some, None, Ok};
ghost use Rattle.std.specs.FinMap as map;
ghost use Rattle.plain_types.specs.Bags.{SameBag};
ghost use Rattle.row_values.specs.declared.schema.TableSchema.{TableSchema};
ghost use Rattle.sql_statements.specs.declared.statement.Source.{Source};
ghost use Rattle.sql_statements.specs.declared.statement.Statement.{Statement};
ghost use Rattle.sql_statements.specs.Effects.{result_of, rows_after};
ghost use Rattle.sql_statements.specs.Tables.{branch_of};
ghost use Rattle.store_core.specs.Files.{Files, KeepsFiles};
ghost use Rattle.table_names.specs.Versions.{version_name, version_of_name, version_prefix};
ghost use Rattle.table_metadata.specs.Metadata.{parts};
ghost use Rattle.table_state.specs.Files.{version_at};
ghost use Rattle.commit_builder.specs.declared.commit.Prepared.{Prepared};
ghost use Rattle.branch_commit.specs.declared.outcome.Pending.{Pending as Pends};
ghost use Rattle.session_steps.specs.Open.{IsOpen};
ghost use Rattle.session_steps.specs.Work.{IsSwapping};

/// The version that is prepared on an open table is the next one, whose name is not there yet, and the one that the statement
/// was planned on is the current one, with the metadata that was read then.
pub fn a_prepared_version_is_the_next_one()
    ensures name { (table : Seq ℕ) (schema : TableSchema) (sources : Seq Source) (s : Statement) (files : Files) (current : ℕ)
        (pending : Pends) (prepared : Prepared) → IsOpen table schema files current
        → IsSwapping table schema sources s files pending prepared → prepared.name ≡ version_name table (current + 1) }
    ensures missing { (table : Seq ℕ) (schema : TableSchema) (sources : Seq Source) (s : Statement) (files : Files) (current : ℕ)
        (pending : Pends) (prepared : Prepared) → IsOpen table schema files current
        → IsSwapping table schema sources s files pending prepared → map.get files prepared.name ≡ None }
    ensures planned { (table : Seq ℕ) (schema : TableSchema) (sources : Seq Source) (s : Statement) (files : Files) (current : ℕ)
        (pending : Pends) (prepared : Prepared) → IsOpen table schema files current
        → IsSwapping table schema sources s files pending prepared → (pending.base.version ≡ current)
        × (version_at table current files ≡ Ok (parts pending.base.metadata)) }
{}

/// Once the version that was prepared on an open table stands under its name, and no other name of a version is there anew, the
/// table is open at it, and has the rows, as a bag, that the statement leaves of those that it had.
pub fn a_committed_statement_keeps_the_table_open()
    ensures { (table : Seq ℕ) (schema : TableSchema) (sources : Seq Source) (s : Statement) (files later : Files) (current : ℕ)
        (pending : Pends) (prepared : Prepared) (was : IsOpen table schema files current) → branch_of s ≡ codes "main"
        → IsSwapping table schema sources s files pending prepared
        → map.get later prepared.name ≡ Some prepared.bytes → KeepsFiles (Some files) (Some later)
        → ((name : Seq ℕ) → 0 < version_of_name (version_prefix table) name → name ≢ prepared.name
        → map.get later name ≡ map.get files name)
        → (next : IsOpen table schema later (current + 1))
        × (result_of schema.columns sources s was.rows ≡ Ok (rows_after (length schema.columns) sources s was.rows))
        × SameBag next.rows (rows_after (length schema.columns) sources s was.rows) }
{}
