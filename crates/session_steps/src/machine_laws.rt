//! The laws. Each is the contract of a function that does nothing.
ghost use Rattle.std.specs.Prelude.{◌≡◌, true, false, codes, option_map, ℕ, List as Seq, Some, Ok};
ghost use Rattle.row_values.specs.declared.schema.Column.{Column};
ghost use Rattle.row_values.specs.declared.schema.TableSchema.{TableSchema};
ghost use Rattle.row_values.specs.declared.value.Value.{Value};
ghost use Rattle.sql_statements.specs.declared.statement.Source.{Source};
ghost use Rattle.sql_statements.specs.declared.statement.Statement.{Statement};
ghost use Rattle.sql_statements.specs.Effects.{refusal, result_of};
ghost use Rattle.sql_statements.specs.Tables.{branch_of};
ghost use Rattle.store_core.specs.Files.{Files};
ghost use Rattle.session_machine.specs.declared.answer.Answer.TheVariants as answer;
ghost use Rattle.table_state.specs.Live.{data_files_of};
ghost use Rattle.table_state.specs.declared.state.State.{State as Loaded};
ghost use Rattle.change_sets.specs.declared.scanned.ScannedFile.{ScannedFile};
ghost use Rattle.table_scan.specs.Decisions.{hit_rows};
ghost use Rattle.change_sets.specs.Verdict.{is_absent, verdict};
ghost use Rattle.branch_commit.specs.Committing.{IsScanned};
ghost use Rattle.branch_commit.specs.Current.{IsCurrent};
ghost use Rattle.branch_commit.specs.Validation.{is_no_change};
ghost use Rattle.session_machine.specs.Sights.{keeps_all, keeps_at, plan_answer, refused_as, verdict_at};
ghost use Rattle.branch_commit.specs.declared.outcome.Pending.{Pending as Pends};
ghost use Rattle.session_steps.specs.Open.{IsOpen};
ghost use Rattle.session_steps.specs.Work.{IsPending};

/// On an open table the machine refuses a statement at its plan exactly where it is refused for the rows that its filter hits,
/// and for the same reason; and a branch that is loaded is at the current version.
pub fn a_plan_finds_what_the_machine_says()
    ensures version { (table : Seq ℕ) (schema : TableSchema) (s : Statement) (files : Files) (current : ℕ) (base : Loaded)
        → IsOpen table schema files current → IsCurrent table (branch_of s) files base → base.version ≡ current }
    ensures absent { (table : Seq ℕ) (schema : TableSchema) (sources : Seq Source) (s : Statement) (files : Files) (current : ℕ)
        (base : Loaded) → IsOpen table schema files current → IsCurrent table (branch_of s) files base → is_absent base.head ≡ true
        → plan_answer table sources s files current ≡ Ok (Some (answer.NoBranch (branch_of s))) }
    ensures found { (table : Seq ℕ) (schema : TableSchema) (sources : Seq Source) (s : Statement) (files : Files) (current : ℕ)
        (base : Loaded) (scanned : Seq ScannedFile) → IsOpen table schema files current → branch_of s ≡ codes "main"
        → IsCurrent table (branch_of s) files base → is_absent base.head ≡ false
        → IsScanned base s scanned files → plan_answer table sources s files current ≡ Ok (option_map (refused_as schema.columns)
        (refusal schema.columns sources s (hit_rows scanned))) }
{}

/// On an open table the machine's verdict on a statement that was planned there is that of its plan on the branch as it is
/// loaded, and the machine says that it keeps all rows exactly where its change is none.
pub fn a_validation_finds_what_the_machine_says()
    ensures verdict { (table : Seq ℕ) (schema : TableSchema) (sources : Seq Source) (s : Statement) (files : Files) (current : ℕ)
        (pending : Pends) (head : Loaded) → IsOpen table schema files current → branch_of s ≡ codes "main"
        → IsPending table schema sources s files pending → IsCurrent table (branch_of s) files head
        → verdict_at table sources s files pending.base.version current ≡ Ok (verdict pending.plan pending.change.depended (data_files_of pending.base.head) head.head) }
    ensures keeps { (table : Seq ℕ) (schema : TableSchema) (sources : Seq Source) (s : Statement) (files : Files) (current : ℕ)
        (pending : Pends) → IsOpen table schema files current → branch_of s ≡ codes "main" → IsPending table schema sources s files pending
        → keeps_at table sources s files pending.base.version ≡ Ok (is_no_change pending.change) }
{}

/// A statement that keeps each row and inserts none leaves the rows as they are, and is not refused unless two rows of a source
/// stand for one row.
pub fn a_statement_that_keeps_all_leaves_the_rows()
    ensures { (columns : Seq Column) (sources : Seq Source) (s : Statement) (rows : Seq (Seq Value))
        → keeps_all sources s columns rows ≡ true → refusal columns sources s rows ≡ None
        → result_of columns sources s rows ≡ Ok rows }
{}
