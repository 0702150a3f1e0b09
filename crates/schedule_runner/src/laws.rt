//! The laws of runs. Each is the contract of a function that does nothing.
ghost use Rattle.std.specs.Prelude.{◌≡◌, ◌⊎◌, ◌∷◌, ◌++◌, [], IsTrue, not, true, codes, slice_get, ℕ, List as Seq, Option as Maybe, None, Ok, Some};
ghost use Rattle.std.specs.List.{AllByRecursion, list_all};
ghost use Rattle.row_values.specs.declared.schema.Column.{Column};
ghost use Rattle.row_values.specs.declared.schema.TableSchema.{TableSchema};
ghost use Rattle.row_values.specs.declared.value.Value.{Value};
ghost use Rattle.sql_statements.specs.declared.statement.Source.{Source};
ghost use Rattle.sql_statements.specs.declared.statement.Statement.{Statement};
ghost use Rattle.sql_statements.specs.Serial.{Told};
ghost use Rattle.sql_statements.specs.Tables.{branch_of, is_dml};
ghost use Rattle.store_core.specs.Files.{Files, KeepsFiles};
ghost use Rattle.session_machine.specs.declared.answer.Answer.{Answer as Said};
ghost use Rattle.session_machine.specs.declared.event.Stepped.{Stepped as Step};
ghost use Rattle.session_machine.specs.declared.place.Place.{Place as Stand};
ghost use Rattle.session_machine.specs.declared.place.Phase.TheVariants as phases;
ghost use Rattle.session_machine.specs.Machine.{Turned, turn, turn_of};
ghost use Rattle.session_machine.specs.Plans.{is_creation};
ghost use Rattle.schedule_runner.specs.Conflicts.{is_its_own, meets_none};
ghost use Rattle.session_steps.specs.Open.{IsOpen};
ghost use Rattle.session_steps.specs.declared.session.Session.{Session};
ghost use Rattle.session_steps.specs.Steps.{EndsOf, IsHeld, IsStep, LeavesRows};
ghost use Rattle.session_steps.specs.declared.fault.RunFault.{RunFault};
ghost use Rattle.schedule_runner.specs.Running.{Ended, Finished, Running};
ghost use Rattle.schedule_runner.specs.Runs.{IsRun, IsSerial, told_at, told_by};

/// A run with the machine's next step behind it is a run.
pub fn a_run_goes_on_by_a_step()
    ensures { (table : Seq ℕ) (sources : Seq Source) (files : Files) (statements : Seq Statement) (current last : ℕ)
        (place to : Stand) (steps : Seq Step) (turned : Turned) → IsRun table sources files statements current place steps last to
        → turn table sources files last to statements ≡ Ok turned
        → IsRun table sources files statements current place (steps ++ turned.stepped ∷ []) turned.current turned.place }
{}

/// A run is the same when files are added.
pub fn a_run_stands_when_files_are_added()
    ensures { (table : Seq ℕ) (sources : Seq Source) (old new : Files) (statements : Seq Statement) (current last : ℕ)
        (place to : Stand) (steps : Seq Step) → KeepsFiles (Some old) (Some new)
        → IsRun table sources old statements current place steps last to
        → IsRun table sources new statements current place steps last to }
{}

/// Where the rows so far are those of a serial run, and a step leaves the rows as its answer says, the rows after it are those of
/// the serial run with the statement, where it is carried out.
pub fn a_step_carries_a_serial_run_on()
    ensures { (columns : Seq Column) (sources : Seq Source) (s : Statement) (answer : Maybe Said)
        (begun before after : Seq (Seq Value)) (told : Seq Told) → is_dml s ≡ true → branch_of s ≡ codes "main"
        → IsSerial columns sources begun told before → LeavesRows sources columns s answer before after
        → IsSerial columns sources begun (told ++ told_by s answer) after }
{}

/// A step tells of the statement at hand alone, and the session stays at it, or is before the plan of the next one.
pub fn a_step_is_of_the_statement_at_hand()
    ensures tells { (table : Seq ℕ) (sources : Seq Source) (files : Files) (current : ℕ) (place : Stand) (s : Statement)
        (statements : Seq Statement) (turned : Turned) → slice_get statements place.at ≡ Some s
        → turn_of table sources files current place s place.phase ≡ Ok turned
        → told_at statements turned.stepped ≡ told_by s turned.stepped.answer }
    ensures stays { (table : Seq ℕ) (sources : Seq Source) (files : Files) (current : ℕ) (place : Stand) (s : Statement)
        (turned : Turned) → turn_of table sources files current place s place.phase ≡ Ok turned
        → (turned.place.phase ≡ phases.Plan) ⊎ (turned.place.at ≡ place.at) }
{}

/// A session is running before its first step, and is finished once it runs and all its statements are answered.
pub fn a_session_runs_from_its_begin_to_its_end()
    ensures begins { (table : Seq ℕ) (schema : TableSchema) (sources : Seq Source) (statements : Seq Statement) (start : Files)
        (first : ℕ) (begun : IsOpen table schema start first) (session : Session)
        → IsHeld table schema sources statements start session → Running table schema sources statements start first session.place begun start session [] }
    ensures finishes { (table : Seq ℕ) (schema : TableSchema) (sources : Seq Source) (statements : Seq Statement)
        (start files : Files) (first : ℕ) (place : Stand) (begun : IsOpen table schema start first) (session : Session) (steps : Seq Step)
        → Running table schema sources statements start first place begun files session steps
        → slice_get statements session.place.at ≡ None
        → Finished table schema sources statements start first place begun files steps }
{}

/// A step that is made keeps a session running: on the files after it the steps with it are the machine's, the table is open, and
/// its rows are those of the serial run of what was carried out.
pub fn a_step_that_is_made_goes_on()
    ensures { (table : Seq ℕ) (schema : TableSchema) (sources : Seq Source) (statements : Seq Statement) (start old new : Files)
        (first : ℕ) (place : Stand) (begun : IsOpen table schema start first) (session after : Session) (steps : Seq Step)
        (s : Statement) (stepped : Step)
        → AllByRecursion (λ x. is_dml x ≡ true) statements → AllByRecursion (λ x. branch_of x ≡ codes "main") statements
        → KeepsFiles (Some old) (Some new)
        → (running : Running table schema sources statements start first place begun old session steps)
        → slice_get statements session.place.at ≡ Some s
        → IsStep table schema sources s old new running.last session.place after stepped
        → Running table schema sources statements start first place begun new after (steps ++ stepped ∷ []) }
{}

/// A step that is not made to its end leaves the rows of what was carried out, or, where a swap may have won, of that and of the
/// statement at hand.
pub fn a_step_that_fails_ends_a_run()
    ensures { (table : Seq ℕ) (schema : TableSchema) (sources : Seq Source) (statements : Seq Statement) (start old new : Files)
        (first : ℕ) (place : Stand) (begun : IsOpen table schema start first) (session : Session) (steps : Seq Step) (s : Statement)
        (before now : ℕ) (fault : RunFault)
        → AllByRecursion (λ x. is_dml x ≡ true) statements → AllByRecursion (λ x. branch_of x ≡ codes "main") statements
        → KeepsFiles (Some old) (Some new)
        → (running : Running table schema sources statements start first place begun old session steps)
        → slice_get statements session.place.at ≡ Some s
        → EndsOf table schema sources (Some s) old new running.last session.place before now fault
        → (ended : Ended table schema sources statements start first place begun new session.place steps before now fault)
        × (ended.last ≡ running.last) }
{}

/// A session that is alone on a table meets no conflict, and no swap of its is lost: a statement that makes no branch is carried
/// out, or changes nothing, or is refused for want of its branch or by plain SQL.
pub fn a_lone_session_meets_no_conflict()
    ensures none { (table : Seq ℕ) (sources : Seq Source) (files : Files) (statements : Seq Statement) (current : ℕ) (place : Stand)
        (steps : Seq Step) (last : ℕ) (to : Stand) → place.phase ≡ phases.Plan
        → IsTrue (list_all (λ s. not (is_creation s)) statements)
        → IsRun table sources files statements current place steps last to
        → IsTrue (list_all (λ stepped. meets_none stepped.answer) steps) }
    ensures own { (table : Seq ℕ) (sources : Seq Source) (files : Files) (statements : Seq Statement) (current : ℕ) (place : Stand)
        (steps : Seq Step) (last : ℕ) (to : Stand) → place.phase ≡ phases.Plan
        → IsTrue (list_all (λ s. not (is_creation s)) statements)
        → IsRun table sources files statements current place steps last to
        → IsTrue (list_all (λ stepped. is_its_own stepped.answer) steps) }
{}
