//! Laws of serial runs. Each function says its law in its clauses, and does nothing.

ghost use Rattle.std.specs.Prelude.{◌≡◌, ◌++◌, ℕ, List, Some, None, Ok, Err, true, false, codes, option_and_then, IsSome, IsTrue};
ghost use Rattle.std.specs.List.{list_all};
ghost use Rattle.row_values.specs.declared.value.Value.{Value};
ghost use Rattle.sql_predicates.specs.declared.pred.Pred.{Pred};
ghost use Rattle.sql_statements.specs.declared.effect.SqlRefusal.{SqlRefusal};
ghost use Rattle.sql_statements.specs.declared.statement.Source.{Source};
ghost use Rattle.sql_statements.specs.declared.statement.Statement.{Statement};
ghost use Rattle.sql_statements.specs.declared.statement.Statement.TheVariants as statement;
ghost use Rattle.sql_statements.specs.Effects.{result_of};
ghost use Rattle.sql_statements.specs.Kinds.{branch_has_rows, source_has_rows, told_fits};
ghost use Rattle.sql_statements.specs.Results.{SameState, SameOutcome};
ghost use Rattle.sql_statements.specs.Serial.{State, Told, same_name, rows_on, after, serial};
ghost use Rattle.sql_statements.specs.Tables.{is_dml, branch_of};

/// A statement changes no rows of another branch than its own.
pub fn other_branches_keep_their_rows()
    ensures { (sources : List Source) (s : Statement) (state next : State) (other : List ℕ) →
        same_name (branch_of s) other ≡ false → after sources s state ≡ Some next →
        rows_on other next.branches ≡ rows_on other state.branches }
{}

/// The branch of a statement that may change rows then has the statement's result. Where the
/// statement is refused, there is no next state.
pub fn a_statement_leaves_its_result()
    ensures result { (sources : List Source) (s : Statement) (state next : State) (rows left : List (List Value)) →
        is_dml s ≡ true → rows_on (branch_of s) state.branches ≡ Some rows →
        result_of state.schema sources s rows ≡ Ok left → after sources s state ≡ Some next →
        rows_on (branch_of s) next.branches ≡ Some left }
    ensures refused { (sources : List Source) (s : Statement) (state : State) (rows : List (List Value)) (why : SqlRefusal) →
        is_dml s ≡ true → rows_on (branch_of s) state.branches ≡ Some rows →
        result_of state.schema sources s rows ≡ Err why → after sources s state ≡ None }
{}

/// A new branch has the rows of `main`.
pub fn a_new_branch_copies_main()
    ensures { (sources : List Source) (name : List ℕ) (state next : State) →
        after sources (statement.CreateBranch name) state ≡ Some next →
        rows_on name next.branches ≡ rows_on (codes "main") state.branches }
{}

pub fn a_dropped_branch_is_gone()
    ensures { (sources : List Source) (name : List ℕ) (state next : State) →
        after sources (statement.DropBranch name) state ≡ Some next → rows_on name next.branches ≡ None }
{}

/// A SELECT on a branch that is there leaves each branch as it was.
pub fn a_select_leaves_every_branch_as_it_was()
    ensures rows { (sources : List Source) (name : List ℕ) (filter : Pred) (state next : State) (other : List ℕ) →
        after sources (statement.Select name filter) state ≡ Some next →
        rows_on other next.branches ≡ rows_on other state.branches }
    ensures stands { (sources : List Source) (name : List ℕ) (filter : Pred) (state : State) (rows : List (List Value)) →
        rows_on name state.branches ≡ Some rows → IsSome (after sources (statement.Select name filter) state) }
{}

/// A run of two lists of statements is the run of the second from where the first ends.
pub fn a_run_goes_on_where_it_stopped()
    ensures { (sources : List Source) (first second : List Told) (state : State) →
        serial sources (first ++ second) state ≡ option_and_then (serial sources second) (serial sources first state) }
{}

/// A run from the same bags of rows ends with the same bags of rows.
pub fn order_of_rows_does_not_matter_to_a_run()
    ensures { (sources : List Source) (told : List Told) (a b : State) →
        SameState a b → SameOutcome (serial sources told a) (serial sources told b) }
{}

/// A run of statements that fit their columns keeps every branch to rows of the columns.
pub fn a_run_of_statements_that_fit_keeps_rows_of_the_columns()
    ensures { (sources : List Source) (told : List Told) (state end : State) →
        IsTrue (list_all source_has_rows sources) → IsTrue (list_all (told_fits state.schema sources) told) →
        IsTrue (list_all (branch_has_rows state.schema) state.branches) → serial sources told state ≡ Some end →
        IsTrue (list_all (branch_has_rows state.schema) end.branches) }
{}
