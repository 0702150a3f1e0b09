//! What the statements mean. A statement decides for each row of a branch whether it is kept, removed or
//! replaced, and which rows are inserted, or it is refused. It sees a bag of rows and nothing of files.
//!
//! Rows in another order, or those alone of which the filter is True, give the same decisions; so what is done file by file is
//! what SQL does with the whole.
#![tactic(auto)]

mod clauses;
mod effect;
mod effects;
mod faults;
mod filter;
mod fits;
mod laws;
mod new_row;
mod reference;
mod runs;
mod statement;
mod tables;

pub use clauses::{extended, holds};
pub use effect::{Effect, NewRow, PlainFault, SqlRefusal};
pub use effects::row_effect;
pub use filter::filter_of;
pub use fits::{are_wide, sources_are_wide};
pub use laws::{
    a_statement_acts_on_the_rows_of_its_filter, a_statement_that_fits_leaves_rows_of_the_columns,
    delete_is_never_refused, delete_of_all_leaves_nothing, insert_adds_exactly_its_rows,
    order_of_rows_does_not_matter, rows_of_the_columns_are_wide, rows_outside_the_filter_are_kept,
    select_leaves_the_rows_as_they_are, statements_depend_on_the_rows_of_their_filter,
};
pub use new_row::row_of;
pub use plain_types::{List, Text};
pub use reference::{insertions, is_ambiguous, plain, rows_of, value_refusal};
pub use row_values::{Column, Row, TableSchema, Value};
pub use runs::{
    a_dropped_branch_is_gone, a_new_branch_copies_main, a_run_goes_on_where_it_stopped,
    a_run_of_statements_that_fit_keeps_rows_of_the_columns, a_select_leaves_every_branch_as_it_was,
    a_statement_leaves_its_result, order_of_rows_does_not_matter_to_a_run,
    other_branches_keep_their_rows,
};
pub use sql_predicates::{Expr, Pred};
pub use statement::{Action, Clause, Merge, Set, Source, Statement, When};
