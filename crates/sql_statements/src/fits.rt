//! Whether what a statement reads is in the rows that it sees, as the reference asks for.

ghost use Rattle.std.specs.Prelude.{◌≡◌, ◌+◌, Some, length};
ghost use Rattle.std.specs.List.{list_all};
ghost use Rattle.sql_statements.specs.Fits as spec;

use crate::{Action, Clause, Merge, Set, Source, Statement};
use plain_types::List;
use row_values::{Column, Row};
use sql_predicates::Expr;

impl Statement {
    /// Whether each position that the statement reads is in rows of these columns and of the sources.
    pub fn is_within(&self, columns: &[Column], sources: &[Source]) -> bool
        ensures { result ≡ spec.statement_is_within (length columns.now) sources.now self.now }
    {
        match self {
            Statement::Insert { branch: _, rows } => tuples_are_within(rows.as_slice()),
            Statement::Delete { branch: _, filter } => filter.is_within(columns.len()),
            Statement::Update {
                branch: _,
                sets,
                filter,
            } => {
                filter.is_within(columns.len()) && sets_are_within(columns.len(), sets.as_slice())
            }
            Statement::Merge(merge) => match sources.get(merge.source) {
                Some(source) => merge_is_within(columns, source, merge),
                None => false,
            },
            Statement::CreateBranch { branch: _ } | Statement::DropBranch { branch: _ } => true,
            Statement::Select { branch: _, filter } => filter.is_within(columns.len()),
        }
    }
}

impl Source {
    /// Whether each row has a value for each column.
    pub fn is_wide(&self) -> bool
        ensures { result ≡ spec.source_is_wide self.now }
    {
        are_wide(self.columns.len(), self.rows.as_slice())
    }
}

/// Whether each row has so many values.
pub fn are_wide(width: usize, rows: &[Row]) -> bool
    ensures { result ≡ spec.are_wide width rows.now }
{
    for row in rows {
        if row.len() != width {
            return false;
        }
    }
    true
}

/// Whether the rows of each source have a value for each of its columns.
pub fn sources_are_wide(sources: &[Source]) -> bool
    ensures { result ≡ list_all spec.source_is_wide sources.now }
{
    for source in sources {
        if !source.is_wide() {
            return false;
        }
    }
    true
}

fn merge_is_within(columns: &[Column], source: &Source, merge: &Merge) -> bool
    ensures { result ≡ spec.merge_is_within (length columns.now) (Some source.now) merge.now }
{
    let width = columns.len() + source.columns.as_slice().len();
    merge.on.is_within(width) && clauses_are_within(width, merge.clauses.as_slice())
}

fn clauses_are_within(width: usize, clauses: &[Clause]) -> bool
    ensures { result ≡ spec.clauses_are_within width clauses.now }
{
    for clause in clauses {
        if !clause_is_within(width, clause) {
            return false;
        }
    }
    true
}

#[tactic(auto, unfolding(crate::specs::Fits::clause_is_within))]
fn clause_is_within(width: usize, clause: &Clause) -> bool
    ensures { result ≡ spec.clause_is_within width clause.now }
{
    clause.condition.is_within(width) && action_is_within(width, &clause.action)
}

fn action_is_within(width: usize, action: &Action) -> bool
    ensures { result ≡ spec.action_is_within width action.now }
{
    match action {
        Action::Update(sets) => sets_are_within(width, sets.as_slice()),
        Action::Delete => true,
        Action::Insert(exprs) => exprs_are_within(width, exprs.as_slice()),
    }
}

fn sets_are_within(width: usize, sets: &[Set]) -> bool
    ensures { result ≡ spec.sets_are_within width sets.now }
{
    for set in sets {
        if !set.expr.is_within(width) {
            return false;
        }
    }
    true
}

fn exprs_are_within(width: usize, exprs: &[Expr]) -> bool
    ensures { result ≡ spec.exprs_are_within width exprs.now }
{
    for expr in exprs {
        if !expr.is_within(width) {
            return false;
        }
    }
    true
}

fn tuples_are_within(tuples: &[List<Expr>]) -> bool
    ensures { result ≡ list_all (spec.exprs_are_within 0) tuples.now }
{
    for tuple in tuples {
        if !exprs_are_within(0, tuple.as_slice()) {
            return false;
        }
    }
    true
}
