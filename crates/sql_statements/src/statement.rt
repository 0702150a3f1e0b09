use plain_types::{List, Text};
use row_values::{Column, Row};
use sql_predicates::{Expr, Pred};

/// A statement on one branch of the table.
#[derive(Debug, Drop)]
pub enum Statement {
    Insert {
        branch: Text,
        rows: List<List<Expr>>,
    },
    Delete {
        branch: Text,
        filter: Pred,
    },
    Update {
        branch: Text,
        sets: List<Set>,
        filter: Pred,
    },
    Merge(Merge),
    CreateBranch {
        branch: Text,
    },
    DropBranch {
        branch: Text,
    },
    Select {
        branch: Text,
        filter: Pred,
    },
}

/// What the column at a position becomes.
#[derive(Debug, Drop)]
pub struct Set {
    pub column: usize,
    pub expr: Expr,
}

/// MERGE INTO (Iceberg's Spark pages, "MERGE INTO"). `source` is the position of the source among the
/// sources. A row in sight has the target's columns and then the source's.
#[derive(Debug, Drop)]
pub struct Merge {
    pub branch: Text,
    pub source: usize,
    pub on: Pred,
    pub clauses: List<Clause>,
}

/// A WHEN clause. A condition that is the constant TRUE counts as none.
#[derive(Debug, Drop)]
pub struct Clause {
    pub when: When,
    pub condition: Pred,
    pub action: Action,
}

/// The rows that a clause speaks of: target rows with a source row, source rows without a target row, or
/// target rows without a source row.
#[derive(Clone, Copy, Debug, PartialEq, Eq)]
pub enum When {
    Matched,
    NotMatched,
    NotMatchedBySource,
}

/// What a clause does with its row.
#[derive(Debug, Drop)]
pub enum Action {
    Update(List<Set>),
    Delete,
    Insert(List<Expr>),
}

/// The rows that a MERGE reads beside the table's.
#[derive(Debug, PartialEq, Drop)]
pub struct Source {
    pub columns: List<Column>,
    pub rows: List<Row>,
}
