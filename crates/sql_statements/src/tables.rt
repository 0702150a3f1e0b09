//! What differs by statement, a line each.

ghost use Rattle.std.specs.Prelude.{◌≡◌};
ghost use Rattle.sql_statements.specs.Tables as spec;

use crate::Statement;
use plain_types::Text;

impl Statement {
    /// Whether the statement may change rows.
    pub fn is_dml(&self) -> bool
        ensures { result ≡ spec.is_dml self.now }
    {
        matches!(
            self,
            Statement::Insert { branch: _, rows: _ }
                | Statement::Delete {
                    branch: _,
                    filter: _
                }
                | Statement::Update {
                    branch: _,
                    sets: _,
                    filter: _
                }
                | Statement::Merge(_)
        )
    }

    /// The branch that the statement names.
    pub fn branch(&self) -> &Text
        ensures { result.now ≡ spec.branch_of self.now }
    {
        match self {
            Statement::Insert { branch, rows: _ } => branch,
            Statement::Delete { branch, filter: _ } => branch,
            Statement::Update {
                branch,
                sets: _,
                filter: _,
            } => branch,
            Statement::Merge(merge) => &merge.branch,
            Statement::CreateBranch { branch } => branch,
            Statement::DropBranch { branch } => branch,
            Statement::Select { branch, filter: _ } => branch,
        }
    }

    /// Whether the statement depends on no row, and so on nothing but that its branch is there.
    pub fn only_branch(&self) -> bool
        ensures { result ≡ spec.only_branch self.now }
    {
        matches!(
            self,
            Statement::Insert { branch: _, rows: _ }
                | Statement::CreateBranch { branch: _ }
                | Statement::DropBranch { branch: _ }
        )
    }
}
