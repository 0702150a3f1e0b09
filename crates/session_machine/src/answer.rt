use change_sets::Rule;
use plain_types::{List, Text};
use row_values::Row;
use std::fmt;

/// How a statement ends.
#[derive(Debug, PartialEq, Drop)]
pub enum Answer {
    /// Its change is in this version.
    Committed(u32),
    /// It changes nothing.
    Unchanged,
    /// The rows that it selects.
    Selected(List<Row>),
    /// The rule refuses it for the file of this name.
    Conflict { rule: Rule, name: Text },
    /// It lost so many swaps, and tries no more.
    RetriesSpent(u32),
    /// Two rows of a source match one row of the table.
    Cardinality,
    /// A value leaves its kind.
    Overflow,
    /// The required column of this name would hold NULL.
    Null(Text),
    NoBranch(Text),
    BranchExists(Text),
}

impl fmt::Display for Answer {
    ghost use Rattle.std.specs.Prelude.{Some};
    ghost use Rattle.session_machine.specs.Events.{answer_text};

    ghost output = { λ answer. Some (answer_text answer) };

    fn fmt<W: fmt::Write>(&self, f: &mut fmt::Formatter<W>) -> fmt::Result {
        match self {
            Answer::Committed(version) => write!(f, "committed v{version}"),
            Answer::Unchanged => f.write_str("unchanged"),
            Answer::Selected(rows) => {
                let count = rows.len();
                write!(f, "selected {count}")
            }
            Answer::Conflict { rule, name } => {
                let name = name.as_str();
                write!(f, "conflict {rule} {name}")
            }
            Answer::RetriesSpent(count) => write!(f, "retries spent {count}"),
            Answer::Cardinality => f.write_str("cardinality"),
            Answer::Overflow => f.write_str("overflow"),
            Answer::Null(column) => {
                let column = column.as_str();
                write!(f, "null {column}")
            }
            Answer::NoBranch(name) => {
                let name = name.as_str();
                write!(f, "no branch {name}")
            }
            Answer::BranchExists(name) => {
                let name = name.as_str();
                write!(f, "branch exists {name}")
            }
        }
    }
}
