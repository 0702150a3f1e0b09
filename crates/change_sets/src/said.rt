use crate::rule::Rule;
use plain_types::Text;
use std::fmt;

/// What validation says of a commit.
#[derive(Debug, PartialEq, Drop)]
pub enum Said {
    Good,
    /// The rule refuses it for the file of this name.
    Conflict { rule: Rule, name: Text },
}

impl fmt::Display for Said {
    ghost use Rattle.std.specs.Prelude.{Some};
    ghost use Rattle.change_sets.specs.Saying.{said_text};

    ghost output = { λ said. Some (said_text said) };

    fn fmt<W: fmt::Write>(&self, f: &mut fmt::Formatter<W>) -> fmt::Result {
        match self {
            Said::Good => f.write_str("good"),
            Said::Conflict { rule, name } => {
                let name = name.as_str();
                write!(f, "conflict {rule} {name}")
            }
        }
    }
}
