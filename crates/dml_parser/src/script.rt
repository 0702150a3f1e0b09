use plain_types::{List, Text};
use sql_statements::Statement;
use std::alloc::AllocError;

/// The sessions of a script.
#[derive(Debug, Drop)]
pub struct Script {
    pub sessions: List<SessionItem>,
}

/// A session, and the statements that it runs one after another.
#[derive(Debug, Drop)]
pub struct SessionItem {
    pub name: Text,
    pub statements: List<Statement>,
}

/// Why a text is no script. A number is the line on which it shows.
#[derive(Clone, Copy, Debug, PartialEq, Eq)]
pub enum ScriptFault {
    /// The bytes are not UTF-8.
    Text,
    /// A script is longer than 1 MiB, has more than 4,096 statements, or a text in it is longer than 131,072 bytes.
    Limit(u32),
    /// A byte begins no word, or a string or a name does not end.
    Token(u32),
    /// The words are in no form of an item.
    Form(u32),
    /// The table has no such column.
    Name(u32),
    /// A value is not one of its column's kind.
    Kind(u32),
    /// What is asked for is not read yet.
    Later(u32),
    Memory,
}

impl From<AllocError> for ScriptFault {
    ghost use Rattle.std.specs.Prelude.{◌≡◌};
    ghost use Rattle.dml_parser.specs.declared.script.ScriptFault.TheVariants.{Memory};

    ghost from_gives = { λ _ fault. fault ≡ Memory };

    fn from(_: AllocError) -> Self {
        ScriptFault::Memory
    }
}
