ghost use Rattle.std.specs.Prelude.{◌≡◌};
ghost use Rattle.dml_program.specs.Statuses.{status_number};

use plain_types::Text;
use std::alloc::AllocError;
use store_core::StoreFault;

/// What is wrong with a table.
#[derive(Clone, Copy, Debug, PartialEq, Eq)]
pub enum TableKind {
    /// It has no version. The path is the table's.
    NoVersion,
    /// It has a version already. The path is the table's.
    Exists,
    /// A file is missing or not of a form that is read yet. The path is the file's.
    Later,
    /// Its current version has no next one. The path is the version's.
    Limit,
}

/// What is wrong with a script or a schema file.
#[derive(Clone, Copy, Debug, PartialEq, Eq)]
pub enum ScriptKind {
    /// Its bytes are not UTF-8.
    Text,
    /// It, or something in it, is longer than the limit.
    Limit,
    /// A byte begins no word, or a string or a name does not end.
    Token,
    /// The words are in no form of an item.
    Form,
    /// The table has no such column.
    Name,
    /// A value is not one of its column's kind.
    Kind,
    /// It is no schema file.
    Schema,
    /// It asks for something that is not made yet.
    Later,
}

/// How a call of the program ended.
#[derive(Debug, PartialEq, Drop)]
pub enum Status {
    Done,
    /// The script was run to its end, and a statement of it was refused.
    Refused,
    /// The words are in the form of no command.
    Usage,
    /// The script or the schema file is not in form, which shows at this line, counted from 1.
    ScriptBad { line: u32, kind: ScriptKind },
    TableBad { kind: TableKind, path: Text },
    /// The store failed, and no version came of that call.
    StoreFailed,
    /// The script or the schema file of this name is missing, or its read failed.
    InputFailed { name: Text },
    /// The sink failed, after everything else was carried out.
    OutputFailed,
    /// The store failed when a version was made, and failed again when its name was read, so the version may be there or
    /// not. It is that of a statement, counted from 1 in its session, or with the number 0 the first version of a table.
    StateUnknown { session: Text, number: u32 },
    /// Memory ran out, perhaps when a version was made.
    Memory,
}

impl Status {
    /// The exit status.
    pub fn number(&self) -> u8
        ensures { result ≡ status_number self.now }
    {
        match self {
            Status::Done => 0,
            Status::Refused => 1,
            Status::Usage => 2,
            Status::ScriptBad { .. } => 3,
            Status::TableBad { .. } => 4,
            Status::StoreFailed => 5,
            Status::InputFailed { .. } => 6,
            Status::OutputFailed => 7,
            Status::StateUnknown { .. } => 8,
            Status::Memory => 9,
        }
    }
}

impl From<AllocError> for Status {
    ghost use Rattle.std.specs.Prelude.{◌≡◌};
    ghost use Rattle.dml_program.specs.declared.status.Status.TheVariants.{Memory};

    ghost from_gives = { λ _ s. s ≡ Memory };

    fn from(_: AllocError) -> Self {
        Status::Memory
    }
}

impl From<StoreFault> for Status {
    ghost use Rattle.std.specs.Prelude.{◌≡◌};
    ghost use Rattle.dml_program.specs.Statuses.{status_of_fault};

    ghost from_gives = { λ fault s. s ≡ status_of_fault fault };

    fn from(fault: StoreFault) -> Self {
        match fault {
            StoreFault::Failed => Status::StoreFailed,
            StoreFault::Memory => Status::Memory,
        }
    }
}
