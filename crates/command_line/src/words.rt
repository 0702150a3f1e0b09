ghost use Rattle.std.specs.Prelude.{◌≡◌, Some, None, IfOk, IsErrOf, codes};
ghost use Rattle.clap.specs.Words.{first_value, found_of};
ghost use Rattle.command_line.specs.Words.{both_named, command_of, create_of, is_table, rows_of, run_of, table_named, texts, wanted};

use crate::options::{create_command, options_of, rows_command, run_command, value_of};
use clap::ArgMatches;
use plain_types::is_path;
use std::alloc::{AllocError, Global};

/// What the words ask for.
#[derive(Clone, Copy, Debug)]
pub enum Command<'a> {
    /// `rows --table T` prints the rows of a table.
    Rows { table: &'a str },
    /// `create --table T --schema F` makes a table by a schema file.
    Create { table: &'a str, schema: &'a str },
    /// `run --table T --script F` runs the statements of a script on a table.
    Run { table: &'a str, script: &'a str },
}

/// Why the words ask for nothing.
#[derive(Clone, Copy, Debug, PartialEq, Eq)]
pub enum WordsFault {
    /// They are in the form of no command.
    Usage,
    Memory,
}

impl From<AllocError> for WordsFault {
    ghost use Rattle.std.specs.Prelude.{◌≡◌};
    ghost use Rattle.command_line.specs.declared.words.WordsFault.TheVariants.{Memory};

    ghost from_gives = { λ _ e. e ≡ Memory };

    fn from(_: AllocError) -> Self {
        WordsFault::Memory
    }
}

/// The longest name of a table, in bytes.
const LONGEST_TABLE: usize = 4096;

/// Reads the words after the program's name. The first is the command, the others are its options.
#[tactic(auto, unfolding(crate::specs::Words::command_of))]
pub fn read_words<'a>(alloc: Global, words: &'a [&'a str]) -> Result<Command<'a>, WordsFault>
    ensures found { IfOk result (λ command. command_of (texts words.entry.now) ≡ Some (wanted command)) }
    ensures usage { IsErrOf result WordsFault.Usage → command_of (texts words.entry.now) ≡ None }
{
    let [name, ..] = words else {
        return Err(WordsFault::Usage);
    };
    if *name == "rows" {
        return read_rows(alloc, words);
    }
    if *name == "create" {
        return read_create(alloc, words);
    }
    if *name == "run" {
        return read_run(alloc, words);
    }
    Err(WordsFault::Usage)
}

fn read_rows<'a>(alloc: Global, words: &'a [&'a str]) -> Result<Command<'a>, WordsFault>
    ensures found { IfOk result (λ command. rows_of (texts words.entry.now) ≡ Some (wanted command)) }
    ensures usage { IsErrOf result WordsFault.Usage → rows_of (texts words.entry.now) ≡ None }
{
    let options = options_of(rows_command(alloc)?, words)?;
    match table_of(&options) {
        Ok(table) => Ok(Command::Rows { table }),
        Err(fault) => Err(fault),
    }
}

fn read_create<'a>(alloc: Global, words: &'a [&'a str]) -> Result<Command<'a>, WordsFault>
    ensures found { IfOk result (λ command. create_of (texts words.entry.now) ≡ Some (wanted command)) }
    ensures usage { IsErrOf result WordsFault.Usage → create_of (texts words.entry.now) ≡ None }
{
    let options = options_of(create_command(alloc)?, words)?;
    match both_of(&options, "schema") {
        Ok((table, schema)) => Ok(Command::Create { table, schema }),
        Err(fault) => Err(fault),
    }
}

fn read_run<'a>(alloc: Global, words: &'a [&'a str]) -> Result<Command<'a>, WordsFault>
    ensures found { IfOk result (λ command. run_of (texts words.entry.now) ≡ Some (wanted command)) }
    ensures usage { IsErrOf result WordsFault.Usage → run_of (texts words.entry.now) ≡ None }
{
    let options = options_of(run_command(alloc)?, words)?;
    match both_of(&options, "script") {
        Ok((table, script)) => Ok(Command::Run { table, script }),
        Err(fault) => Err(fault),
    }
}

// The table and the file that the options name.
fn both_of<'a>(options: &ArgMatches<'a>, file: &str) -> Result<(&'a str, &'a str), WordsFault>
    ensures found { IfOk result (λ both. both_named (first_value (found_of options.now) (codes "table"))
        (first_value (found_of options.now) file.now) ≡ Some (both.0.now, both.1.now)) }
    ensures usage { IsErrOf result WordsFault.Usage → both_named (first_value (found_of options.now) (codes "table"))
        (first_value (found_of options.now) file.now) ≡ None }
{
    let table = match table_of(options) {
        Ok(table) => table,
        Err(fault) => return Err(fault),
    };
    match value_of(options, file) {
        Ok(file) => Ok((table, file)),
        Err(fault) => Err(fault),
    }
}

// The table that the options name.
fn table_of<'a>(options: &ArgMatches<'a>) -> Result<&'a str, WordsFault>
    ensures found { IfOk result (λ table. table_named (first_value (found_of options.now) (codes "table")) ≡ Some table.now) }
    ensures usage { IsErrOf result WordsFault.Usage → table_named (first_value (found_of options.now) (codes "table")) ≡ None }
{
    match value_of(options, "table") {
        Ok(table) if is_table(table) => Ok(table),
        Ok(_) => Err(WordsFault::Usage),
        Err(fault) => Err(fault),
    }
}

fn is_table(name: &str) -> bool
    ensures { result ≡ is_table name.now }
{
    name.len() <= LONGEST_TABLE && is_path(name)
}
