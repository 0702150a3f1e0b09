// The options of a command, read by clap.
ghost use Rattle.std.specs.Prelude.{◌≡◌, ℕ, List, true, false, None, Some, IfOk, IsErrOf};
ghost use Rattle.clap.specs.Words.{app_of, first_value, found_of, is_simple_and_free, rule_of, with_rule};
ghost use Rattle.command_line.specs.Options.{plain_app, needed, rows_app, create_app, file_app, run_app};
ghost use Rattle.command_line.specs.Words.{texts, option_of};

use crate::WordsFault;
use clap::error::ErrorKind;
use clap::{Arg, ArgAction, ArgMatches, Command};
use std::alloc::{AllocError, Global};

/// The command `rows`.
#[tactic(auto, unfolding(crate::specs::Options::rows_app))]
pub(crate) fn rows_command<'a>(alloc: Global) -> Result<Command<'a>, AllocError>
    ensures { IfOk result (λ command. app_of command ≡ rows_app) }
{
    with_needed(alloc, plain_command(alloc, "rows"), "table")
}

fn with_needed<'a>(
    alloc: Global,
    command: Command<'a>,
    name: &'a str,
) -> Result<Command<'a>, AllocError>
    ensures { IfOk result (λ more. app_of more ≡ with_rule (app_of command.entry) (needed name.entry.now)) }
{
    let option = needed_option(alloc, name);
    match command.arg(option) {
        Ok(more) => Ok(more),
        Err(error) => Err(error),
    }
}

/// The command `create`.
#[tactic(auto, unfolding(crate::specs::Options::create_app))]
pub(crate) fn create_command<'a>(alloc: Global) -> Result<Command<'a>, AllocError>
    ensures { IfOk result (λ command. app_of command ≡ create_app) }
{
    file_command(alloc, "create", "schema")
}

/// The command `run`.
#[tactic(auto, unfolding(crate::specs::Options::run_app))]
pub(crate) fn run_command<'a>(alloc: Global) -> Result<Command<'a>, AllocError>
    ensures { IfOk result (λ command. app_of command ≡ run_app) }
{
    file_command(alloc, "run", "script")
}

// A command of a table and a file.
fn file_command<'a>(alloc: Global, name: &'a str, file: &'a str) -> Result<Command<'a>, AllocError>
    ensures { IfOk result (λ command. app_of command ≡ file_app name.entry.now file.entry.now) }
{
    let command = with_needed(alloc, plain_command(alloc, name), "table")?;
    with_needed(alloc, command, file)
}

/// The options that the words give to a command.
pub(crate) fn options_of<'a>(
    command: Command<'a>,
    words: &'a [&'a str],
) -> Result<ArgMatches<'a>, WordsFault>
    requires { is_simple_and_free (app_of command) ≡ true }
    ensures found { IfOk result (λ options. (name : List ℕ)
        → option_of (app_of command.entry) name (texts words.entry.now) ≡ first_value (found_of options) name) }
    ensures usage { IsErrOf result WordsFault.Usage → (name : List ℕ) → option_of (app_of command.entry) name (texts words.entry.now) ≡ None }
{
    match command.try_get_matches_from(words) {
        Ok(options) => Ok(options),
        Err(error) => match error.kind() {
            ErrorKind::OutOfMemory => Err(WordsFault::Memory),
            _ => Err(WordsFault::Usage),
        },
    }
}

/// The value of an option that the command needs.
pub(crate) fn value_of<'a>(options: &ArgMatches<'a>, name: &str) -> Result<&'a str, WordsFault>
    ensures found { IfOk result (λ value. first_value (found_of options.now) name.now ≡ Some value.now) }
    ensures usage { IsErrOf result WordsFault.Usage → first_value (found_of options.now) name.now ≡ None }
{
    match options.get_str(name) {
        Some(value) => Ok(value),
        None => Err(WordsFault::Usage),
    }
}

fn plain_command<'a>(alloc: Global, name: &'a str) -> Command<'a>
    ensures { app_of result ≡ plain_app name.entry.now }
{
    Command::new(alloc, name)
        .disable_help_flag(true)
        .disable_version_flag(true)
}

fn needed_option<'a>(alloc: Global, name: &'a str) -> Arg<'a>
    ensures rule { rule_of result ≡ needed name.entry.now }
    ensures local { result.global ≡ false }
{
    Arg::new(alloc, name)
        .long(name)
        .action(ArgAction::Set)
        .required(true)
}
