// The lines, each without the line feed that ends it.
ghost use Rattle.std.specs.Prelude.{◌≡◌, ◌+◌, IfOk};
ghost use Rattle.run_report.specs.Escapes.{escaped};
ghost use Rattle.run_report.specs.Lines.{answer_line, branch_line, event_line};

use plain_types::Text;
use session_machine::{Answer, Event};
use std::alloc::{AllocError, Global};

/// The line of an event in the session of this name.
pub fn event_line(alloc: Global, session: &str, event: &Event) -> Result<Text, AllocError>
    ensures { IfOk result (λ line. line ≡ event_line session.now event.now) }
{
    let number = number_of(event.statement);
    let kind = &event.kind;
    let text = format!(in alloc; "event {session}.{number} {kind}")?;
    one_line(alloc, text.as_str())
}

/// The line of the answer of a statement, which counts from 0 in the session of this name.
pub fn answer_line(
    alloc: Global,
    session: &str,
    statement: usize,
    answer: &Answer,
) -> Result<Text, AllocError>
    ensures { IfOk result (λ line. line ≡ answer_line session.now statement answer.now) }
{
    let number = number_of(statement);
    let text = format!(in alloc; "answer {session}.{number} {answer}")?;
    one_line(alloc, text.as_str())
}

/// The line of a branch with so many rows.
pub fn branch_line(alloc: Global, name: &str, rows: u64) -> Result<Text, AllocError>
    ensures { IfOk result (λ line. line ≡ branch_line name.now rows) }
{
    let text = format!(in alloc; "branch {name} {rows}")?;
    one_line(alloc, text.as_str())
}

// A statement's number in a line, which counts from 1.
fn number_of(statement: usize) -> u128
    ensures { result ≡ statement + 1 }
{
    statement as u128 + 1
}

fn one_line(alloc: Global, text: &str) -> Result<Text, AllocError>
    ensures { IfOk result (λ line. line ≡ escaped text.now) }
{
    Ok(Text::from_string(text.replace(alloc, '\n', "\\n")?))
}
