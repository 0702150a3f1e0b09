// The lines of steps and of branches.
ghost use Rattle.plain_types.specs.Appends.{Appends};
ghost use Rattle.std.specs.Prelude.{◌≡◌};
ghost use Rattle.run_report.specs.Report.{ended, lines_of_answer, lines_of_branch, lines_of_event, lines_of_step, lines_of_steps, name_of, rows_under};

use crate::lines::{answer_line, branch_line, event_line};
use crate::rows::put_rows;
use plain_types::Text;
use session_machine::{Answer, Event, Stepped};
use std::alloc::{AllocError, Global};

/// Appends the lines of a step of a session, whose name stands at its number among the names.
pub fn put_step(
    alloc: Global,
    names: &[Text],
    step: &Stepped,
    out: &mut Vec<u8>,
) -> Result<(), AllocError>
    ensures { Appends out.old.items out.new.items (lines_of_step names.now step.now) result }
{
    let Some(event) = &step.event else {
        return Ok(());
    };
    let session = name_of(names, event.session);
    put_event(alloc, session, event, out)?;
    match &step.answer {
        Some(answer) => put_answer(alloc, session, event.statement, answer, out),
        None => Ok(()),
    }
}

/// Appends the lines of the steps, one after another.
pub fn put_steps(
    alloc: Global,
    names: &[Text],
    steps: &[Stepped],
    out: &mut Vec<u8>,
) -> Result<(), AllocError>
    ensures { Appends out.old.items out.new.items (lines_of_steps names.now steps.now) result }
{
    for step in steps {
        put_step(alloc, names, step, out)?;
    }
    Ok(())
}

/// Appends the line of a branch with so many rows.
pub fn put_branch(
    alloc: Global,
    name: &str,
    rows: usize,
    out: &mut Vec<u8>,
) -> Result<(), AllocError>
    ensures { Appends out.old.items out.new.items (lines_of_branch name.now rows) result }
{
    let text = branch_line(alloc, name, rows as u64)?;
    put_ended(text.as_bytes(), out)
}

/// The name of the session of this number, which is empty where no name stands at it.
pub fn name_of(names: &[Text], session: usize) -> &str
    ensures { result.now ≡ name_of names.now session }
{
    match names.get(session) {
        Some(name) => name.as_str(),
        None => "",
    }
}

fn put_event(
    alloc: Global,
    session: &str,
    event: &Event,
    out: &mut Vec<u8>,
) -> Result<(), AllocError>
    ensures { Appends out.old.items out.new.items (lines_of_event session.now event.now) result }
{
    let text = event_line(alloc, session, event)?;
    put_ended(text.as_bytes(), out)
}

fn put_answer(
    alloc: Global,
    session: &str,
    statement: usize,
    answer: &Answer,
    out: &mut Vec<u8>,
) -> Result<(), AllocError>
    ensures { Appends out.old.items out.new.items (lines_of_answer session.now statement answer.now) result }
{
    let text = answer_line(alloc, session, statement, answer)?;
    put_ended(text.as_bytes(), out)?;
    put_rows_under(alloc, answer, out)
}

// Appends the rows that the answer brings.
fn put_rows_under(alloc: Global, answer: &Answer, out: &mut Vec<u8>) -> Result<(), AllocError>
    ensures { Appends out.old.items out.new.items (rows_under answer.now) result }
{
    match answer {
        Answer::Selected(rows) => put_rows(alloc, rows.as_slice(), out),
        _ => Ok(()),
    }
}

// Appends a line, in which no line feed stands, with the one that ends it.
fn put_ended(text: &[u8], out: &mut Vec<u8>) -> Result<(), AllocError>
    ensures { Appends out.old.items out.new.items (ended text.now) result }
{
    out.extend_from_slice(text)?;
    out.push(b'\n')?;
    Ok(())
}
