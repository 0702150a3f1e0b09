// The lines of the report.
ghost use Rattle.std.specs.Prelude.{◌≡◌, IfOk};
ghost use Rattle.run_report.specs.Report.{line, row_lines};
ghost use Rattle.dml_program.specs.Statuses.{created_lines, fault_lines, kind_text, script_text};

use crate::status::{ScriptKind, Status, TableKind};
use row_values::Row;
use run_report::{put_line, put_rows};
use std::alloc::{AllocError, Global};

/// What a status writes of itself.
pub(crate) fn fault_lines(alloc: Global, status: &Status) -> Result<Vec<u8>, AllocError>
    ensures { IfOk result (λ lines. lines.items ≡ fault_lines status.now) }
{
    match status {
        Status::Usage => line(alloc, "fault usage"),
        Status::ScriptBad { line, kind } => script_line(alloc, *line, *kind),
        Status::TableBad { kind, path } => bad_line(alloc, *kind, path.as_str()),
        Status::StoreFailed => line(alloc, "fault store"),
        Status::InputFailed { name } => input_line(alloc, name.as_str()),
        Status::StateUnknown { session, number } => unknown_line(alloc, session.as_str(), *number),
        Status::Done | Status::Refused | Status::OutputFailed | Status::Memory => {
            Ok(Vec::new(alloc))
        }
    }
}

fn bad_line(alloc: Global, kind: TableKind, path: &str) -> Result<Vec<u8>, AllocError>
    ensures { IfOk result (λ lines. lines.items ≡ fault_lines (Status.TableBad kind path.now)) }
{
    let kind = kind_text(kind);
    let text = format!(in alloc; "fault table {kind} {path}")?;
    line(alloc, text.as_str())
}

fn script_line(alloc: Global, at: u32, kind: ScriptKind) -> Result<Vec<u8>, AllocError>
    ensures { IfOk result (λ lines. lines.items ≡ fault_lines (Status.ScriptBad at kind)) }
{
    let kind = script_text(kind);
    let text = format!(in alloc; "fault script {at} {kind}")?;
    line(alloc, text.as_str())
}

fn script_text(kind: ScriptKind) -> &'static str
    ensures { result.now ≡ script_text kind }
{
    match kind {
        ScriptKind::Text => "text",
        ScriptKind::Limit => "limit",
        ScriptKind::Token => "token",
        ScriptKind::Form => "form",
        ScriptKind::Name => "name",
        ScriptKind::Kind => "kind",
        ScriptKind::Schema => "schema",
        ScriptKind::Later => "later",
    }
}

fn input_line(alloc: Global, name: &str) -> Result<Vec<u8>, AllocError>
    ensures { IfOk result (λ lines. lines.items ≡ fault_lines (Status.InputFailed name.now)) }
{
    let text = format!(in alloc; "fault input {name}")?;
    line(alloc, text.as_str())
}

fn unknown_line(alloc: Global, session: &str, number: u32) -> Result<Vec<u8>, AllocError>
    ensures { IfOk result (λ lines. lines.items ≡ fault_lines (Status.StateUnknown session.now number)) }
{
    if number == 0 {
        return line(alloc, "fault unknown");
    }
    let text = format!(in alloc; "fault unknown {session}.{number}")?;
    line(alloc, text.as_str())
}

/// What `create` prints.
pub(crate) fn created_lines(alloc: Global) -> Result<Vec<u8>, AllocError>
    ensures { IfOk result (λ lines. lines.items ≡ created_lines) }
{
    line(alloc, "created v1")
}

fn kind_text(kind: TableKind) -> &'static str
    ensures { result.now ≡ kind_text kind }
{
    match kind {
        TableKind::NoVersion => "no-version",
        TableKind::Exists => "exists",
        TableKind::Later => "later",
        TableKind::Limit => "limit",
    }
}

/// The lines of the rows.
pub(crate) fn row_lines(alloc: Global, rows: &[Row]) -> Result<Vec<u8>, AllocError>
    ensures { IfOk result (λ lines. lines.items ≡ row_lines rows.now) }
{
    let mut lines = Vec::new(alloc);
    put_rows(alloc, rows, &mut lines)?;
    Ok(lines)
}

fn line(alloc: Global, text: &str) -> Result<Vec<u8>, AllocError>
    ensures { IfOk result (λ bytes. bytes.items ≡ line text.now) }
{
    let mut bytes = Vec::new(alloc);
    put_line(text.as_bytes(), &mut bytes)?;
    Ok(bytes)
}
