// Runs a script on a table that is open, and writes the report of it.
ghost use Rattle.std.specs.Prelude.{◌≡◌, ◌≢◌, ◌⊎◌, ◌++◌, ◌≤◌, ◌<◌, ℕ, codes, List as Seq, None, Ok, Some, IfOk, IfErr};
ghost use Rattle.std.specs.Option.{ForSome};
ghost use Rattle.plain_types.specs.Causes.{Rose};
ghost use Rattle.row_values.specs.declared.value.Value.{Value as Content};
ghost use Rattle.store_core.specs.Files.{Files, KeepsFiles};
ghost use Rattle.store_core.specs.Written.{appended};
ghost use Rattle.run_report.specs.Report.{lines_of_branch, lines_of_steps};
ghost use Rattle.schedule_runner.specs.Rows.{current_rows};
ghost use Rattle.session_steps.specs.Open.{IsOpen};
ghost use Rattle.schedule_runner.specs.Scripts.{WasRead};
ghost use Rattle.dml_program.specs.Answers.{IsFault, Writes};
ghost use Rattle.dml_program.specs.Causes.{HasStoreCause};
ghost use Rattle.dml_program.specs.Opening.{load_status};
ghost use Rattle.dml_program.specs.ScriptRuns.{IsBroken, HasEnded, IsRan, IsRunEnd, IsTold, IsWhole, IsWritten, names_in, status_of_fault, status_of_steps};
ghost use Rattle.dml_program.specs.Statuses.{fault_lines};

use crate::begin::Begun;
use crate::open::later;
use crate::report::fault_lines;
use crate::status::{Status, TableKind};
use dml_parser::Script;
use plain_types::Text;
use run_report::{is_refused, name_of, put_branch, put_steps};
use schedule_runner::{Run, count_rows, run_script};
use session_machine::Stepped;
use session_steps::RunFault;
use std::alloc::{AllocError, Global};
use store_core::{Clock, Sink, Store, write_all};
use table_state::LoadFault;

// The lines that a run writes, and its status where they are written.
#[derive(Drop)]
struct Report {
    status: Status,
    lines: Vec<u8>,
}

/// Runs the script and writes the report.
pub(crate) fn run_begun<S: Store, K: Sink, C: Clock>(
    alloc: Global,
    store: &mut S,
    out: &mut K,
    clock: &mut C,
    table: &str,
    begun: &Begun,
) -> Status
    requires read { WasRead begun.now.schema begun.now.script }
    requires open { ForSome (S.files store.old) (λ files. IsOpen table.now begun.now.schema files begun.now.version) }
    ensures runs { ForSome (S.files store.old) (λ files. (new : Files) × (S.files store.new ≡ Some new)
        × IsRan table.now begun.now files new (S.faults store.old) (S.faults store.new) result (K.written out.old)
        (K.written out.new) (K.faults out.old) (K.faults out.new)) }
    ensures kept { KeepsFiles (S.files store.old) (S.files store.new) }
    ensures kind { IsRunEnd result }
    ensures store { HasStoreCause result (S.faults store.old) (S.faults store.new) (S.unsettled store.new) }
    ensures output_failed { result ≡ Status.OutputFailed → Rose (K.faults out.old) (K.faults out.new) }
    ensures quiet { HasEnded result → K.faults out.new ≡ K.faults out.old }
    ensures fault_lines { IsFault result → (steps : Seq ℕ) × Writes (steps ++ fault_lines result) (K.written out.old)
        (K.written out.new) (K.faults out.old) (K.faults out.new) }
{
    let Run { steps, ended } = run_script(alloc, store, clock, table, &begun.schema, &begun.script);
    let script = &begun.script;
    match ended {
        Some(fault) => tell_stop(alloc, out, table, script, steps.as_slice(), fault),
        None => tell_end(alloc, store, out, table, script, steps.as_slice()),
    }
}

// Writes the report of a run that stopped.
fn tell_stop<K: Sink>(
    alloc: Global,
    out: &mut K,
    table: &str,
    script: &Script,
    steps: &[Stepped],
    fault: RunFault,
) -> Status
    requires within { (session statement : ℕ) → fault ≡ RunFault.Unknown session statement → statement < 4096 }
    ensures report { (files : Files)
        → IsTold table.now (names_in script.now) files steps.now (Some fault) result (K.written out.old) (K.written out.new)
        (K.faults out.old) (K.faults out.new) }
    ensures status { (result ≡ Status.Memory) ⊎ (result ≡ status_of_fault table.now (names_in script.now) fault) }
    ensures kind { IsRunEnd result }
    ensures stops { IsFault result }
    ensures fault_lines { (front : Seq ℕ) × Writes (front ++ fault_lines result) (K.written out.old) (K.written out.new) (K.faults out.old) (K.faults out.new) }
{
    match stopped_report(alloc, table, script, steps, fault) {
        Ok(report) => write_report(out, report),
        Err(status) => status,
    }
}

// Writes the report of a run that went to its end.
fn tell_end<S: Store, K: Sink>(
    alloc: Global,
    store: &mut S,
    out: &mut K,
    table: &str,
    script: &Script,
    steps: &[Stepped],
) -> Status
    ensures report { ForSome (S.files store.old) (λ files. (rows : Seq (Seq Content))
        → current_rows table.now (codes "main") files ≡ Ok rows
        → IsTold table.now (names_in script.now) files steps.now None result (K.written out.old) (K.written out.new)
        (K.faults out.old) (K.faults out.new)) }
    ensures files { S.files store.new ≡ S.files store.old }
    ensures later { S.faults store.old ≤ S.faults store.new }
    ensures store { HasStoreCause result (S.faults store.old) (S.faults store.new) (S.unsettled store.new) }
    ensures kind { IsRunEnd result }
    ensures known { (session : Seq ℕ) (number : ℕ) → result ≡ Status.StateUnknown session number → ⊥ }
    ensures output_failed { result ≡ Status.OutputFailed → Rose (K.faults out.old) (K.faults out.new) }
    ensures quiet { HasEnded result → K.faults out.new ≡ K.faults out.old }
    ensures fault_lines { IsFault result → (front : Seq ℕ) × Writes (front ++ fault_lines result) (K.written out.old)
        (K.written out.new) (K.faults out.old) (K.faults out.new) }
{
    match whole_report(alloc, store, table, script, steps) {
        Ok(report) => write_report(out, report),
        Err(status) => status,
    }
}

// The report of a run that stopped. Where memory ran out there is none.
fn stopped_report(
    alloc: Global,
    table: &str,
    script: &Script,
    steps: &[Stepped],
    fault: RunFault,
) -> Result<Report, Status>
    requires within { (session statement : ℕ) → fault ≡ RunFault.Unknown session statement → statement < 4096 }
    ensures status { IfOk result (λ report. report.status ≡ status_of_fault table.now (names_in script.now) fault) }
    ensures lines { IfOk result (λ report. IsBroken (names_in script.now) steps.now report.status report.lines.items) }
    ensures stops { IfOk result (λ report. IsFault report.status) }
    ensures kind { IfOk result (λ report. IsRunEnd report.status) }
    ensures memory { IfErr result (λ status. status ≡ Status.Memory) }
{
    let names = names_in(alloc, script)?;
    let status = status_of_fault(alloc, table, names.as_slice(), fault)?;
    broken(alloc, names.as_slice(), steps, status)
}

// The lines of the steps, and a fault.
fn broken(
    alloc: Global,
    names: &[Text],
    steps: &[Stepped],
    status: Status,
) -> Result<Report, Status>
    ensures status { IfOk result (λ report. report.status ≡ status) }
    ensures lines { IfOk result (λ report. IsBroken names.now steps.now status report.lines.items) }
    ensures memory { IfErr result (λ status. status ≡ Status.Memory) }
{
    let mut lines = Vec::new(alloc);
    put_steps(alloc, names, steps, &mut lines)?;
    let fault = fault_lines(alloc, &status)?;
    lines.extend_from_slice(fault.as_slice())?;
    Ok(Report { status, lines })
}

// The status of a run that stopped. Where memory ran out nothing is written.
fn status_of_fault(
    alloc: Global,
    table: &str,
    names: &[Text],
    fault: RunFault,
) -> Result<Status, Status>
    requires within { (session statement : ℕ) → fault ≡ RunFault.Unknown session statement → statement < 4096 }
    ensures status { IfOk result (λ status. status ≡ status_of_fault table.now names.now fault) }
    ensures stops { IfOk result IsFault }
    ensures kind { IfOk result IsRunEnd }
    ensures memory { IfErr result (λ status. status ≡ Status.Memory) }
{
    match fault {
        RunFault::Store => Ok(Status::StoreFailed),
        RunFault::Unknown { session, statement } => Ok(Status::StateUnknown {
            session: Text::copy_of(alloc, name_of(names, session))?,
            number: statement as u32 + 1,
        }),
        RunFault::Table(_) => Ok(later(Text::copy_of(alloc, table)?)),
        RunFault::Schema(path) => Ok(later(path)),
        RunFault::Limit(path) => Ok(Status::TableBad {
            kind: TableKind::Limit,
            path,
        }),
        RunFault::Memory => Err(Status::Memory),
    }
}

// The report of a run that went to its end.
fn whole_report<S: Store>(
    alloc: Global,
    store: &mut S,
    table: &str,
    script: &Script,
    steps: &[Stepped],
) -> Result<Report, Status>
    ensures report { IfOk result (λ report. ForSome (S.files store.old) (λ files. (rows : Seq (Seq Content)) → current_rows table.now (codes "main") files ≡ Ok rows
        → IsWhole table.now (names_in script.now) files steps.now report.status report.lines.items ⊎ ((report.status ≡ Status.StoreFailed)
        × IsBroken (names_in script.now) steps.now report.status report.lines.items))) }
    ensures lines { IfOk result (λ report. IsFault report.status → IsBroken (names_in script.now) steps.now report.status report.lines.items) }
    ensures kind { IfOk result (λ report. IsRunEnd report.status) }
    ensures known { IfOk result (λ report. (session : Seq ℕ) (number : ℕ) → report.status ≡ Status.StateUnknown session number → ⊥) }
    ensures unwritten { IfOk result (λ report. report.status ≡ Status.OutputFailed → ⊥) }
    ensures memory { IfErr result (λ status. status ≡ Status.Memory) }
    ensures files { S.files store.new ≡ S.files store.old }
    ensures later { S.faults store.old ≤ S.faults store.new }
    ensures store { IfOk result (λ report. HasStoreCause report.status (S.faults store.old) (S.faults store.new) (S.unsettled store.new)) }
{
    let names = names_in(alloc, script)?;
    let names = names.as_slice();
    match count_rows(alloc, store, table, "main") {
        Ok(rows) => whole(alloc, names, steps, rows as usize),
        Err(fault) => {
            let status = status_of_count(alloc, table, fault)?;
            broken(alloc, names, steps, status)
        }
    }
}

// The status of a run whose rows could not be counted. Where memory ran out nothing is written.
fn status_of_count(alloc: Global, table: &str, fault: LoadFault) -> Result<Status, Status>
    ensures status { IfOk result (λ status. status ≡ load_status table.now fault) }
    ensures some { IfOk result (λ status. fault ≢ LoadFault.Memory) }
    ensures memory { IfErr result (λ status. status ≡ Status.Memory) }
{
    match fault {
        LoadFault::Memory => Err(Status::Memory),
        LoadFault::Store => Ok(Status::StoreFailed),
        _ => Ok(later(Text::copy_of(alloc, table)?)),
    }
}

// The lines of the steps, and the number of rows.
fn whole(alloc: Global, names: &[Text], steps: &[Stepped], rows: usize) -> Result<Report, Status>
    ensures status { IfOk result (λ report. report.status ≡ status_of_steps steps.now) }
    ensures lines { IfOk result (λ report. report.lines.items ≡ lines_of_steps names.now steps.now ++ lines_of_branch (codes "main") rows) }
    ensures memory { IfErr result (λ status. status ≡ Status.Memory) }
{
    let mut lines = Vec::new(alloc);
    put_steps(alloc, names, steps, &mut lines)?;
    put_branch(alloc, "main", rows, &mut lines)?;
    let status = status_of_steps(steps);
    Ok(Report { status, lines })
}

fn status_of_steps(steps: &[Stepped]) -> Status
    ensures { result ≡ status_of_steps steps.now }
{
    if is_refused(steps) {
        Status::Refused
    } else {
        Status::Done
    }
}

// The names of the sessions, by their numbers.
fn names_in(alloc: Global, script: &Script) -> Result<Vec<Text>, AllocError>
    ensures { IfOk result (λ names. names.items ≡ names_in script.now) }
{
    let mut names = Vec::new(alloc);
    for session in script.sessions.as_slice() {
        names.push(Text::copy_of(alloc, session.name.as_str())?)?;
    }
    Ok(names)
}

// Writes the lines of a report. Where that fails, the status of a fault stays.
fn write_report<K: Sink>(out: &mut K, report: Report) -> Status
    requires kind { IsRunEnd report.status }
    ensures status { IsWritten report.status result (K.faults out.old) (K.faults out.new) }
    ensures lines { Writes report.lines.items (K.written out.old) (K.written out.new) (K.faults out.old) (K.faults out.new) }
    ensures whole { HasEnded result → K.written out.new ≡ appended report.lines.items (K.written out.old) }
    ensures kind { IsRunEnd result }
    ensures faults { IsFault result → result ≡ report.status }
    ensures output_failed { result ≡ Status.OutputFailed → Rose (K.faults out.old) (K.faults out.new) ⊎ (report.status ≡ Status.OutputFailed) }
    ensures quiet { HasEnded result → K.faults out.new ≡ K.faults out.old }
{
    let Report { status, lines } = report;
    match write_all(out, lines.as_slice()) {
        Ok(()) => status,
        Err(_) => unwritten(status),
    }
}

// The status of a call whose report was not written.
fn unwritten(status: Status) -> Status
    ensures carried_out { HasEnded status → result ≡ Status.OutputFailed }
    ensures ended { HasEnded result → ⊥ }
    ensures fault { (HasEnded status → ⊥) → result ≡ status }
{
    match status {
        Status::Done | Status::Refused => Status::OutputFailed,
        other => other,
    }
}
