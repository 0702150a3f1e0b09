// The top call.
ghost use Rattle.std.specs.Prelude.{◌≡◌, ◌⊎◌, ◌++◌, [], ℕ, List as Seq, None, Some, IfOk, IfErr, IsErrOf, OnOk};
ghost use Rattle.std.specs.Option.{ForSome};
ghost use Rattle.plain_types.specs.Causes.{Rose};
ghost use Rattle.store_core.specs.Files.{Files, KeepsFiles};
ghost use Rattle.command_line.specs.Words.{command_of, run, texts, wanted};
ghost use Rattle.dml_program.specs.Answers.{Carries, IsFault, LeavesAnswered, OnlyReads, Prints, RunsNothing, Told, ToldOf, Writes, report_lines, rows_answer, so_far, status_of};
ghost use Rattle.dml_program.specs.Causes.{HasInputCause, HasStoreCause, IsSettled, IsSettledBy};
ghost use Rattle.dml_program.specs.Opening.{IsRefusal, table_rows};
ghost use Rattle.dml_program.specs.ScriptRuns.{HasEnded, IsUnread, IsRan, OfRun};
ghost use Rattle.dml_program.specs.Statuses.{fault_lines};

use crate::begin::begin;
use crate::create::create;
use crate::open::table_rows;
use crate::report;
use crate::script_run::run_begun;
use crate::status::Status;
use command_line::{Command, WordsFault, read_words};
use std::alloc::Global;
use store_core::{Clock, Inputs, Sink, Store, write_all};

/// Carries out the command that the words after the program's name ask for, over a store, with the inputs that it reads
/// and the time that the clock tells, and writes the report to a sink: the rows of `main`, sorted by the bytes of their
/// records, or that the table was created, or the steps and answers of a script's statements and how many rows `main` has in
/// the end, or a fault line. Where the sink fails at a fault line the status stays.
pub fn run_program<S: Store, I: Inputs, K: Sink, C: Clock>(
    alloc: Global,
    words: &[&str],
    store: &mut S,
    inputs: &mut I,
    out: &mut K,
    clock: &mut C,
) -> Status
    // The answer is the one that the words, the files, the inputs and the time want, or names what failed.
    ensures usage { result ≡ Status.Usage → command_of (texts words.now) ≡ None }
    ensures refused { command_of (texts words.now) ≡ None → (result ≡ Status.Usage) ⊎ (result ≡ Status.Memory) }
    ensures answer { Told (texts words.now) (S.files store.old) (I.contents inputs.old) (C.time clock.old)
        (λ files answer. Carries (Rose (I.faults inputs.old) (I.faults inputs.new)) answer result) }

    // A failure has its cause, and where nothing failed the wanted answer comes, or want of memory.
    ensures store { HasStoreCause result (S.faults store.old) (S.faults store.new) (S.unsettled store.new) }
    ensures input { HasInputCause result (I.contents inputs.old) (I.faults inputs.old) (I.faults inputs.new) }
    ensures output_failed { result ≡ Status.OutputFailed → Rose (K.faults out.old) (K.faults out.new) }
    ensures complete { ¬ Rose (S.faults store.old) (S.faults store.new) → ¬ Rose (I.faults inputs.old) (I.faults inputs.new) → ¬ Rose (K.faults out.old) (K.faults out.new)
        → Told (texts words.now) (S.files store.old) (I.contents inputs.old) (C.time clock.old)
        (λ files answer. (result ≡ Status.Memory) ⊎ (result ≡ status_of answer)) }
    ensures quiet { HasEnded result → IsSettledBy (command_of (texts words.now)) (S.faults store.old) (S.faults store.new)
        (S.unsettled store.new) × (I.faults inputs.new ≡ I.faults inputs.old) × (K.faults out.new ≡ K.faults out.old) }

    // The files are those of the answer, and each that was there is as it was. The report is whole, or a front of it by a
    // sink that failed.
    ensures leaves { Told (texts words.now) (S.files store.old) (I.contents inputs.old) (C.time clock.old)
        (λ files answer. LeavesAnswered answer result files (S.files store.new)) }
    ensures only_reads { OnlyReads (command_of (texts words.now)) → S.files store.new ≡ S.files store.old }
    ensures kept { KeepsFiles (S.files store.old) (S.files store.new) }
    ensures report { Told (texts words.now) (S.files store.old) (I.contents inputs.old) (C.time clock.old)
        (λ files answer. Writes (report_lines answer result) (K.written out.old) (K.written out.new) (K.faults out.old)
        (K.faults out.new)) }
    ensures fault_lines { IsFault result → (steps : Seq ℕ) × (RunsNothing (command_of (texts words.now)) → steps ≡ [])
        × Writes (steps ++ fault_lines result) (K.written out.old) (K.written out.new) (K.faults out.old) (K.faults out.new) }

    // A run that began leaves what plain SQL gives of the statements that it carried out, and tells of its steps.
    ensures runs { OfRun (command_of (texts words.now)) (S.files store.old) (I.contents inputs.old)
        (λ table begun files. IsUnread result (I.faults inputs.old) (I.faults inputs.new) files (S.files store.new)
        ⊎ ((new : Files) × (S.files store.new ≡ Some new) × IsRan table begun files new (S.faults store.old)
        (S.faults store.new) result (K.written out.old) (K.written out.new) (K.faults out.old) (K.faults out.new))) }
{
    match read_words(alloc, words) {
        Ok(Command::Run { table, script }) => run(alloc, store, inputs, out, clock, table, script),
        Ok(command) => answer(alloc, command, store, inputs, out, clock),
        Err(WordsFault::Usage) => write_fault(alloc, out, Status::Usage),
        Err(WordsFault::Memory) => Status::Memory,
    }
}

// Carries out `run`.
fn run<S: Store, I: Inputs, K: Sink, C: Clock>(
    alloc: Global,
    store: &mut S,
    inputs: &mut I,
    out: &mut K,
    clock: &mut C,
    table: &str,
    script: &str,
) -> Status
    ensures usage { result ≡ Status.Usage → ⊥ }
    ensures answer { ToldOf (Some (run table.now script.now)) (S.files store.old) (I.contents inputs.old) (C.time clock.old)
        (λ files answer. Carries (Rose (I.faults inputs.old) (I.faults inputs.new)) answer result) }
    ensures store { HasStoreCause result (S.faults store.old) (S.faults store.new) (S.unsettled store.new) }
    ensures input { HasInputCause result (I.contents inputs.old) (I.faults inputs.old) (I.faults inputs.new) }
    ensures output_failed { result ≡ Status.OutputFailed → Rose (K.faults out.old) (K.faults out.new) }
    ensures complete { ¬ Rose (S.faults store.old) (S.faults store.new) → ¬ Rose (I.faults inputs.old) (I.faults inputs.new) → ¬ Rose (K.faults out.old) (K.faults out.new)
        → ToldOf (Some (run table.now script.now)) (S.files store.old) (I.contents inputs.old) (C.time clock.old)
        (λ files answer. (result ≡ Status.Memory) ⊎ (result ≡ status_of answer)) }
    ensures quiet { HasEnded result → IsSettledBy (Some (run table.now script.now)) (S.faults store.old) (S.faults store.new)
        (S.unsettled store.new) × (I.faults inputs.new ≡ I.faults inputs.old) × (K.faults out.new ≡ K.faults out.old) }
    ensures leaves { ToldOf (Some (run table.now script.now)) (S.files store.old) (I.contents inputs.old) (C.time clock.old)
        (λ files answer. LeavesAnswered answer result files (S.files store.new)) }
    ensures only_reads { OnlyReads (Some (run table.now script.now)) → S.files store.new ≡ S.files store.old }
    ensures kept { KeepsFiles (S.files store.old) (S.files store.new) }
    ensures report { ToldOf (Some (run table.now script.now)) (S.files store.old) (I.contents inputs.old) (C.time clock.old)
        (λ files answer. Writes (report_lines answer result) (K.written out.old) (K.written out.new) (K.faults out.old)
        (K.faults out.new)) }
    ensures fault_lines { IsFault result → (steps : Seq ℕ) × (RunsNothing (Some (run table.now script.now)) → steps ≡ [])
        × Writes (steps ++ fault_lines result) (K.written out.old) (K.written out.new) (K.faults out.old) (K.faults out.new) }
    ensures runs { OfRun (Some (run table.now script.now)) (S.files store.old) (I.contents inputs.old)
        (λ table begun files. IsUnread result (I.faults inputs.old) (I.faults inputs.new) files (S.files store.new)
        ⊎ ((new : Files) × (S.files store.new ≡ Some new) × IsRan table begun files new (S.faults store.old)
        (S.faults store.new) result (K.written out.old) (K.written out.new) (K.faults out.old) (K.faults out.new))) }
{
    match begin(alloc, store, inputs, table, script) {
        Ok(begun) => run_begun(alloc, store, out, clock, table, &begun),
        Err(status) => write_fault(alloc, out, status),
    }
}

// Carries out another command.
fn answer<S: Store, I: Inputs, K: Sink, C: Clock>(
    alloc: Global,
    command: Command,
    store: &mut S,
    inputs: &mut I,
    out: &mut K,
    clock: &mut C,
) -> Status
    requires { RunsNothing (Some (wanted command)) }
    ensures usage { result ≡ Status.Usage → ⊥ }
    ensures answer { ToldOf (Some (wanted command.entry)) (S.files store.old) (I.contents inputs.old) (C.time clock.old)
        (λ files answer. Carries (Rose (I.faults inputs.old) (I.faults inputs.new)) answer result) }
    ensures store { HasStoreCause result (S.faults store.old) (S.faults store.new) (S.unsettled store.new) }
    ensures input { HasInputCause result (I.contents inputs.old) (I.faults inputs.old) (I.faults inputs.new) }
    ensures output_failed { result ≡ Status.OutputFailed → Rose (K.faults out.old) (K.faults out.new) }
    ensures complete { ¬ Rose (S.faults store.old) (S.faults store.new) → ¬ Rose (I.faults inputs.old) (I.faults inputs.new) → ¬ Rose (K.faults out.old) (K.faults out.new)
        → ToldOf (Some (wanted command.entry)) (S.files store.old) (I.contents inputs.old) (C.time clock.old)
        (λ files answer. (result ≡ Status.Memory) ⊎ (result ≡ status_of answer)) }
    ensures quiet { HasEnded result → IsSettledBy (Some (wanted command.entry)) (S.faults store.old) (S.faults store.new)
        (S.unsettled store.new) × (I.faults inputs.new ≡ I.faults inputs.old) × (K.faults out.new ≡ K.faults out.old) }
    ensures leaves { ToldOf (Some (wanted command.entry)) (S.files store.old) (I.contents inputs.old) (C.time clock.old)
        (λ files answer. LeavesAnswered answer result files (S.files store.new)) }
    ensures only_reads { OnlyReads (Some (wanted command.entry)) → S.files store.new ≡ S.files store.old }
    ensures kept { KeepsFiles (S.files store.old) (S.files store.new) }
    ensures report { ToldOf (Some (wanted command.entry)) (S.files store.old) (I.contents inputs.old) (C.time clock.old)
        (λ files answer. Writes (report_lines answer result) (K.written out.old) (K.written out.new) (K.faults out.old)
        (K.faults out.new)) }
    ensures fault_lines { IsFault result → (steps : Seq ℕ) × (RunsNothing (Some (wanted command.entry)) → steps ≡ [])
        × Writes (steps ++ fault_lines result) (K.written out.old) (K.written out.new) (K.faults out.old) (K.faults out.new) }
    ensures runs { OfRun (Some (wanted command.entry)) (S.files store.old) (I.contents inputs.old)
        (λ table begun files. IsUnread result (I.faults inputs.old) (I.faults inputs.new) files (S.files store.new)
        ⊎ ((new : Files) × (S.files store.new ≡ Some new) × IsRan table begun files new (S.faults store.old)
        (S.faults store.new) result (K.written out.old) (K.written out.new) (K.faults out.old) (K.faults out.new))) }
{
    match carry_out(alloc, command, store, inputs, clock) {
        Ok(lines) => write_lines(out, lines.as_slice()),
        Err(status) => write_fault(alloc, out, status),
    }
}

// The lines that the command prints, before they are written.
fn carry_out<S: Store, I: Inputs, C: Clock>(
    alloc: Global,
    command: Command,
    store: &mut S,
    inputs: &mut I,
    clock: &mut C,
) -> Result<Vec<u8>, Status>
    requires { RunsNothing (Some (wanted command)) }
    ensures found { IfOk result (λ lines. ToldOf (Some (wanted command.entry)) (S.files store.old) (I.contents inputs.old)
        (C.time clock.old) (λ files answer. Prints answer lines.items)) }
    ensures refused { IfErr result (λ status. ToldOf (Some (wanted command.entry)) (S.files store.old) (I.contents inputs.old)
        (C.time clock.old) (λ files answer. Carries (Rose (I.faults inputs.old) (I.faults inputs.new)) answer status)) }
    ensures leaves { ToldOf (Some (wanted command.entry)) (S.files store.old) (I.contents inputs.old) (C.time clock.old)
        (λ files answer. LeavesAnswered answer (so_far result) files (S.files store.new)) }
    ensures only_reads { OnlyReads (Some (wanted command.entry)) → S.files store.new ≡ S.files store.old }
    ensures kept { KeepsFiles (S.files store.old) (S.files store.new) }
    ensures kind { IfErr result IsFault }
    ensures known { IsErrOf result Status.Usage → ⊥ }
    ensures store { IfErr result (λ status. HasStoreCause status (S.faults store.old) (S.faults store.new) (S.unsettled store.new)) }
    ensures input { IfErr result (λ status. HasInputCause status (I.contents inputs.old) (I.faults inputs.old) (I.faults inputs.new)) }
    ensures quiet { OnOk result (IsSettled (S.faults store.old) (S.faults store.new) (S.unsettled store.new) × (I.faults inputs.new ≡ I.faults inputs.old)) }
{
    match command {
        Command::Rows { table } => rows(alloc, store, table),
        Command::Create { table, schema } => create(alloc, store, inputs, clock, table, schema),
        Command::Run { .. } => unreachable!(),
    }
}

// Carries out `rows`.
fn rows<S: Store>(alloc: Global, store: &mut S, table: &str) -> Result<Vec<u8>, Status>
    ensures found { IfOk result (λ lines. ForSome (S.files store.old) (λ files. Prints (rows_answer files (table_rows table.now files)) lines.items)) }
    ensures refused { IfErr result (λ status. ForSome (S.files store.old) (λ files. Carries ⊥ (rows_answer files (table_rows table.now files)) status)) }
    ensures leaves { ForSome (S.files store.old) (λ files. LeavesAnswered (rows_answer files (table_rows table.now files)) (so_far result) files (S.files store.new)) }
    ensures files { S.files store.new ≡ S.files store.old }
    ensures kind { IfErr result IsRefusal }
    ensures store { IfErr result (λ status. HasStoreCause status (S.faults store.old) (S.faults store.new) (S.unsettled store.new)) }
    ensures quiet { OnOk result (S.faults store.new ≡ S.faults store.old) }
{
    let rows = table_rows(alloc, store, table)?;
    Ok(report::row_lines(alloc, rows.as_slice())?)
}

// Writes the lines that a command prints.
fn write_lines<K: Sink>(out: &mut K, lines: &[u8]) -> Status
    ensures status { (result ≡ Status.Done) ⊎ (result ≡ Status.OutputFailed) }
    ensures output_failed { result ≡ Status.OutputFailed → Rose (K.faults out.old) (K.faults out.new) }
    ensures quiet { result ≡ Status.Done → K.faults out.new ≡ K.faults out.old }
    ensures report { Writes lines.now (K.written out.old) (K.written out.new) (K.faults out.old) (K.faults out.new) }
{
    match write_all(out, lines) {
        Ok(()) => Status::Done,
        Err(_) => Status::OutputFailed,
    }
}

// Writes what a status says of itself, which stays where that fails.
fn write_fault<K: Sink>(alloc: Global, out: &mut K, status: Status) -> Status
    requires { IsFault status }
    ensures status { (result ≡ status) ⊎ (result ≡ Status.Memory) }
    ensures report { Writes (fault_lines result) (K.written out.old) (K.written out.new) (K.faults out.old) (K.faults out.new) }
{
    let lines = match report::fault_lines(alloc, &status) {
        Ok(lines) => lines,
        Err(_) => return Status::Memory,
    };
    match write_all(out, lines.as_slice()) {
        Ok(()) => status,
        Err(_) => status,
    }
}
