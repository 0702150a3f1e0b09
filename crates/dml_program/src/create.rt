// Makes the first version of a table.
ghost use Rattle.std.specs.Prelude.{◌≡◌, ℕ, List, Option, None, Some, Ok, Err, IfOk, IfErr, OnOk};
ghost use Rattle.std.specs.Option.{ForSome};
ghost use Rattle.plain_types.specs.Causes.{Rose};
ghost use Rattle.store_core.specs.Files.{Files, KeepsFiles};
ghost use Rattle.table_definition.specs.Definition.{asked, definition_of};
ghost use Rattle.table_names.specs.Versions.{version_of};
ghost use Rattle.dml_program.specs.Answers.{AllTold, Carries, LeavesAnswered, Prints, create_answer, so_far};
ghost use Rattle.dml_program.specs.Causes.{HasInputCause, HasStoreCause, IsFormStop, IsSettled, IsStop, IsUnbegun};
ghost use Rattle.dml_program.specs.Opening.{IsRefusal};
ghost use Rattle.dml_program.specs.Creating.{StopsAt, asked_by, bad_file, file_given, first_version_of, has_no_version, if_in_form, is_not_compressed, in_form, may_be_made};

use crate::report;
use crate::status::{ScriptKind, Status, TableKind};
use branch_commit::{SwapAnswer, SwapFault, swap};
use plain_types::Text;
use std::alloc::Global;
use store_core::{Blob, Clock, InputAnswer, Inputs, IoFault, Store};
use table_definition::{Definition, DefinitionFault, first_text, read_definition};
use table_names::{compressed_version, current_version, version_name};
use table_state::{columns_in_form, writing_in_form};

/// The most bytes of a script or a schema file.
const MOST_BYTES: u64 = 1 << 20;

/// Makes the first version of a table by the schema file of a name, and gives the lines that tell it.
pub(crate) fn create<S: Store, I: Inputs, C: Clock>(
    alloc: Global,
    store: &mut S,
    inputs: &mut I,
    clock: &mut C,
    table: &str,
    schema: &str,
) -> Result<Vec<u8>, Status>
    ensures found { IfOk result (λ lines. AllTold (S.files store.old) (I.contents inputs.old) (C.time clock.old)
        (λ files given now. Prints (create_answer table.now files (first_version_of table.now schema.now files given now)) lines.items)) }
    ensures refused { IfErr result (λ status. AllTold (S.files store.old) (I.contents inputs.old) (C.time clock.old)
        (λ files given now. Carries (Rose (I.faults inputs.old) (I.faults inputs.new))
        (create_answer table.now files (first_version_of table.now schema.now files given now)) status)) }
    ensures leaves { AllTold (S.files store.old) (I.contents inputs.old) (C.time clock.old)
        (λ files given now. LeavesAnswered (create_answer table.now files (first_version_of table.now schema.now files given now))
        (so_far result) files (S.files store.new)) }
    ensures kept { KeepsFiles (S.files store.old) (S.files store.new) }
    ensures kind { IfErr result IsStop }
    ensures store { IfErr result (λ status. HasStoreCause status (S.faults store.old) (S.faults store.new) (S.unsettled store.new)) }
    ensures input { IfErr result (λ status. HasInputCause status (I.contents inputs.old) (I.faults inputs.old) (I.faults inputs.new)) }
    ensures quiet { OnOk result (IsSettled (S.faults store.old) (S.faults store.new) (S.unsettled store.new) × (I.faults inputs.new ≡ I.faults inputs.old)) }
{
    let text = match first_version(alloc, store, inputs, clock, table, schema) {
        Ok(text) => text,
        Err(status) => return Err(status),
    };
    let lines = report::created_lines(alloc)?;
    match make_version(alloc, store, table, text.as_slice()) {
        Ok(()) => Ok(lines),
        Err(status) => Err(status),
    }
}

// The bytes of the first version, of a table that may be made.
#[tactic(auto, unfolding(crate::specs::Creating::first_version_of))]
fn first_version<S: Store, I: Inputs, C: Clock>(
    alloc: Global,
    store: &mut S,
    inputs: &mut I,
    clock: &mut C,
    table: &str,
    schema: &str,
) -> Result<Blob, Status>
    ensures found { IfOk result (λ text. AllTold (S.files store.old) (I.contents inputs.old) (C.time clock.old)
        (λ files given now. first_version_of table.now schema.now files given now ≡ Ok text)) }
    ensures refused { IfErr result (λ status. AllTold (S.files store.old) (I.contents inputs.old) (C.time clock.old)
        (λ files given now. StopsAt (Rose (I.faults inputs.old) (I.faults inputs.new))
        (first_version_of table.now schema.now files given now) status)) }
    ensures fresh { OnOk result (ForSome (S.files store.old) (λ files. version_of table.now files ≡ None)) }
    ensures files { S.files store.new ≡ S.files store.old }
    ensures kind { IfErr result IsStop }
    ensures store { IfErr result (λ status. HasStoreCause status (S.faults store.old) (S.faults store.new) (S.unsettled store.new)) }
    ensures input { IfErr result (λ status. HasInputCause status (I.contents inputs.old) (I.faults inputs.old) (I.faults inputs.new)) }
    ensures quiet { OnOk result ((S.faults store.new ≡ S.faults store.old) × (I.faults inputs.new ≡ I.faults inputs.old)) }
{
    let bytes = read_file(alloc, inputs, schema)?;
    check_place(alloc, store, table)?;
    let definition = read_asked(alloc, bytes)?;
    let now = clock.now_ms();
    Ok(first_text(alloc, &definition, table, now)?)
}

/// Reads a script or a schema file, and gives nothing of one that is too long.
pub(crate) fn read_file<I: Inputs>(
    alloc: Global,
    inputs: &mut I,
    name: &str,
) -> Result<Option<Blob>, Status>
    ensures found { IfOk result (λ bytes. ForSome (I.contents inputs.old) (λ given. file_given name.now given ≡ Ok bytes)) }
    ensures refused { IfErr result (λ status. ForSome (I.contents inputs.old)
        (λ given. StopsAt (Rose (I.faults inputs.old) (I.faults inputs.new)) (file_given name.now given) status)) }
    ensures contents { I.contents inputs.new ≡ I.contents inputs.old }
    ensures kind { IfErr result IsStop }
    ensures before { IfErr result IsUnbegun }
    ensures store { IfErr result (λ status. (before now unsettled : ℕ) → HasStoreCause status before now unsettled) }
    ensures input { IfErr result (λ status. HasInputCause status (I.contents inputs.old) (I.faults inputs.old) (I.faults inputs.new)) }
    ensures quiet { OnOk result (I.faults inputs.new ≡ I.faults inputs.old) }
{
    let path = Text::copy_of(alloc, name)?;
    match inputs.read(alloc, name, MOST_BYTES) {
        Ok(InputAnswer::Found(bytes)) => Ok(Some(bytes)),
        Ok(InputAnswer::TooLong) => Ok(None),
        Ok(InputAnswer::Missing) => Err(Status::InputFailed { name: path }),
        Err(IoFault::Failed) => Err(Status::InputFailed { name: path }),
        Err(IoFault::Memory) => Err(Status::Memory),
    }
}

// Whether a table may be made in a folder.
#[tactic(auto, unfolding(crate::specs::Creating::may_be_made))]
fn check_place<S: Store>(alloc: Global, store: &mut S, table: &str) -> Result<(), Status>
    ensures found { OnOk result (ForSome (S.files store.old) (λ files. may_be_made table.now files ≡ Ok tt)) }
    ensures refused { IfErr result (λ status. ForSome (S.files store.old) (λ files. StopsAt ⊥ (may_be_made table.now files) status)) }
    ensures fresh { OnOk result (ForSome (S.files store.old) (λ files. version_of table.now files ≡ None)) }
    ensures files { S.files store.new ≡ S.files store.old }
    ensures kind { IfErr result IsRefusal }
    ensures store { IfErr result (λ status. HasStoreCause status (S.faults store.old) (S.faults store.new) (S.unsettled store.new)) }
    ensures quiet { OnOk result (S.faults store.new ≡ S.faults store.old) }
{
    check_no_version(alloc, store, table)?;
    check_not_compressed(alloc, store, table)
}

fn check_no_version<S: Store>(alloc: Global, store: &mut S, table: &str) -> Result<(), Status>
    ensures found { OnOk result (ForSome (S.files store.old) (λ files. has_no_version table.now files ≡ Ok tt)) }
    ensures refused { IfErr result (λ status. ForSome (S.files store.old) (λ files. StopsAt ⊥ (has_no_version table.now files) status)) }
    ensures fresh { OnOk result (ForSome (S.files store.old) (λ files. version_of table.now files ≡ None)) }
    ensures files { S.files store.new ≡ S.files store.old }
    ensures kind { IfErr result IsRefusal }
    ensures store { IfErr result (λ status. HasStoreCause status (S.faults store.old) (S.faults store.new) (S.unsettled store.new)) }
    ensures quiet { OnOk result (S.faults store.new ≡ S.faults store.old) }
{
    match current_version(alloc, store, table) {
        Ok(None) => Ok(()),
        Ok(Some(_)) => Err(Status::TableBad {
            kind: TableKind::Exists,
            path: Text::copy_of(alloc, table)?,
        }),
        Err(fault) => Err(Status::from(fault)),
    }
}

fn check_not_compressed<S: Store>(alloc: Global, store: &mut S, table: &str) -> Result<(), Status>
    ensures found { OnOk result (ForSome (S.files store.old) (λ files. is_not_compressed table.now files ≡ Ok tt)) }
    ensures refused { IfErr result (λ status. ForSome (S.files store.old) (λ files. StopsAt ⊥ (is_not_compressed table.now files) status)) }
    ensures files { S.files store.new ≡ S.files store.old }
    ensures kind { IfErr result IsRefusal }
    ensures store { IfErr result (λ status. HasStoreCause status (S.faults store.old) (S.faults store.new) (S.unsettled store.new)) }
    ensures quiet { OnOk result (S.faults store.new ≡ S.faults store.old) }
{
    match compressed_version(alloc, store, table) {
        Ok(None) => Ok(()),
        Ok(Some(path)) => Err(Status::TableBad {
            kind: TableKind::Later,
            path,
        }),
        Err(fault) => Err(Status::from(fault)),
    }
}

// What the bytes of a schema file ask for, where the file is not too long.
#[tactic(auto, unfolding(crate::specs::Creating::asked_by))]
fn read_asked(alloc: Global, bytes: Option<Blob>) -> Result<Definition, Status>
    ensures found { IfOk result (λ d. asked_by bytes ≡ Ok (asked d)) }
    ensures text { IfOk result (λ d. (text : List ℕ) × (definition_of text ≡ Ok (asked d))) }
    ensures refused { IfErr result (StopsAt ⊥ (asked_by bytes)) }
    ensures kind { IfErr result IsFormStop }
{
    let Some(bytes) = bytes else {
        return Err(bad(ScriptKind::Limit));
    };
    let definition = match read_definition(alloc, bytes.as_slice()) {
        Ok(definition) => definition,
        Err(fault) => return Err(bad_file(fault)),
    };
    if in_form(&definition) {
        Ok(definition)
    } else {
        Err(bad(ScriptKind::Later))
    }
}

fn bad_file(fault: DefinitionFault) -> Status
    ensures { result ≡ bad_file fault }
{
    match fault {
        DefinitionFault::Text => bad(ScriptKind::Text),
        DefinitionFault::Schema => bad(ScriptKind::Schema),
        DefinitionFault::Memory => Status::Memory,
    }
}

fn bad(kind: ScriptKind) -> Status
    ensures { result ≡ Status.ScriptBad 1 kind }
{
    Status::ScriptBad { line: 1, kind }
}

fn in_form(definition: &Definition) -> bool
    ensures { result ≡ in_form (asked definition.now) }
{
    columns_in_form(definition.schema.columns.as_slice())
        && definition.spec.fields.len() == 0
        && writing_in_form(&definition.properties)
}

// Makes the first version of a table that has none.
fn make_version<S: Store>(
    alloc: Global,
    store: &mut S,
    table: &str,
    text: &[u8],
) -> Result<(), Status>
    requires { ForSome (S.files store.old) (λ files. version_of table.now files ≡ None) }
    ensures refused { IfErr result (λ status. ForSome (S.files store.old) (λ files. Carries ⊥ (create_answer table.now files (Ok text.now)) status)) }
    ensures leaves { ForSome (S.files store.old) (λ files. LeavesAnswered (create_answer table.now files (Ok text.now)) (so_far result) files (S.files store.new)) }
    ensures kept { KeepsFiles (S.files store.old) (S.files store.new) }
    ensures kind { IfErr result IsStop }
    ensures store { IfErr result (λ status. HasStoreCause status (S.faults store.old) (S.faults store.new) (S.unsettled store.new)) }
    ensures input { IfErr result (λ status. (contents : Option Files) (before now : ℕ) → HasInputCause status contents before now) }
    ensures quiet { OnOk result (IsSettled (S.faults store.old) (S.faults store.new) (S.unsettled store.new)) }
{
    let name = version_name(alloc, table, 1)?;
    let path = Text::copy_of(alloc, table)?;
    match swap(alloc, store, name.as_str(), text) {
        Ok(SwapAnswer::Won) => Ok(()),
        Ok(SwapAnswer::Lost) => Err(Status::TableBad {
            kind: TableKind::Exists,
            path,
        }),
        Err(SwapFault::Store) => Err(Status::StoreFailed),
        Err(SwapFault::Unknown) => Err(Status::StateUnknown {
            session: Text::from_string(String::new(alloc)),
            number: 0,
        }),
        Err(SwapFault::Memory) => Err(Status::Memory),
    }
}
