// What a run of a script begins with.
ghost use Rattle.std.specs.Prelude.{◌≡◌, ◌⊎◌, None, Ok, Some, IfOk, IfErr, OnOk};
ghost use Rattle.std.specs.Option.{ForSome};
ghost use Rattle.plain_types.specs.Causes.{Rose};
ghost use Rattle.table_names.specs.Versions.{version_name};
ghost use Rattle.table_metadata.specs.ById.{schema_with};
ghost use Rattle.session_steps.specs.Open.{IsOpen};
ghost use Rattle.schedule_runner.specs.Scripts.{WasRead};
ghost use Rattle.dml_program.specs.Beginning.{bad_script, begun_of, script_by};
ghost use Rattle.dml_program.specs.Causes.{HasInputCause, HasStoreCause, IsFormStop, IsUnbegun};
ghost use Rattle.dml_program.specs.Creating.{StopsAt};

use crate::create::read_file;
use crate::open::{Opened, open_table};
use crate::status::{ScriptKind, Status, TableKind};
use dml_parser::{Script, ScriptFault, read_script};
use plain_types::{List, Text};
use row_values::{Column, TableSchema};
use std::alloc::{AllocError, Global};
use store_core::{Blob, Inputs, Store};
use table_metadata::current_schema;
use table_names::version_name;

/// What a run begins with.
#[derive(Drop)]
pub(crate) struct Begun {
    /// The current version of the table.
    pub version: u32,
    /// Its schema.
    pub schema: TableSchema,
    /// The script, read by this schema.
    pub script: Script,
}

/// Reads a script, by the schema of a table whose rows can be read.
#[tactic(auto, unfolding(crate::specs::Beginning::begun_of))]
pub(crate) fn begin<S: Store, I: Inputs>(
    alloc: Global,
    store: &mut S,
    inputs: &mut I,
    table: &str,
    script: &str,
) -> Result<Begun, Status>
    ensures found { IfOk result (λ begun. ForSome (S.files store.old)
        (λ files. ForSome (I.contents inputs.old) (λ given. begun_of table.now script.now files given ≡ Ok begun))) }
    ensures refused { IfErr result (λ status. ForSome (S.files store.old)
        (λ files. ForSome (I.contents inputs.old)
        (λ given. StopsAt (Rose (I.faults inputs.old) (I.faults inputs.new)) (begun_of table.now script.now files given) status))) }
    ensures open { IfOk result (λ begun. ForSome (S.files store.old) (λ files. IsOpen table.now begun.schema files begun.version)) }
    ensures read { IfOk result (λ begun. WasRead begun.schema begun.script) }
    ensures files { S.files store.new ≡ S.files store.old }
    ensures kind { IfErr result IsUnbegun }
    ensures store { IfErr result (λ status. HasStoreCause status (S.faults store.old) (S.faults store.new) (S.unsettled store.new)) }
    ensures input { IfErr result (λ status. HasInputCause status (I.contents inputs.old) (I.faults inputs.old) (I.faults inputs.new)) }
    ensures quiet { OnOk result ((S.faults store.new ≡ S.faults store.old) × (I.faults inputs.new ≡ I.faults inputs.old)) }
{
    let bytes = read_file(alloc, inputs, script)?;
    let opened = match open_table(alloc, store, table) {
        Ok(opened) => opened,
        Err(status) => return Err(status),
    };
    let version = opened.version;
    let schema = schema_of(alloc, table, &opened)?;
    let script = script_by(alloc, &schema, bytes)?;
    Ok(Begun {
        version,
        schema,
        script,
    })
}

fn no_schema(alloc: Global, table: &str, version: u32) -> Status
    ensures { (result ≡ Status.Memory) ⊎ (result ≡ Status.TableBad TableKind.Later (version_name table.now version)) }
{
    match version_name(alloc, table, version) {
        Ok(path) => Status::TableBad {
            kind: TableKind::Later,
            path: Text::from_string(path),
        },
        Err(_) => Status::Memory,
    }
}

// The current schema of a table's version.
fn schema_of(alloc: Global, table: &str, opened: &Opened) -> Result<TableSchema, Status>
    ensures found { IfOk result (λ schema. schema_with opened.now.metadata.current_schema opened.now.metadata.schemas ≡ Some schema) }
    ensures refused { IfErr result (λ status. (status ≡ Status.Memory) ⊎ ((status ≡ Status.TableBad TableKind.Later (version_name table.now opened.now.version))
        × (schema_with opened.now.metadata.current_schema opened.now.metadata.schemas ≡ None))) }
{
    match current_schema(&opened.metadata) {
        Some(schema) => Ok(copy_schema(alloc, schema)?),
        None => Err(no_schema(alloc, table, opened.version)),
    }
}

fn copy_schema(alloc: Global, schema: &TableSchema) -> Result<TableSchema, AllocError>
    ensures { IfOk result (λ copy. copy ≡ schema.now) }
{
    let mut columns = Vec::new(alloc);
    for column in schema.columns.as_slice() {
        columns.push(copy_column(alloc, column)?)?;
    }
    Ok(TableSchema {
        id: schema.id,
        columns: List::from_vec(columns),
    })
}

fn copy_column(alloc: Global, column: &Column) -> Result<Column, AllocError>
    ensures { IfOk result (λ copy. copy ≡ column.now) }
{
    Ok(Column {
        id: column.id,
        name: Text::copy_of(alloc, column.name.as_str())?,
        kind: column.kind,
        required: column.required,
    })
}

// What the bytes of a script say, where there are not too many.
fn script_by(alloc: Global, schema: &TableSchema, bytes: Option<Blob>) -> Result<Script, Status>
    ensures found { IfOk result (λ script. script_by schema.now bytes ≡ Ok script) }
    ensures read { IfOk result (WasRead schema.now) }
    ensures refused { IfErr result (StopsAt ⊥ (script_by schema.now bytes)) }
    ensures kind { IfErr result IsFormStop }
{
    let Some(bytes) = bytes else {
        return Err(Status::ScriptBad {
            line: 1,
            kind: ScriptKind::Limit,
        });
    };
    match read_script(alloc, bytes.as_slice(), schema) {
        Ok(script) => Ok(script),
        Err(fault) => Err(bad_script(fault)),
    }
}

fn bad_script(fault: ScriptFault) -> Status
    ensures { result ≡ bad_script fault }
{
    match fault {
        ScriptFault::Text => bad(1, ScriptKind::Text),
        ScriptFault::Limit(line) => bad(line, ScriptKind::Limit),
        ScriptFault::Token(line) => bad(line, ScriptKind::Token),
        ScriptFault::Form(line) => bad(line, ScriptKind::Form),
        ScriptFault::Name(line) => bad(line, ScriptKind::Name),
        ScriptFault::Kind(line) => bad(line, ScriptKind::Kind),
        ScriptFault::Later(line) => bad(line, ScriptKind::Later),
        ScriptFault::Memory => Status::Memory,
    }
}

fn bad(line: u32, kind: ScriptKind) -> Status
    ensures { result ≡ Status.ScriptBad line kind }
{
    Status::ScriptBad { line, kind }
}
