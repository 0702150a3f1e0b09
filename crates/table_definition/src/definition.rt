// Reads a schema file.
ghost use Rattle.std.specs.Prelude.{◌≡◌, IfOk, IfErr, OnOk, IsOk, Err};
ghost use Rattle.std.specs.Str.{is_utf8};
ghost use Rattle.plain_types.specs.Answers.{Answers};
ghost use Rattle.serde_json.specs.View.{view, members_view};
ghost use Rattle.table_definition.specs.Definition.{
  asked,
  asked_in,
  definition_of,
  fields_in,
  form_of,
  has_only_keys,
  is_key,
  is_struct,
  object_of,
  properties_in,
  schema_in,
  spec_in,
};

use crate::nesting::nests_within;
use iceberg_schema::{SchemaJsonFault, SpecFault, read_spec, read_table_schema, text_at};
use metadata_writer::spec_json;
use row_values::{Spec, TableSchema};
use serde_json::{Map, Value};
use std::alloc::{AllocError, Global};
use std::str;
use table_metadata::{MetadataFault, Properties, read_json, read_table_properties};

/// What a schema file asks for.
#[derive(Drop)]
pub struct Definition {
    pub schema: TableSchema,
    /// The partition spec, whose id is 0.
    pub spec: Spec,
    pub properties: Properties,
    /// The whole of the file, in which the schema, the fields and the properties stand as they were written.
    pub json: Value,
}

/// Why a file is no schema file.
#[derive(Clone, Copy, Debug, PartialEq, Eq)]
pub enum DefinitionFault {
    /// The bytes are not UTF-8.
    Text,
    /// The text is no JSON object of the three keys, or one of them is not in form: a schema that cannot be read, is
    /// absent or is not of the type `struct`, a spec that does not fit it, properties that are no texts or out of range, a number that is no whole number
    /// of 64 bits, or more than 125 levels of nesting.
    Schema,
    Memory,
}

impl From<AllocError> for DefinitionFault {
    ghost use Rattle.std.specs.Prelude.{◌≡◌};
    ghost use Rattle.table_definition.specs.declared.definition.DefinitionFault.TheVariants.{Memory};

    ghost from_gives = { λ _ e. e ≡ Memory };

    fn from(_: AllocError) -> Self {
        DefinitionFault::Memory
    }
}

/// The deepest that a schema file may nest: metadata nests 127 levels, and the file's parts stand in it two levels down.
const MOST_LEVELS: u32 = 125;

/// Reads a schema file.
#[tactic(auto, unfolding(crate::specs::Definition::definition_of))]
pub fn read_definition(alloc: Global, bytes: &[u8]) -> Result<Definition, DefinitionFault>
    ensures answers { Answers DefinitionFault.Memory (λ d. asked d) result (definition_of bytes.now) }
{
    if !is_text(bytes) {
        return Err(DefinitionFault::Text);
    }
    let json = object_of(alloc, bytes)?;
    read_asked(alloc, json)
}

fn is_text(bytes: &[u8]) -> bool
    ensures { result ≡ is_utf8 bytes.now }
{
    match str::from_utf8(bytes) {
        Ok(_) => true,
        Err(_) => false,
    }
}

fn object_of(alloc: Global, bytes: &[u8]) -> Result<Value, DefinitionFault>
    ensures answers { Answers DefinitionFault.Memory (λ json. view json) result (object_of bytes.now) }
{
    match read_json(alloc, bytes) {
        Ok(json) => Ok(json),
        Err(MetadataFault::Memory) => Err(DefinitionFault::Memory),
        Err(_other) => Err(DefinitionFault::Schema),
    }
}

#[tactic(auto, unfolding(crate::specs::Definition::asked_in))]
fn read_asked(alloc: Global, json: Value) -> Result<Definition, DefinitionFault>
    ensures answers { Answers DefinitionFault.Memory (λ d. asked d) result (asked_in (view json)) }
{
    check_form(&json)?;
    let schema = schema_in(alloc, &json)?;
    let spec = spec_in(alloc, &json, &schema)?;
    let properties = properties_in(alloc, &json)?;
    Ok(Definition {
        schema,
        spec,
        properties,
        json,
    })
}

#[tactic(auto, unfolding(crate::specs::Definition::form_of))]
fn check_form(json: &Value) -> Result<(), DefinitionFault>
    ensures ok { OnOk result (IsOk (form_of (view json.now))) }
    ensures err { IfErr result (λ f. form_of (view json.now) ≡ Err f) }
{
    let Some(members) = json.as_object() else {
        return Err(DefinitionFault::Schema);
    };
    if !has_only_keys(members) {
        return Err(DefinitionFault::Schema);
    }
    if !nests_within(json, MOST_LEVELS) {
        return Err(DefinitionFault::Schema);
    }
    Ok(())
}

#[tactic(auto, unfolding(crate::specs::Definition::has_only_keys))]
fn has_only_keys(members: &Map<String, Value>) -> bool
    ensures { result ≡ has_only_keys (members_view members.now.entries) }
{
    for (name, _) in members.iter() {
        if !is_key(name.as_str()) {
            return false;
        }
    }
    true
}

fn is_key(name: &str) -> bool
    ensures { result ≡ is_key name.now }
{
    name == "schema" || name == "partition-spec" || name == "properties"
}

// Whether it says that it is a struct, as other readers want of a schema.
fn is_struct(schema: &Value) -> bool
    ensures { result ≡ is_struct (view schema.now) }
{
    match text_at(schema, "type") {
        Some(name) => name == "struct",
        None => false,
    }
}

fn schema_in(alloc: Global, json: &Value) -> Result<TableSchema, DefinitionFault>
    ensures answers { Answers DefinitionFault.Memory (λ s. s) result (schema_in (view json.now)) }
{
    let Some(schema) = json.get("schema") else {
        return Err(DefinitionFault::Schema);
    };
    if !is_struct(schema) {
        return Err(DefinitionFault::Schema);
    }
    match read_table_schema(alloc, schema) {
        Ok(schema) => Ok(schema),
        Err(SchemaJsonFault::Memory) => Err(DefinitionFault::Memory),
        Err(_other) => Err(DefinitionFault::Schema),
    }
}

fn spec_in(alloc: Global, json: &Value, schema: &TableSchema) -> Result<Spec, DefinitionFault>
    ensures answers { Answers DefinitionFault.Memory (λ s. s) result (spec_in schema.now (view json.now)) }
{
    let spec = spec_json(alloc, fields_in(alloc, json)?)?;
    match read_spec(alloc, &spec, schema) {
        Ok(spec) => Ok(spec),
        Err(SpecFault::Memory) => Err(DefinitionFault::Memory),
        Err(_other) => Err(DefinitionFault::Schema),
    }
}

/// The JSON of the partition fields.
pub(crate) fn fields_in(alloc: Global, json: &Value) -> Result<Value, AllocError>
    ensures { IfOk result (λ v. view v ≡ fields_in (view json.now)) }
{
    match json.get("partition-spec") {
        Some(fields) => fields.clone(),
        None => Ok(Value::Array(Vec::new(alloc))),
    }
}

fn properties_in(alloc: Global, json: &Value) -> Result<Properties, DefinitionFault>
    ensures answers { Answers DefinitionFault.Memory (λ p. p) result (properties_in (view json.now)) }
{
    match read_table_properties(alloc, json) {
        Ok(properties) => Ok(properties),
        Err(MetadataFault::Memory) => Err(DefinitionFault::Memory),
        Err(_other) => Err(DefinitionFault::Schema),
    }
}
