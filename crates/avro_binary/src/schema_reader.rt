ghost use Rattle.std.specs.Prelude.{◌≡◌};
ghost use Rattle.serde_json.specs.View.{view};
ghost use Rattle.avro_binary.specs.SchemaText.{start, schema_of, schema_from};
ghost use Rattle.plain_types.specs.Answers.{Answers};

use crate::names::Names;
use crate::schema::Schema;
use crate::schema_fault::SchemaFault;
use crate::schema_text::schema_at;
use plain_types::Items;
use serde_json::Value;
use std::alloc::Global;

fn start(alloc: Global) -> Names
    ensures { result ≡ start }
{
    Names {
        finished: Items::new(alloc),
        begun: Items::new(alloc),
        left: 100_000,
    }
}

#[tactic(auto, unfolding(crate::specs::SchemaText::schema_of))]
fn schema_of(alloc: Global, json: &Value) -> Result<Schema, SchemaFault>
    ensures { Answers SchemaFault.Memory (λ x. x) result (schema_of (view json.now)) }
{
    let (schema, _names) = schema_at(alloc, 32, b"", json, start(alloc))?;
    Ok(schema)
}

/// The schema of a JSON text. A reference to a named type stands as the type, which must be finished
/// before; other keys of the text aren't kept. A decimal whose digits are out of 1 to 38, or whose
/// scale is above them, is a logical type by its name alone.
///
/// Names aren't tested for their letters, nor unions for equal branches.
#[tactic(auto, unfolding(crate::specs::SchemaText::schema_from))]
pub fn read_schema(alloc: Global, bytes: &[u8]) -> Result<Schema, SchemaFault>
    ensures exact { Answers SchemaFault.Memory (λ x. x) result (schema_from bytes.now) }
{
    match Value::from_slice(alloc, bytes) {
        Ok(json) => schema_of(alloc, &json),
        Err(e) => {
            if e.is_memory() {
                Err(SchemaFault::Memory)
            } else {
                Err(SchemaFault::Json)
            }
        }
    }
}
