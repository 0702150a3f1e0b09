ghost use Rattle.std.specs.Prelude.{◌≡◌, ◌≤◌, IfOk, Some};
ghost use Rattle.serde_json.specs.Data.{depth};
ghost use Rattle.serde_json.specs.Read.{max_depth};
ghost use Rattle.avro_binary.specs.SchemaText.{json_of};
ghost use Rattle.avro_binary.specs.SchemaData.{data_of, schema_text};

use crate::schema::Schema;
use crate::schema_data::schema_json;
use std::alloc::{AllocError, Global};

/// The JSON text of a schema, with no space. A named type has its full name and its namespace where it stands
/// first, and is its full name alone from then on.
///
/// In a name that isn't UTF-8, U+FFFD stands for each part that is none. A schema that was read has no such name.
pub fn write_schema(alloc: Global, schema: &Schema) -> Result<Vec<u8>, AllocError>
    ensures text { IfOk result (λ text. text.items ≡ schema_text schema.now) }
    // The text is read as that JSON.
    ensures reads_back { IfOk result (λ text. depth (data_of schema.now) ≤ max_depth → json_of text.items ≡ Some (data_of schema.now)) }
{
    let (json, _names) = schema_json(alloc, schema, Vec::new(alloc))?;
    let text = json.to_vec(alloc)?;
    Ok(text)
}
