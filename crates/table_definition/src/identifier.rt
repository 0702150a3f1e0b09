// The identifier of a new table.
ghost use Rattle.std.specs.Prelude.{◌≡◌, true, IfOk, string_bytes};
ghost use Rattle.table_metadata.specs.TableKeys.{is_uuid};
ghost use Rattle.table_definition.specs.Identifier.{identifier_of, identifier_text, name_text};

use plain_types::Text;
use std::alloc::{AllocError, Global};
use uuid::Uuid;

/// The text of the identifier of a table that is made at a location and a time.
pub(crate) fn identifier_text(
    alloc: Global,
    location: &str,
    now_ms: i64,
) -> Result<Text, AllocError>
    ensures text { IfOk result (λ text. text ≡ identifier_text location.now now_ms) }
    ensures uuid { IfOk result (λ text. is_uuid text ≡ true) }
{
    let name = name_text(alloc, location, now_ms)?;
    let identifier = identifier_of(name.as_bytes());
    let mut buffer = Uuid::encode_buffer();
    let text = identifier.hyphenated().encode_lower(&mut buffer);
    Text::copy_of(alloc, text)
}

fn name_text(alloc: Global, location: &str, now_ms: i64) -> Result<String, AllocError>
    ensures { IfOk result (λ name. string_bytes name ≡ name_text location.now now_ms) }
{
    format!(in alloc; "{location}:{now_ms}")
}

fn identifier_of(name: &[u8]) -> Uuid
    ensures { result ≡ identifier_of name.now }
{
    Uuid::new_v5(&Uuid::NAMESPACE_URL, name)
}
